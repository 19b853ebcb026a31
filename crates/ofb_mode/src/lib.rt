// Section 11 of document 003: the gamma fed back, on cells of at most 1,024 bytes.
#![tactic(auto)]

ghost use Rattle.std.specs.Prelude.{◌≡◌, ◌++◌, ◌+◌, ◌*◌, ◌≤◌, ◌<◌, drop, length};
ghost use Rattle.words.specs.Words.{block_at};
ghost use Rattle.kalyna.specs.State.{columns_of};
ghost use Rattle.sealer.specs.Sealing.{block_size, sealed_by};
ghost use Rattle.modes.specs.Stream as Stream;
ghost use Rattle.stream_laws.specs.Gammas.{Written, added, ofb_fed};

use sealer::Sealer;

// q whole blocks; what is fed to the next block stays in the cell.
fn ofb_whole(sealer: &Sealer, iv: &[u8], text: &[u8], gamma: &mut [u16], out: &mut [u8], q: usize)
    requires { (length iv.now ≡ block_size sealer.now) × (4 * sealer.now.columns ≤ length gamma.old) × (q * block_size sealer.now ≤ length text.now) × (length text.now ≤ length out.old) }
    ensures { (block_at sealer.now.columns gamma.new 0 ≡ columns_of sealer.now.columns (ofb_fed (sealed_by sealer.now) iv.now q)) × Written (added (block_size sealer.now) (Stream.ofb_gamma (sealed_by sealer.now) iv.now) (Stream.front (block_size sealer.now)) text.now) (q * block_size sealer.now) out.old out.new }
{
    let c = sealer.columns;
    cells::load(gamma, 0, iv, 0, c);
    for i in 0..q {
        let at = i * (8 * c);
        sealer.seal(gamma, 1);
        cells::xor_out(gamma, 0, text, out, at, c);
    }
}

pub fn ofb(sealer: &Sealer, iv: &[u8], text: &[u8], out: &mut [u8])
    requires { (length iv.now ≡ block_size sealer.now) × (length text.now ≤ 1024) × (length text.now ≤ length out.old) }
    ensures { out.new ≡ Stream.ofb (block_size sealer.now) (sealed_by sealer.now) iv.now text.now ++ drop (length text.now) out.old }
{
    let long = text.len();
    let b = 8 * sealer.columns;
    let q = long / b;
    let at = q * b;
    let mut e = [0u16; 32];
    ofb_whole(sealer, iv, text, &mut e, out, q);
    if at == long {
        return;
    }
    sealer.seal(&mut e, 1);
    gamma_out::add_front(&e, text, out, at, long - at);
}
