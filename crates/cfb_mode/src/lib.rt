// Section 8 of document 003: the sealed text fed back, on cells of at most 1,024 bytes.
#![tactic(auto)]

ghost use Rattle.std.specs.Prelude.{◌≡◌, ◌++◌, ◌+◌, ◌*◌, ◌≤◌, ◌<◌, drop, length};
ghost use Rattle.words.specs.Words.{block_at};
ghost use Rattle.kalyna.specs.State.{columns_of};
ghost use Rattle.sealer.specs.Sealing.{block_size, sealed_by};
ghost use Rattle.modes.specs.Stream as Stream;
ghost use Rattle.stream_laws.specs.Gammas.{Written, added, cfb_fed};

use sealer::Sealer;

// q whole blocks; the sealed block before the next one stays in the cell.
fn cfb_whole(sealer: &Sealer, iv: &[u8], text: &[u8], e: &mut [u16], out: &mut [u8], q: usize)
    requires { (length iv.now ≡ block_size sealer.now) × (4 * sealer.now.columns ≤ length e.old) × (q * block_size sealer.now ≤ length text.now) × (length text.now ≤ length out.old) }
    ensures { (block_at sealer.now.columns e.new 0 ≡ columns_of sealer.now.columns (cfb_fed (block_size sealer.now) (sealed_by sealer.now) iv.now text.now q)) × Written (added (block_size sealer.now) (Stream.cfb_gamma (block_size sealer.now) (sealed_by sealer.now) iv.now text.now) (Stream.rear (block_size sealer.now) (length text.now)) text.now) (q * block_size sealer.now) out.old out.new }
{
    let c = sealer.columns;
    cells::load(e, 0, iv, 0, c);
    for i in 0..q {
        let at = i * (8 * c);
        sealer.seal(e, 1);
        cells::xor_out(e, 0, text, out, at, c);
        cells::xor_in(e, 0, text, at, c);
    }
}

pub fn cfb(sealer: &Sealer, iv: &[u8], text: &[u8], out: &mut [u8])
    requires { (length iv.now ≡ block_size sealer.now) × (length text.now ≤ 1024) × (length text.now ≤ length out.old) }
    ensures { out.new ≡ Stream.cfb (block_size sealer.now) (sealed_by sealer.now) iv.now text.now ++ drop (length text.now) out.old }
{
    let long = text.len();
    let b = 8 * sealer.columns;
    let q = long / b;
    let at = q * b;
    let mut e = [0u16; 32];
    cfb_whole(sealer, iv, text, &mut e, out, q);
    if at == long {
        return;
    }
    let r = long - at;
    sealer.seal(&mut e, 1);
    cells::xor_rest(&e, b - r, text, out, at, r);
}
