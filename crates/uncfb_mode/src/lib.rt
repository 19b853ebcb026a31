// Section 8 of document 003, opened: all gammas are known at once, on cells of at most 1,024 bytes.
#![tactic(auto)]

ghost use Rattle.std.specs.Prelude.{◌≡◌, ◌++◌, ◌+◌, ◌-◌, ◌*◌, ◌≤◌, ◌<◌, drop, length};
ghost use Rattle.kalyna.specs.State.{columns_of};
ghost use Rattle.sealer.specs.Sealing.{block_size, sealed, sealed_by};
ghost use Rattle.modes.specs.Blocks as Text;
ghost use Rattle.modes.specs.Stream as Stream;
ghost use Rattle.stream_laws.specs.Gammas.{Laid};

use sealer::Sealer;

// The IV and the sealed blocks before the last, all sealed.
fn uncfb_gammas(sealer: &Sealer, iv: &[u8], text: &[u8], s: &mut [u16], n: usize)
    requires { (length iv.now ≡ block_size sealer.now) × (0 < n) × ((n - 1) * block_size sealer.now ≤ length text.now) × (4 * (sealer.now.columns * n) ≤ length s.old) }
    ensures { Laid sealer.now.columns n (λ i. sealed sealer.now (columns_of sealer.now.columns (Text.before (block_size sealer.now) iv.now text.now i))) s.old s.new }
{
    let c = sealer.columns;
    cells::load(s, 0, iv, 0, c);
    cells::load(s, c, text, 0, c * (n - 1));
    sealer.seal(s, n);
}

// A short last block takes the last bytes of its gamma.
pub fn uncfb(sealer: &Sealer, iv: &[u8], text: &[u8], out: &mut [u8])
    requires { (length iv.now ≡ block_size sealer.now) × (length text.now ≤ 1024) × (length text.now ≤ length out.old) × (0 < length text.now) }
    ensures { out.new ≡ Stream.uncfb (block_size sealer.now) (sealed_by sealer.now) iv.now text.now ++ drop (length text.now) out.old }
{
    let long = text.len();
    let mut s = [0u16; 512];
    uncfb_gammas(
        sealer,
        iv,
        text,
        &mut s,
        gamma_out::blocks_of(long, sealer.columns),
    );
    let b = 8 * sealer.columns;
    let at = long / b * b;
    gamma_out::add_front(&s, text, out, 0, at);
    if at == long {
        return;
    }
    let r = long - at;
    cells::xor_rest(&s, at + (b - r), text, out, at, r);
}
