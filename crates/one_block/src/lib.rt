// The first block of a cell, by its bytes: taken in, added to, sealed, given out.
#![tactic(auto)]

ghost use Rattle.std.specs.Prelude.{◌≡◌, ◌++◌, ◌+◌, ◌*◌, ◌≤◌, take, drop, length};
ghost use Rattle.sealer.specs.Sealing.{sealed_by};
ghost use Rattle.modes.specs.Blocks.{xor_block};
ghost use Rattle.one_block.specs.Held.{held};

use sealer::Sealer;

// A block of bytes, from a place of b on, becomes the first block.
pub fn take_in(s: &mut [u16], c: usize, b: &[u8], at: usize)
    requires { (4 * c ≤ length s.old) × (at + 8 * c ≤ length b.now) }
    ensures { held c s.new ≡ take (8 * c) (drop at b.now) }
{
    cells::load(s, 0, b, at, c);
}

// The same, added modulo 2 to the first block.
pub fn add_in(s: &mut [u16], c: usize, b: &[u8], at: usize)
    requires { (4 * c ≤ length s.old) × (at + 8 * c ≤ length b.now) }
    ensures { held c s.new ≡ xor_block (8 * c) (held c s.old) (take (8 * c) (drop at b.now)) }
{
    cells::xor_in(s, 0, b, at, c);
}

// The first block sealed.
pub fn seal_first(sealer: &Sealer, s: &mut [u16])
    requires { 4 * sealer.now.columns ≤ length s.old }
    ensures { held sealer.now.columns s.new ≡ sealed_by sealer.now (held sealer.now.columns s.old) }
{
    sealer.seal(s, 1);
}

// The first block's bytes, stored from a place of o on.
pub fn give_out(s: &[u16], c: usize, o: &mut [u8], at: usize)
    requires { (4 * c ≤ length s.now) × (at + 8 * c ≤ length o.old) }
    ensures { o.new ≡ take at o.old ++ (held c s.now ++ drop (at + 8 * c) o.old) }
{
    cells::store(s, 0, o, at, c);
}
