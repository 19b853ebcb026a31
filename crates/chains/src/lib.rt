// One block, and chaining (document 003, section 10), block by block in the first block of a cell.
#![tactic(auto)]

ghost use Rattle.std.specs.Prelude.{◌≡◌, ◌++◌, ◌+◌, ◌*◌, ◌/◌, ◌%◌, ◌≤◌, ◌<◌, take, drop, length};
ghost use Rattle.sealer.specs.Sealing.{block_size, sealed_by};
ghost use Rattle.modes.specs.Blocks.{xor_block};
ghost use Rattle.modes.specs.Chain.{chained, cbc};
ghost use Rattle.one_block.specs.Held.{held};
ghost use Rattle.chains.specs.Links.{links};

use sealer::Sealer;

// One block sealed.
pub fn blk(sealer: &Sealer, text: &[u8], out: &mut [u8])
    requires { (length text.now ≡ block_size sealer.now) × (block_size sealer.now ≤ length out.old) }
    ensures { out.new ≡ sealed_by sealer.now text.now ++ drop (block_size sealer.now) out.old }
{
    let mut s = [0u16; 32];
    one_block::take_in(&mut s, sealer.columns, text, 0);
    one_block::seal_first(sealer, &mut s);
    one_block::give_out(&s, sealer.columns, out, 0);
}

// 10.2: a block of text, from a place on, added to the block before, and sealed.
pub fn link(sealer: &Sealer, s: &mut [u16], text: &[u8], at: usize)
    requires { (4 * sealer.now.columns ≤ length s.old) × (at + block_size sealer.now ≤ length text.now) }
    ensures { held sealer.now.columns s.new ≡ sealed_by sealer.now (xor_block (block_size sealer.now) (held sealer.now.columns s.old) (take (block_size sealer.now) (drop at text.now))) }
{
    one_block::add_in(s, sealer.columns, text, at);
    one_block::seal_first(sealer, s);
}

// n blocks of text chained from the block that the cell holds.
pub fn chain(sealer: &Sealer, s: &mut [u16], text: &[u8], n: usize)
    requires { (4 * sealer.now.columns ≤ length s.old) × (n * block_size sealer.now ≤ length text.now) }
    ensures { held sealer.now.columns s.new ≡ chained (block_size sealer.now) (sealed_by sealer.now) (held sealer.now.columns s.old) text.now n }
{
    for i in 0..n {
        link(sealer, s, text, i * (8 * sealer.columns));
    }
}

// The same, each block stored.
pub fn chain_out(sealer: &Sealer, s: &mut [u16], text: &[u8], n: usize, out: &mut [u8])
    requires { (4 * sealer.now.columns ≤ length s.old) × (n * block_size sealer.now ≤ length text.now) × (n * block_size sealer.now ≤ length out.old) }
    ensures { (held sealer.now.columns s.new ≡ chained (block_size sealer.now) (sealed_by sealer.now) (held sealer.now.columns s.old) text.now n) × (out.new ≡ links (block_size sealer.now) (sealed_by sealer.now) (held sealer.now.columns s.old) text.now n ++ drop (n * block_size sealer.now) out.old) }
{
    for i in 0..n {
        let at = i * (8 * sealer.columns);
        link(sealer, s, text, at);
        one_block::give_out(s, sealer.columns, out, at);
    }
}

// 10.2: whole blocks sealed.
pub fn cbc(sealer: &Sealer, iv: &[u8], text: &[u8], out: &mut [u8])
    requires { (length iv.now ≡ block_size sealer.now) × (length text.now % block_size sealer.now ≡ 0) × (length text.now ≤ length out.old) }
    ensures { out.new ≡ cbc (block_size sealer.now) (sealed_by sealer.now) iv.now text.now ++ drop (length text.now) out.old }
{
    let mut s = [0u16; 32];
    one_block::take_in(&mut s, sealer.columns, iv, 0);
    chain_out(sealer, &mut s, text, text.len() / (8 * sealer.columns), out);
}
