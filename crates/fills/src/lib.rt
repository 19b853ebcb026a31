// The fill (document 003, Annex Б): put on a text that is chained, and found in what was opened.
#![tactic(auto)]

ghost use Rattle.std.specs.Prelude.{◌≡◌, [], ◌∷◌, ◌++◌, ◌+◌, ◌*◌, ◌/◌, ◌≤◌, ◌<◌, get_or, take, drop, length, replicate, IfSome};
ghost use Rattle.common.specs.Places.{tab};
ghost use Rattle.sealer.specs.Sealing.{block_size, sealed_by};
ghost use Rattle.blocks.specs.Blocks.{Width};
ghost use Rattle.modes.specs.Blocks.{block_at, xor_block};
ghost use Rattle.modes.specs.Chain.{cbc};
ghost use Rattle.modes.specs.Fill.{fill, unfill};
ghost use Rattle.one_block.specs.Held.{held};
ghost use Rattle.fills.specs.Ended.{ended, some_length};

use sealer::Sealer;

// Б.2: what is left of the text from a place on, 80, and zeros.
fn last_block(text: &[u8], at: usize, last: &mut [u8])
    requires { (last.old ≡ replicate 64 0) × (at ≤ length text.now) × (length text.now < at + 64) }
    ensures { last.new ≡ tab 64 (λ i. get_or (text.now ++ (0x80 ∷ [])) (at + i) 0) }
{
    let rest = text.len() - at;
    last[..rest].copy_from_slice(&text[at..]);
    last[rest] = 128;
}

// The last block of the filled text added to the first block of the cell; it starts at a place of the text.
pub fn add_filled(s: &mut [u16], c: usize, text: &[u8], at: usize)
    requires { Width c × (4 * c ≤ length s.old) × (at ≡ length text.now / (8 * c) * (8 * c)) }
    ensures { held c s.new ≡ xor_block (8 * c) (held c s.old) (block_at (8 * c) (fill (8 * c) text.now) (length text.now / (8 * c))) }
{
    let mut last = [0u8; 64];
    last_block(text, at, &mut last);
    one_block::add_in(s, c, &last, 0);
}

// The filled text sealed: whole blocks from the text, the last one made here.
pub fn cbp(sealer: &Sealer, iv: &[u8], text: &[u8], out: &mut [u8])
    requires { (length iv.now ≡ block_size sealer.now) × (block_size sealer.now * (length text.now / block_size sealer.now + 1) ≤ length out.old) }
    ensures { out.new ≡ cbc (block_size sealer.now) (sealed_by sealer.now) iv.now (fill (block_size sealer.now) text.now) ++ drop (block_size sealer.now * (length text.now / block_size sealer.now + 1)) out.old }
{
    let c = sealer.columns;
    let q = text.len() / (8 * c);
    let mut s = [0u16; 32];
    one_block::take_in(&mut s, c, iv, 0);
    chains::chain_out(sealer, &mut s, text, q, out);
    add_filled(&mut s, c, text, q * (8 * c));
    one_block::seal_first(sealer, &mut s);
    one_block::give_out(&s, c, out, q * (8 * c));
}

// A length, if it is of any byte.
fn some_length(m: usize) -> Option<usize>
    ensures { result ≡ some_length m }
{
    if m == 0 {
        return None;
    }
    Some(m)
}

// Б.3: the length of the text that is filled in the n leading bytes of p, none where there is no fill, or one over nothing; the 80 is looked for back through the last block only.
pub fn text_end(p: &[u8], n: usize, b: usize) -> Option<usize>
    requires { (b ≤ n) × (n ≤ length p.now) }
    ensures { (unfill b (take n p.now) ≡ ended result (take n p.now)) × IfSome result (λ m. (0 < m) × (m ≤ n)) }
{
    for k in (0..b).rev() {
        let x = p[n - b + k];
        if x == 128 {
            return some_length(n - b + k);
        }
        if x != 0 {
            return None;
        }
    }
    None
}
