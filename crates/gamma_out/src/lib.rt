// How a gamma in the cell meets the text (document 003, sections 7, 8 and 11), on cells of at most 1,024 bytes.
#![tactic(auto)]

ghost use Rattle.std.specs.Prelude.{◌≡◌, ◌++◌, ◌+◌, ◌*◌, ◌%◌, ◌≤◌, get_or, take, drop, length};
ghost use Rattle.common.specs.Places.{tab};
ghost use Rattle.field.specs.Xor.{xor};
ghost use Rattle.blocks.specs.Blocks.{Width};
ghost use Rattle.modes.specs.Cell.{blocks_in};
ghost use Rattle.stream_laws.specs.Gammas.{cell_byte};

// The blocks of a text of n bytes, the short one counted.
pub fn blocks_of(n: usize, c: usize) -> usize
    requires { Width c × (n ≤ 1024) }
    ensures { result ≡ blocks_in (8 * c) n }
{
    n.div_ceil(8 * c)
}

// n bytes of the text, from a place on, with the front of the cell added: whole columns, then what is left.
pub fn add_front(s: &[u16], text: &[u8], out: &mut [u8], at: usize, n: usize)
    requires { (n ≤ 2 * length s.now) × (length s.now % 4 ≡ 0) × (at + n ≤ length text.now) × (at + n ≤ length out.old) }
    ensures { out.new ≡ take at out.old ++ (tab n (λ i. xor (get_or text.now (at + i) 0) (cell_byte s.now i)) ++ drop (at + n) out.old) }
{
    let m = n / 8;
    cells::xor_out(s, 0, text, out, at, m);
    cells::xor_rest(s, 8 * m, text, out, at + 8 * m, n - 8 * m);
}
