// All blocks of a cell opened: a round walks over all of them, with the table of opening and with keys that are mixed back beforehand.
#![tactic(auto)]

ghost use Rattle.std.specs.Prelude.{◌≡◌, ◌+◌, ◌-◌, ◌*◌, ◌/◌, ◌%◌, ◌^◌, ◌<◌, ◌≤◌, length, slice_index};
ghost use Rattle.substitutions.specs.Tables.{substitutions, unsubstitutions};
ghost use Rattle.lookup.specs.Table.{open_table};
ghost use Rattle.words.specs.Words.{word_at, put_words, Walked};
ghost use Rattle.rounds.specs.Rounds.{key_at};
ghost use Rattle.blocks.specs.Blocks.{Width, keys_of};
ghost use Rattle.open_laws.specs.Opening.{first_round, open_round, open_rounds, open_with, swapped, Unmixed};

use rounds::Opening;

// The byte x substituted by table i of the row p, as the low byte of a piece.
fn low_at(p: &[u8; 1024], i: usize, x: u64) -> u16
    requires { (i < 4) × (x < 256) }
    ensures { result % 256 ≡ slice_index p.now (256 * i + x) }
{
    u16::from(p[256 * i + x as usize])
}

// And as the high byte of a piece.
fn high_at(p: &[u8; 1024], i: usize, x: u64) -> u16
    requires { (i < 4) × (x < 256) }
    ensures { result / 256 ≡ slice_index p.now (256 * i + x) }
{
    u16::from(p[256 * i + x as usize]) * 256
}

// The bytes of a column substituted by the row p of four tables, and gathered from the table t.
fn swap(t: &[u8; 8192], p: &[u8; 1024], w: u64) -> u64
    ensures { result ≡ swapped t.now p.now w }
{
    let a = low_at(p, 0, w % 256);
    let b = high_at(p, 1, w / 256 % 256);
    let c = low_at(p, 2, w / 65536 % 256);
    let d = high_at(p, 3, w / 16777216 % 256);
    let e = low_at(p, 0, w / 4294967296 % 256);
    let f = high_at(p, 1, w / 1099511627776 % 256);
    let g = low_at(p, 2, w / 281474976710656 % 256);
    let h = high_at(p, 3, w / 72057594037927936 % 256);
    columns::column(t, a, b, c, d, e, f, g, h)
}

// Round keys 1 to r - 1, of c columns each, mixed back in place.
pub fn keys_back(t: &[u8; 8192], p: &[u8; 1024], ks: &mut [u64], c: usize, r: usize)
    requires { (t.now ≡ open_table) × (p.now ≡ substitutions) × (0 < r) × (c * r ≤ length ks.old) }
    ensures { Unmixed c (c * r) ks.old ks.new }
{
    let end = c * r;
    for k in c..end {
        let x = ks[k];
        ks[k] = swap(t, p, x);
    }
}

// A round over n blocks.
fn walk(t: &[u8; 8192], s: &mut [u16], n: usize, c: usize, ks: &[u64], at: usize)
    requires { (t.now ≡ open_table) × Width c × (4 * (c * n) ≤ length s.old) × (at + c ≤ length ks.now) }
    ensures { Walked c n (open_round c (key_at c ks.now at)) s.old s.new }
{
    if c == 2 {
        rounds::walk::<Opening, 2>(t, s, n, ks, at);
    } else if c == 4 {
        rounds::walk::<Opening, 4>(t, s, n, ks, at);
    } else {
        rounds::walk::<Opening, 8>(t, s, n, ks, at);
    }
}

// Rounds with keys r - 1 to 1.
fn walks(t: &[u8; 8192], s: &mut [u16], n: usize, c: usize, r: usize, ks: &[u64])
    requires { (t.now ≡ open_table) × Width c × (0 < r) × (4 * (c * n) ≤ length s.old) × (c * r ≤ length ks.now) }
    ensures { Walked c n (open_rounds c (keys_of c ks.now) (r - 1)) s.old s.new }
{
    for v in (1..r).rev() {
        walk(t, s, n, c, ks, c * v);
    }
}

// Before the rounds: one block, which starts at column w, less the key at a place of ks, and swapped.
fn start_block(
    t: &[u8; 8192],
    p: &[u8; 1024],
    s: &mut [u16],
    w: usize,
    c: usize,
    ks: &[u64],
    at: usize,
)
    requires { (4 * (w + c) ≤ length s.old) × (at + c ≤ length ks.now) }
    ensures { s.new ≡ put_words s.old w c (λ j. swapped t.now p.now ((word_at s.old (w + j) + 2 ^ 64 - slice_index ks.now (at + j) % 2 ^ 64) % 2 ^ 64)) }
{
    for j in 0..c {
        let x = words::word_at(s, w + j);
        words::put_word(
            s,
            w + j,
            swap(t, p, std::num::wrapping_sub_u64(x, ks[at + j])),
        );
    }
}

// All n blocks less the key at a place of ks, and mixed back.
fn start_blocks(
    t: &[u8; 8192],
    p: &[u8; 1024],
    s: &mut [u16],
    n: usize,
    c: usize,
    ks: &[u64],
    at: usize,
)
    requires { (t.now ≡ open_table) × (p.now ≡ substitutions) × (4 * (c * n) ≤ length s.old) × (at + c ≤ length ks.now) }
    ensures { Walked c n (first_round c (key_at c ks.now at)) s.old s.new }
{
    for i in 0..n {
        start_block(t, p, s, c * i, c, ks, at);
    }
}

// All n blocks of c columns opened, with r rounds and round keys ks that are mixed back.
pub fn open_blocks(
    t: &[u8; 8192],
    p: &[u8; 1024],
    u: &[u8; 1024],
    s: &mut [u16],
    n: usize,
    c: usize,
    r: usize,
    ks: &[u64],
)
    requires { (t.now ≡ open_table) × (p.now ≡ substitutions) × (u.now ≡ unsubstitutions) × Width c × (0 < r) × (4 * (c * n) ≤ length s.old) × (c * (r + 1) ≤ length ks.now) }
    ensures { Walked c n (open_with c r (keys_of c ks.now)) s.old s.new }
{
    start_blocks(t, p, s, n, c, ks, c * r);
    walks(t, s, n, c, r, ks);
    open_last::last_blocks(u, s, n, c, ks, 0);
}
