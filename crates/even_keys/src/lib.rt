// The round keys of even index (document 003, 6.5.2), all made at once, as lanes of one walk.
#![tactic(auto)]

ghost use Rattle.std.specs.Prelude.{◌≡◌, ◌+◌, ◌*◌, ◌%◌, ◌^◌, ◌≤◌, get_or, length};
ghost use Rattle.lookup.specs.Table.{seal_table};
ghost use Rattle.words.specs.Words.{word_at, block_at};
ghost use Rattle.kalyna.specs.Round.{add_key, xor_key};
ghost use Rattle.kalyna.specs.Keys.{even_key};
ghost use Rattle.blocks.specs.Blocks.{Width, keys_of};
ghost use Rattle.key_laws.specs.Stores.{Stored, Spread, Laned, Lanes, Lane};
ghost use Rattle.key_laws.specs.Turns.{Sized};

// One lane, from column w on: its addend is the helper key h and the constant g, and it starts as the key turned by u columns, with the addend.
fn lane(
    s: &mut [u16],
    a: &mut [u64],
    w: usize,
    h: &[u16],
    g: u64,
    k: &[u64],
    c: usize,
    kc: usize,
    u: usize,
)
    requires { Width kc × (length k.now ≡ kc) × (c ≤ 8) × (u ≤ 16) × (4 * c ≤ length h.now) × (w + c ≤ length a.old) × (4 * (w + c) ≤ length s.old) }
    ensures { Lane c kc k.now h.now w u g a.old a.new s.old s.new }
{
    for j in 0..c {
        let x = column_words::added(words::word_at(h, j), g);
        a[w + j] = x;
        words::put_word(
            s,
            w + j,
            column_words::added(k[turns::around(j + u, kc)], x),
        );
    }
}

// The lanes of n even keys. The constant is doubled from lane to lane.
fn lanes(s: &mut [u16], a: &mut [u64], h: &[u16], k: &[u64], c: usize, kc: usize, n: usize)
    requires { Sized c kc × (length k.now ≡ kc) × (n ≤ 10) × (4 * c ≤ length h.now) × (c * n ≤ length a.old) × (4 * (c * n) ≤ length s.old) }
    ensures { Lanes c kc n k.now (block_at c h.now 0) a.new s.new }
{
    let mut g: u64 = 281479271743489;
    for i in 0..n {
        lane(s, a, c * i, h, g, k, c, kc, turns::turn_of(c, kc, i));
        g = column_words::added(g, g);
    }
}

// Each lane with its addend, modulo 2.
fn xor_lanes(s: &mut [u16], a: &[u64], c: usize, n: usize)
    requires { (c * n ≤ length a.now) × (4 * (c * n) ≤ length s.old) }
    ensures { Laned c n (λ e. xor_key c (keys_of c a.now e)) s.old s.new }
{
    let m = c * n;
    for j in 0..m {
        let x = words::word_at(s, j);
        words::put_word(s, j, field::x64(x, a[j]));
    }
}

// One lane, from column w on, with its addend, is the key at a place of ks.
fn keep(ks: &mut [u64], at: usize, s: &[u16], a: &[u64], w: usize, c: usize)
    requires { (at + c ≤ length ks.old) × (w + c ≤ length a.now) × (4 * (w + c) ≤ length s.now) }
    ensures { Stored at c (λ j. (word_at s.now (w + j) + get_or a.now (w + j) 0) % 2 ^ 64) ks.old ks.new }
{
    for j in 0..c {
        ks[at + j] = column_words::added(words::word_at(s, w + j), a[w + j]);
    }
}

// The lanes, each with its addend, are the even keys.
fn keep_lanes(ks: &mut [u64], s: &[u16], a: &[u64], c: usize, n: usize)
    requires { (c * (2 * n) ≤ length ks.old) × (c * n ≤ length a.now) × (4 * (c * n) ≤ length s.now) }
    ensures { Spread c 0 n (λ e. add_key c (keys_of c a.now e) (block_at c s.now e)) ks.old ks.new }
{
    for i in 0..n {
        keep(ks, 2 * c * i, s, a, c * i, c);
    }
}

// 6.5.2: n even keys, from the helper key h.
pub fn even_keys(
    t: &[u8; 8192],
    ks: &mut [u64],
    h: &[u16],
    k: &[u64],
    c: usize,
    kc: usize,
    n: usize,
)
    requires { (t.now ≡ seal_table) × Sized c kc × (length k.now ≡ kc) × (n ≤ 10) × (4 * c ≤ length h.now) × (c * (2 * n) ≤ length ks.old) }
    ensures { Spread c 0 n (even_key c kc k.now (block_at c h.now 0)) ks.old ks.new }
{
    let none = [0u64; 8];
    let mut a = [0u64; 80];
    let mut s = [0u16; 320];
    lanes(&mut s, &mut a, h, k, c, kc, n);
    seal_block::round(t, &mut s, n, c, &none, 0);
    xor_lanes(&mut s, &a, c, n);
    seal_block::round(t, &mut s, n, c, &none, 0);
    keep_lanes(ks, &s, &a, c, n);
}
