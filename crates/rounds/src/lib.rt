// A round over all blocks of a cell, so that independent blocks overlap in the processor: in either direction, for each number of columns.
#![tactic(auto)]

ghost use Rattle.std.specs.Prelude.{◌≡◌, ℕ, ◌+◌, ◌*◌, ◌<◌, ◌≤◌, get_or, length};
ghost use Rattle.common.specs.Places.{tab};
ghost use Rattle.field.specs.Xor.{xor};
ghost use Rattle.words.specs.Words.{put_words, block_at, Walked};
ghost use Rattle.rounds.specs.Rounds.{Looked, seal_places, open_places, key_at, round_of};

// Which way the rows of a block move in a round.
pub trait Direction {
    ghost places: { ℕ → ℕ → ℕ → ℕ };

    // The column of c that holds row i of column j before the round.
    fn place(c: usize, i: usize, j: usize) -> usize
        requires { (c ≤ 8) × (i < 8) × (j < c) }
        ensures { (result ≡ places c i j) × (result < c) };
}

// 6.3.4: row i moves right.
pub struct Sealing;

impl Direction for Sealing {
    ghost places = { seal_places };

    fn place(c: usize, i: usize, j: usize) -> usize {
        (j + c - i * c / 8) % c
    }
}

// 6.4.4: row i moves left.
pub struct Opening;

impl Direction for Opening {
    ghost places = { open_places };

    fn place(c: usize, i: usize, j: usize) -> usize {
        (j + i * c / 8) % c
    }
}

// Piece q of each column of block b.
pub fn pieces<const C: usize>(s: &[u16], b: usize, q: usize) -> [u16; C]
    requires { (q < 4) × (4 * (C * b + C) ≤ length s.now) }
    ensures { result ≡ tab C (λ k. get_or s.now (4 * (C * b + k) + q) 0) }
{
    let mut o = [0u16; C];
    for k in 0..C {
        o[k] = s[4 * (C * b + k) + q];
    }
    o
}

// Block b by lookups: each column, row by row, from the pieces that hold it.
fn mix<D: Direction, const C: usize>(t: &[u8; 8192], s: &[u16], b: usize) -> [u64; C]
    requires { (C ≤ 8) × (4 * (C * b + C) ≤ length s.now) }
    ensures { Looked t.now C (D.places C) (block_at C s.now b) result }
{
    let p = pieces::<C>(s, b, 0);
    let q = pieces::<C>(s, b, 1);
    let u = pieces::<C>(s, b, 2);
    let v = pieces::<C>(s, b, 3);
    let mut o = [0u64; C];
    for j in 0..C {
        o[j] = columns::column(
            t,
            p[D::place(C, 0, j)],
            p[D::place(C, 1, j)],
            q[D::place(C, 2, j)],
            q[D::place(C, 3, j)],
            u[D::place(C, 4, j)],
            u[D::place(C, 5, j)],
            v[D::place(C, 6, j)],
            v[D::place(C, 7, j)],
        );
    }
    o
}

// Block b of C columns replaced by x, with the key at a place of ks added modulo 2.
pub fn keyed<const C: usize>(s: &mut [u16], b: usize, ks: &[u64], at: usize, x: [u64; C])
    requires { (4 * (C * b + C) ≤ length s.old) × (at + C ≤ length ks.now) }
    ensures { s.new ≡ put_words s.old (C * b) C (λ j. xor (get_or x.entry j 0) (get_or ks.now (at + j) 0)) }
{
    for j in 0..C {
        words::put_word(s, C * b + j, field::x64(x[j], ks[at + j]));
    }
}

// A round over n blocks of C columns, with the key at a place of ks.
pub fn walk<D: Direction, const C: usize>(
    t: &[u8; 8192],
    s: &mut [u16],
    n: usize,
    ks: &[u64],
    at: usize,
)
    requires { (C ≤ 8) × (4 * (C * n) ≤ length s.old) × (at + C ≤ length ks.now) }
    ensures { Walked C n (round_of t.now C (D.places C) (key_at C ks.now at)) s.old s.new }
{
    for i in 0..n {
        let x = mix::<D, C>(t, s, i);
        keyed::<C>(s, i, ks, at, x);
    }
}
