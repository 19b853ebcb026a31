// The last step of opening: each block shifted and substituted back, and key 0 subtracted.
#![tactic(auto)]

ghost use Rattle.std.specs.Prelude.{◌≡◌, ◌+◌, ◌-◌, ◌*◌, ◌/◌, ◌%◌, ◌^◌, ◌<◌, ◌≤◌, [], ◌∷◌, length, slice_index};
ghost use Rattle.substitutions.specs.Tables.{unsubstitutions};
ghost use Rattle.words.specs.Words.{put_words, Walked};
ghost use Rattle.rounds.specs.Rounds.{key_at};
ghost use Rattle.blocks.specs.Blocks.{Width};
ghost use Rattle.open_last.specs.Last.{replaced, Replaced};
ghost use Rattle.open_laws.specs.Opening.{last_round};

use rounds::{Direction, Opening};

// The byte x replaced by table i of the row u.
fn byte_at(u: &[u8; 1024], i: usize, x: u16) -> u64
    requires { (i < 4) × (x < 256) }
    ensures { (result ≡ slice_index u.now (256 * i + x)) × (result < 256) }
{
    u[256 * i + x as usize] as u64
}

// A column, each row of it replaced, from the eight pieces that hold its rows.
fn column_of(u: &[u8; 1024], a: u16, b: u16, c: u16, d: u16, e: u16, f: u16, g: u16, h: u16) -> u64
    ensures { result ≡ replaced u.now (λ i. slice_index (a % 256 ∷ b / 256 ∷ c % 256 ∷ d / 256 ∷ e % 256 ∷ f / 256 ∷ g % 256 ∷ h / 256 ∷ []) i) }
{
    let p = byte_at(u, 3, h / 256) * 256 + byte_at(u, 2, g % 256);
    let q = p * 256 + byte_at(u, 1, f / 256);
    let v = q * 256 + byte_at(u, 0, e % 256);
    let w = v * 256 + byte_at(u, 3, d / 256);
    let x = w * 256 + byte_at(u, 2, c % 256);
    let y = x * 256 + byte_at(u, 1, b / 256);
    y * 256 + byte_at(u, 0, a % 256)
}

// Block b: each column, row by row, from the pieces that hold it.
fn last<const C: usize>(u: &[u8; 1024], s: &[u16], b: usize) -> [u64; C]
    requires { (C ≤ 8) × (4 * (C * b + C) ≤ length s.now) }
    ensures { Replaced u.now C s.now (C * b) result }
{
    let p = rounds::pieces::<C>(s, b, 0);
    let q = rounds::pieces::<C>(s, b, 1);
    let v = rounds::pieces::<C>(s, b, 2);
    let w = rounds::pieces::<C>(s, b, 3);
    let mut o = [0u64; C];
    for j in 0..C {
        o[j] = column_of(
            u,
            p[Opening::place(C, 0, j)],
            p[Opening::place(C, 1, j)],
            q[Opening::place(C, 2, j)],
            q[Opening::place(C, 3, j)],
            v[Opening::place(C, 4, j)],
            v[Opening::place(C, 5, j)],
            w[Opening::place(C, 6, j)],
            w[Opening::place(C, 7, j)],
        );
    }
    o
}

// The block that starts at column w replaced by x, less the key at a place of ks.
fn less_block<const C: usize>(s: &mut [u16], w: usize, ks: &[u64], at: usize, x: [u64; C])
    requires { (4 * (w + C) ≤ length s.old) × (at + C ≤ length ks.now) }
    ensures { s.new ≡ put_words s.old w C (λ j. (slice_index x.entry j + 2 ^ 64 - slice_index ks.now (at + j) % 2 ^ 64) % 2 ^ 64) }
{
    for j in 0..C {
        words::put_word(s, w + j, std::num::wrapping_sub_u64(x[j], ks[at + j]));
    }
}

// All n blocks of C columns shifted and substituted back, less the key at a place of ks.
fn lasts<const C: usize>(u: &[u8; 1024], s: &mut [u16], n: usize, ks: &[u64], at: usize)
    requires { (u.now ≡ unsubstitutions) × (C ≤ 8) × (4 * (C * n) ≤ length s.old) × (at + C ≤ length ks.now) }
    ensures { Walked C n (last_round C (key_at C ks.now at)) s.old s.new }
{
    for i in 0..n {
        let x = last::<C>(u, s, i);
        less_block::<C>(s, C * i, ks, at, x);
    }
}

// All n blocks of c columns shifted and substituted back, less the key at a place of ks.
pub fn last_blocks(u: &[u8; 1024], s: &mut [u16], n: usize, c: usize, ks: &[u64], at: usize)
    requires { (u.now ≡ unsubstitutions) × Width c × (4 * (c * n) ≤ length s.old) × (at + c ≤ length ks.now) }
    ensures { Walked c n (last_round c (key_at c ks.now at)) s.old s.new }
{
    if c == 2 {
        lasts::<2>(u, s, n, ks, at);
    } else if c == 4 {
        lasts::<4>(u, s, n, ks, at);
    } else {
        lasts::<8>(u, s, n, ks, at);
    }
}
