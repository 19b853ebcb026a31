// A block of 2 or 4 columns that stands alone, as the encrypted IV or a chained block, sealed in machine words: it has no other block to overlap with, so its rounds keep it out of memory.
#![tactic(auto)]

ghost use Rattle.std.specs.Prelude.{◌≡◌, ◌+◌, ◌*◌, ◌≤◌, ◌<◌, get_or, length};
ghost use Rattle.common.specs.Choice.{pick};
ghost use Rattle.lookup.specs.Table.{seal_table};
ghost use Rattle.words.specs.Words.{block_at, put_words, Walked};
ghost use Rattle.kalyna.specs.Round.{add_key, xor_key};
ghost use Rattle.kalyna.specs.Block.{seal};
ghost use Rattle.rounds.specs.Rounds.{looked, seal_places, key_at};
ghost use Rattle.blocks.specs.Blocks.{keys_of};

use rounds::{Direction, Sealing};

// The first key added.
fn first<const C: usize>(s: &[u16], ks: &[u64]) -> [u64; C]
    requires { (4 * C ≤ length s.now) × (C ≤ length ks.now) }
    ensures { result ≡ add_key C (key_at C ks.now 0) (block_at C s.now 0) }
{
    let mut o = [0u64; C];
    for j in 0..C {
        o[j] = column_words::added(words::word_at(s, j), ks[j]);
    }
    o
}

// Looked up: each column, row by row, from the columns that hold it.
fn mixed<const C: usize>(t: &[u8; 8192], x: [u64; C]) -> [u64; C]
    requires { C ≤ 8 }
    ensures { result ≡ looked t.now C (seal_places C) x.entry }
{
    let mut o = [0u64; C];
    for j in 0..C {
        o[j] = columns::column_alone(
            t,
            column_words::piece(x[Sealing::place(C, 0, j)], 0),
            column_words::piece(x[Sealing::place(C, 1, j)], 0),
            column_words::piece(x[Sealing::place(C, 2, j)], 1),
            column_words::piece(x[Sealing::place(C, 3, j)], 1),
            column_words::piece(x[Sealing::place(C, 4, j)], 2),
            column_words::piece(x[Sealing::place(C, 5, j)], 2),
            column_words::piece(x[Sealing::place(C, 6, j)], 3),
            column_words::piece(x[Sealing::place(C, 7, j)], 3),
        );
    }
    o
}

// The key at a place of ks: modulo 2 where more rounds come, modulo 2^64 in the last one.
fn keyed<const C: usize>(y: [u64; C], ks: &[u64], at: usize, more: bool) -> [u64; C]
    requires { at + C ≤ length ks.now }
    ensures { result ≡ pick more (xor_key C (key_at C ks.now at) y.entry) (add_key C (key_at C ks.now at) y.entry) }
{
    let mut o = [0u64; C];
    if more {
        for j in 0..C {
            o[j] = field::x64(y[j], ks[at + j]);
        }
        return o;
    }
    for j in 0..C {
        o[j] = column_words::added(y[j], ks[at + j]);
    }
    o
}

// The block replaced.
fn put<const C: usize>(s: &mut [u16], x: [u64; C])
    requires { 4 * C ≤ length s.old }
    ensures { s.new ≡ put_words s.old 0 C (λ j. get_or x.entry j 0) }
{
    for j in 0..C {
        words::put_word(s, j, x[j]);
    }
}

// The first block of a cell sealed; ks has the round keys 0 to t one after another.
pub fn seal<const C: usize>(tab: &[u8; 8192], s: &mut [u16], t: usize, ks: &[u64])
    requires { (tab.now ≡ seal_table) × (C ≤ 8) × (0 < t) × (4 * C ≤ length s.old) × (C * (t + 1) ≤ length ks.now) }
    ensures { Walked C 1 (seal C t (keys_of C ks.now)) s.old s.new }
{
    let mut x = first::<C>(s, ks);
    for m in 0..t {
        x = keyed::<C>(mixed::<C>(tab, x), ks, C * (m + 1), m + 1 < t);
    }
    put::<C>(s, x);
}
