// A round key added to, or subtracted from, all blocks of a cell, column by column modulo 2^64.
#![tactic(auto)]

ghost use Rattle.std.specs.Prelude.{◌≡◌, ◌+◌, ◌-◌, ◌*◌, ◌%◌, ◌^◌, ◌≤◌, length, slice_index};
ghost use Rattle.words.specs.Words.{word_at, put_words, Walked};
ghost use Rattle.kalyna.specs.Round.{add_key, sub_key};
ghost use Rattle.rounds.specs.Rounds.{key_at};

// One block, whose first column is w. Adding and subtracting stay apart: a trait or a closure for either would take an impl or a clause as long as these loops.
fn add_block(s: &mut [u16], w: usize, c: usize, ks: &[u64], at: usize)
    requires { (4 * (w + c) ≤ length s.old) × (at + c ≤ length ks.now) }
    ensures { s.new ≡ put_words s.old w c (λ j. (word_at s.old (w + j) + slice_index ks.now (at + j)) % 2 ^ 64) }
{
    for j in 0..c {
        let x = words::word_at(s, w + j);
        words::put_word(s, w + j, std::num::wrapping_add_u64(x, ks[at + j]));
    }
}

fn sub_block(s: &mut [u16], w: usize, c: usize, ks: &[u64], at: usize)
    requires { (4 * (w + c) ≤ length s.old) × (at + c ≤ length ks.now) }
    ensures { s.new ≡ put_words s.old w c (λ j. (word_at s.old (w + j) + 2 ^ 64 - slice_index ks.now (at + j) % 2 ^ 64) % 2 ^ 64) }
{
    for j in 0..c {
        let x = words::word_at(s, w + j);
        words::put_word(s, w + j, std::num::wrapping_sub_u64(x, ks[at + j]));
    }
}

// The key at a place of ks added to n blocks of c columns.
pub fn add_keys(s: &mut [u16], n: usize, c: usize, ks: &[u64], at: usize)
    requires { (4 * (c * n) ≤ length s.old) × (at + c ≤ length ks.now) }
    ensures { Walked c n (add_key c (key_at c ks.now at)) s.old s.new }
{
    for i in 0..n {
        add_block(s, c * i, c, ks, at);
    }
}

// The key at a place of ks subtracted from n blocks of c columns.
pub fn sub_keys(s: &mut [u16], n: usize, c: usize, ks: &[u64], at: usize)
    requires { (4 * (c * n) ≤ length s.old) × (at + c ≤ length ks.now) }
    ensures { Walked c n (sub_key c (key_at c ks.now at)) s.old s.new }
{
    for i in 0..n {
        sub_block(s, c * i, c, ks, at);
    }
}
