// All blocks of a cell sealed: rounds outermost, each a walk over the blocks.
#![tactic(auto)]

ghost use Rattle.std.specs.Prelude.{◌≡◌, ◌+◌, ◌-◌, ◌*◌, ◌≤◌, ◌<◌, length};
ghost use Rattle.lookup.specs.Table.{seal_table};
ghost use Rattle.words.specs.Words.{Walked};
ghost use Rattle.kalyna.specs.Round.{add_key, xor_key, ssm};
ghost use Rattle.kalyna.specs.Block.{moves, rounds, seal};
ghost use Rattle.rounds.specs.Rounds.{key_at};
ghost use Rattle.blocks.specs.Blocks.{Width, keys_of};

use rounds::Sealing;

// One round, straight for the width: substitute, shift, mix, and the key at a place of ks added modulo 2.
pub fn round(tab: &[u8; 8192], s: &mut [u16], n: usize, c: usize, ks: &[u64], at: usize)
    requires { (tab.now ≡ seal_table) × Width c × (4 * (c * n) ≤ length s.old) × (at + c ≤ length ks.now) }
    ensures { Walked c n (λ x. xor_key c (key_at c ks.now at) (ssm (moves c) c x)) s.old s.new }
{
    if c == 2 {
        rounds::walk::<Sealing, 2>(tab, s, n, ks, at);
        return;
    }
    if c == 4 {
        rounds::walk::<Sealing, 4>(tab, s, n, ks, at);
        return;
    }
    rounds::walk::<Sealing, 8>(tab, s, n, ks, at);
}

// Rounds 1 to t - 1 of t on blocks of C columns.
fn middle_rounds<const C: usize>(tab: &[u8; 8192], s: &mut [u16], n: usize, t: usize, ks: &[u64])
    requires { (tab.now ≡ seal_table) × (C ≤ 8) × (0 < t) × (4 * (C * n) ≤ length s.old) × (C * (t + 1) ≤ length ks.now) }
    ensures { Walked C n (λ x. rounds C (keys_of C ks.now) x (t - 1)) s.old s.new }
{
    for m in 1..t {
        rounds::walk::<Sealing, C>(tab, s, n, ks, C * m);
    }
}

// The last round, whose key is added modulo 2^64.
fn last_round<const C: usize>(tab: &[u8; 8192], s: &mut [u16], n: usize, ks: &[u64], at: usize)
    requires { (tab.now ≡ seal_table) × (C ≤ 8) × (4 * (C * n) ≤ length s.old) × (at + C ≤ length ks.now) }
    ensures { Walked C n (λ x. add_key C (key_at C ks.now at) (ssm (moves C) C x)) s.old s.new }
{
    let none = [0u64; 8];
    rounds::walk::<Sealing, C>(tab, s, n, &none, 0);
    blocks::add_keys(s, n, C, ks, at);
}

// Blocks of C columns. One that stands alone has nothing to overlap with, and goes through its rounds in machine words; one of 8 columns would not fit into the machine's registers.
fn seal<const C: usize>(tab: &[u8; 8192], s: &mut [u16], n: usize, t: usize, ks: &[u64])
    requires { (tab.now ≡ seal_table) × (C ≤ 8) × (0 < t) × (4 * (C * n) ≤ length s.old) × (C * (t + 1) ≤ length ks.now) }
    ensures { Walked C n (seal C t (keys_of C ks.now)) s.old s.new }
{
    if n == 1 && C < 8 {
        seal_alone::seal::<C>(tab, s, t, ks);
        return;
    }
    blocks::add_keys(s, n, C, ks, 0);
    middle_rounds::<C>(tab, s, n, t, ks);
    last_round::<C>(tab, s, n, ks, C * t);
}

// The block transformation on n blocks of c columns, t rounds; ks has the round keys 0 to t one after another. By case once a cell, so that every loop over columns is straight.
pub fn seal_blocks(tab: &[u8; 8192], s: &mut [u16], n: usize, c: usize, t: usize, ks: &[u64])
    requires { (tab.now ≡ seal_table) × Width c × (0 < t) × (4 * (c * n) ≤ length s.old) × (c * (t + 1) ≤ length ks.now) × (t ≤ 18) }
    ensures { Walked c n (seal c t (keys_of c ks.now)) s.old s.new }
{
    if c == 2 {
        seal::<2>(tab, s, n, t, ks);
        return;
    }
    if c == 4 {
        seal::<4>(tab, s, n, t, ks);
        return;
    }
    seal::<8>(tab, s, n, t, ks);
}
