// The round keys of a key (document 003, 6.5).
#![tactic(auto)]

ghost use Rattle.std.specs.Prelude.{◌≡◌, ◌*◌, ◌%◌, ◌≤◌, length};
ghost use Rattle.lookup.specs.Table.{seal_table};
ghost use Rattle.words.specs.Words.{block_at};
ghost use Rattle.kalyna.specs.State.{columns_of};
ghost use Rattle.kalyna.specs.Keys.{helper};
ghost use Rattle.key_laws.specs.Turns.{Sized};
ghost use Rattle.key_laws.specs.Schedule.{schedule_of, columns_from};

// 6.5.1: the helper key, as a block. The second half of the key stands kc - c columns on.
fn helper_key(t: &[u8; 8192], k: &[u64], c: usize, kc: usize) -> [u16; 32]
    requires { (t.now ≡ seal_table) × Sized c kc × (length k.now ≡ kc) }
    ensures { (length result ≡ 32) × (block_at c result 0 ≡ helper c kc k.now) }
{
    let none = [0u64; 8];
    let mut s = [0u16; 32];
    words::put_word(&mut s, 0, (c + kc + 1) as u64);
    blocks::add_keys(&mut s, 1, c, k, 0);
    seal_block::round(t, &mut s, 1, c, k, kc - c);
    seal_block::round(t, &mut s, 1, c, &none, 0);
    blocks::add_keys(&mut s, 1, c, k, 0);
    seal_block::round(t, &mut s, 1, c, &none, 0);
    s
}

// 6.5.1: the helper key's columns, and zeros up to eight: what the round keys start from, for whoever wants to see it.
pub fn helper_columns(t: &[u8; 8192], key: &[u8], c: usize, kc: usize) -> [u64; 8]
    requires { (t.now ≡ seal_table) × Sized c kc × (length key.now ≡ 8 * kc) }
    ensures { result ≡ columns_from c (helper c kc (columns_of kc key.now)) }
{
    let mut k = [0u64; 8];
    loads::load(&mut k, key, kc);
    let h = helper_key(t, &k[..kc], c, kc);
    let mut o = [0u64; 8];
    for j in 0..c {
        o[j] = words::word_at(&h, j);
    }
    o
}

// Round keys 0 to r of a key of kc columns, c columns each; the rest is zeros.
fn schedule_for(t: &[u8; 8192], key: &[u8], c: usize, kc: usize, r: usize) -> [u64; 160]
    requires { (t.now ≡ seal_table) × Sized c kc × (length key.now ≡ 8 * kc) × (r % 2 ≡ 0) × (r ≤ 18) }
    ensures { result ≡ schedule_of c kc r (columns_of kc key.now) }
{
    let mut k = [0u64; 8];
    loads::load(&mut k, key, kc);
    let h = helper_key(t, &k[..kc], c, kc);
    let mut ks = [0u64; 160];
    even_keys::even_keys(t, &mut ks, &h, &k[..kc], c, kc, r / 2 + 1);
    odd_keys::odd_keys(&mut ks, c, r / 2);
    ks
}

// The same, by case once a cell, so that every loop over columns is straight.
pub fn schedule(t: &[u8; 8192], key: &[u8], c: usize, kc: usize, r: usize) -> [u64; 160]
    requires { (t.now ≡ seal_table) × Sized c kc × (length key.now ≡ 8 * kc) × (r % 2 ≡ 0) × (r ≤ 18) }
    ensures { result ≡ schedule_of c kc r (columns_of kc key.now) }
{
    if c == 2 {
        return schedule_for(t, key, 2, kc, r);
    }
    if c == 4 {
        return schedule_for(t, key, 4, kc, r);
    }
    schedule_for(t, key, 8, kc, r)
}
