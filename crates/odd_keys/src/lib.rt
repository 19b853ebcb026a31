// The round keys of odd index (document 003, 6.5.3).
#![tactic(auto)]

ghost use Rattle.std.specs.Prelude.{◌≡◌, ◌+◌, ◌*◌, ◌/◌, ◌%◌, ◌≤◌, get_or, length};
ghost use Rattle.kalyna.specs.Keys.{odd_key};
ghost use Rattle.blocks.specs.Blocks.{Width, keys_of};
ghost use Rattle.key_laws.specs.Stores.{Stored, Spread};
ghost use Rattle.key_laws.specs.Turns.{odd_word};

// A column of an odd key: the last bytes of x, and then the first of y.
fn odd_word(c: usize, x: u64, y: u64) -> u64
    ensures { result ≡ odd_word c x y }
{
    if c == 2 {
        return x / 72057594037927936 + y % 72057594037927936 * 256;
    }
    x / 16777216 + y % 16777216 * 1099511627776
}

// 6.5.3: the odd key after the even key at a place of ks.
fn odd_key(ks: &mut [u64], at: usize, c: usize)
    requires { Width c × (at + 2 * c ≤ length ks.old) }
    ensures { Stored (at + c) c (λ j. odd_word c (get_or ks.old (at + (j + c / 4) % c) 0) (get_or ks.old (at + (j + c / 4 + 1) % c) 0)) ks.old ks.new }
{
    let q = c / 4;
    for j in 0..c {
        let x = ks[at + turns::around(j + q, c)];
        let y = ks[at + turns::around(j + q + 1, c)];
        ks[at + c + j] = odd_word(c, x, y);
    }
}

// 6.5.3: n odd keys.
pub fn odd_keys(ks: &mut [u64], c: usize, n: usize)
    requires { Width c × (c * (2 * n) ≤ length ks.old) }
    ensures { Spread c 1 n (λ e. odd_key c (keys_of c ks.old (2 * e))) ks.old ks.new }
{
    for i in 0..n {
        odd_key(ks, 2 * c * i, c);
    }
}
