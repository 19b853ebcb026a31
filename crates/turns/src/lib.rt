// How the key is turned for the round keys (document 003, 6.5.2 and 6.5.3).
#![tactic(auto)]

ghost use Rattle.std.specs.Prelude.{◌≡◌, ◌%◌, ◌≤◌, ◌<◌};
ghost use Rattle.blocks.specs.Blocks.{Width};
ghost use Rattle.key_laws.specs.Turns.{lane_turn};

// The remainder by a width.
pub fn around(n: usize, c: usize) -> usize
    requires { Width c }
    ensures { (result ≡ n % c) × (result < c) }
{
    n & (c - 1)
}

// 6.5.2: by how many columns the key is turned for even index 2 e.
pub fn turn_of(c: usize, kc: usize, e: usize) -> usize
    requires { (c ≤ 8) × (e ≤ 9) }
    ensures { (result ≡ lane_turn c kc e) × (result ≤ 16) }
{
    if c == kc {
        return e;
    }
    e / 2 + e % 2 * c
}
