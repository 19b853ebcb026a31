// A column as a machine word: added modulo 2^64, and cut into the pieces that are looked up.
#![tactic(auto)]

ghost use Rattle.std.specs.Prelude.{◌≡◌, ◌+◌, ◌*◌, ◌/◌, ◌%◌, ◌^◌, ◌<◌};

// 6.3.2: columns are added modulo 2^64.
pub fn added(x: u64, y: u64) -> u64
    ensures { result ≡ (x + y) % 2 ^ 64 }
{
    std::num::wrapping_add_u64(x, y)
}

// Piece q of a column, low piece first.
pub fn piece(w: u64, q: u32) -> u16
    requires { q < 4 }
    ensures { result ≡ w / 2 ^ (16 * q) % 65536 }
{
    (w >> (16 * q) & 65535) as u16
}
