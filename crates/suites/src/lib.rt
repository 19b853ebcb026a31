// Sizes in bits and in bytes, kept apart and joined in one place, and the suite table (document 01, section 2).
#![tactic(auto)]

ghost use Rattle.std.specs.Prelude.{◌≡◌, ◌/◌};
ghost use Rattle.suites.specs.Suites.{bytes_in, suite_of};

// The standard counts in bits.
#[derive(Clone, Copy, Debug, PartialEq, Eq)]
pub struct Bits(pub usize);

// Buffers count in bytes.
#[derive(Clone, Copy, Debug, PartialEq, Eq)]
pub struct Bytes(pub usize);

// The one conversion.
impl From<Bits> for Bytes {
    ghost from_gives = { λ b r. r ≡ bytes_in b };

    fn from(b: Bits) -> Bytes {
        Bytes(b.0 / 8)
    }
}

// A row of document 003, table 6.1.
#[derive(Clone, Copy, Debug, PartialEq, Eq)]
pub struct Suite {
    pub block: Bits,
    pub key: Bits,
    pub rounds: usize,
    pub columns: usize,
}

// The suite of a number, 1 to 5.
pub fn suite_of(n: u64) -> Option<Suite>
    ensures { result ≡ suite_of n }
{
    match n {
        1 => Some(Suite {
            block: Bits(128),
            key: Bits(128),
            rounds: 10,
            columns: 2,
        }),
        2 => Some(Suite {
            block: Bits(128),
            key: Bits(256),
            rounds: 14,
            columns: 2,
        }),
        3 => Some(Suite {
            block: Bits(256),
            key: Bits(256),
            rounds: 14,
            columns: 4,
        }),
        4 => Some(Suite {
            block: Bits(256),
            key: Bits(512),
            rounds: 18,
            columns: 4,
        }),
        5 => Some(Suite {
            block: Bits(512),
            key: Bits(512),
            rounds: 18,
            columns: 8,
        }),
        _ => None,
    }
}
