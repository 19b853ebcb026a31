// xor of bytes and words, under the name of specs/. Two functions of one line: one over a type parameter would need a trait, and an impl with its law for each.
#![tactic(auto)]

ghost use Rattle.std.specs.Prelude.{◌≡◌, ◌+◌, ◌%◌, ◌^◌};
ghost use Rattle.field.specs.Xor.{xor};

pub fn x8(a: u8, b: u8) -> u8
    ensures { result ≡ xor a b }
{
    a ^ b
}

pub fn x64(a: u64, b: u64) -> u64
    ensures { result ≡ xor a b }
{
    a ^ b
}
