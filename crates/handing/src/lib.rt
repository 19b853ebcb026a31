// Values handed out: bytes written into an output room, and an answer told (document 01, section 7).
#![tactic(auto)]

ghost use Rattle.std.specs.Prelude.{◌≡◌, ◌++◌, ◌+◌, ◌≤◌, length, take, drop};
ghost use Rattle.common.specs.Answer.{deliver};
ghost use Rattle.common.specs.Answer.Answer.{value};
ghost use Rattle.answers.specs.Told.{told_of};

use answers::Refusal;

// A value written into the output from a place on.
pub fn put(out: &mut [u8], at: usize, v: &[u8])
    requires { at + length v.now ≤ length out.old }
    ensures { out.new ≡ take at out.old ++ (v.now ++ drop (at + length v.now) out.old) }
{
    // No copy_from_slice: it is a call of memmove here, a name that the archive for C would need from outside.
    for i in 0..v.len() {
        out[at + i] = v[i];
    }
}

// A value as it stands.
#[tactic(auto, using(crate::proofs::Giving::lacks, crate::proofs::Giving::gives, crate::proofs::Giving::hand_out))]
pub fn hand(v: &[u8], out: &mut [u8]) -> Result<usize, Refusal>
    ensures { told_of result out.new ≡ deliver (value v.now) out.old }
{
    if out.len() < v.len() {
        return Err(Refusal::Room);
    }
    put(out, 0, v);
    Ok(v.len())
}
