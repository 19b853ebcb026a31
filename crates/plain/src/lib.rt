// The plain calls of document 01, section 5, on separate buffers: `cat`, `xor`, `eq`, `head`.
#![tactic(auto)]

ghost use Rattle.std.specs.Prelude.{◌≡◌, ◌++◌, ◌≤◌, length, drop};
ghost use Rattle.common.specs.Answer.{deliver};
ghost use Rattle.meaning.specs.Real.{cat, xor_bytes, xor, same, eq, head};
ghost use Rattle.answers.specs.Told.{told_of};

use answers::Refusal;

#[tactic(auto, using(crate::proofs::Giving::cat_long, crate::proofs::Giving::cat_both_long, crate::proofs::Giving::cat_lacks, crate::proofs::Giving::cat_gives))]
pub fn cat(a: &[u8], b: &[u8], out: &mut [u8]) -> Result<usize, Refusal>
    ensures { told_of result out.new ≡ deliver (cat a.now b.now) out.old }
{
    if 1024 < a.len() {
        return Err(Refusal::Long);
    }
    if 1024 - a.len() < b.len() {
        return Err(Refusal::Long);
    }
    let n = a.len() + b.len();
    if out.len() < n {
        return Err(Refusal::Room);
    }
    handing::put(out, 0, a);
    handing::put(out, a.len(), b);
    Ok(n)
}

// The bytes of a and b added modulo 2 become the leading bytes of the output.
fn put_xor(a: &[u8], b: &[u8], out: &mut [u8])
    requires { (length a.now ≡ length b.now) × (length a.now ≤ length out.old) }
    ensures { out.new ≡ xor_bytes a.now b.now ++ drop (length a.now) out.old }
{
    for i in 0..a.len() {
        out[i] = field::x8(a[i], b[i]);
    }
}

#[tactic(auto, using(crate::proofs::Giving::xor_unequal, crate::proofs::Giving::xor_lacks, crate::proofs::Giving::xor_gives))]
pub fn xor(a: &[u8], b: &[u8], out: &mut [u8]) -> Result<usize, Refusal>
    ensures { told_of result out.new ≡ deliver (xor a.now b.now) out.old }
{
    let n = a.len();
    if n != b.len() {
        return Err(Refusal::Unequal);
    }
    if out.len() < n {
        return Err(Refusal::Room);
    }
    put_xor(a, b, out);
    Ok(n)
}

// Whether all bytes are the same; no early exit, so that many bytes are compared at once.
#[tactic(auto, using(crate::proofs::Compared::met_none, crate::proofs::Compared::met_more, crate::proofs::Compared::alike_same))]
fn alike(a: &[u8], b: &[u8]) -> bool
    requires { length a.now ≡ length b.now }
    ensures { result ≡ same a.now b.now }
{
    let mut d: u8 = 0;
    for i in 0..a.len() {
        d |= field::x8(a[i], b[i]);
    }
    d == 0
}

#[tactic(auto, using(crate::proofs::Compared::other_length))]
fn same_value(a: &[u8], b: &[u8]) -> bool
    ensures { result ≡ same a.now b.now }
{
    a.len() == b.len() && alike(a, b)
}

#[tactic(auto, using(crate::proofs::Giving::eq_lacks, crate::proofs::Giving::eq_gives))]
pub fn eq(a: &[u8], b: &[u8], out: &mut [u8]) -> Result<usize, Refusal>
    ensures { told_of result out.new ≡ deliver (eq a.now b.now) out.old }
{
    if out.len() < 1 {
        return Err(Refusal::Room);
    }
    out[0] = u8::from(same_value(a, b));
    Ok(1)
}

#[tactic(auto, using(crate::proofs::Giving::head_count, crate::proofs::Giving::head_short, crate::proofs::Giving::head_gives))]
pub fn head(n: &[u8], a: &[u8], out: &mut [u8]) -> Result<usize, Refusal>
    ensures { told_of result out.new ≡ deliver (head n.now a.now) out.old }
{
    if n.len() != 1 {
        return Err(Refusal::Short);
    }
    let k = n[0] as usize;
    if a.len() < k {
        return Err(Refusal::Short);
    }
    handing::hand(&a[..k], out)
}
