// Calls applied to arguments in slots of the work room: they are lent where they stand, and the call writes to a room of its own, so that its buffers are separate;
// then the answer goes to the first slot.
#![tactic(auto)]

ghost use Rattle.std.specs.Prelude.{◌≡◌, [], ◌∷◌, ◌+◌, ◌≤◌, length, take, drop};
ghost use Rattle.common.specs.Answer.{deliver};
ghost use Rattle.tree.specs.Bounds.{arguments_of, when_kind};
ghost use Rattle.meaning.specs.Real.{real_two, ciphered};
ghost use Rattle.kinds.specs.Tables.{tables_for};
ghost use Rattle.lent.specs.Lent.{Serves};
ghost use Rattle.modes.specs.Cell.{cell_of};
ghost use Rattle.answers.specs.Told.{count_of, told_of};
ghost use Rattle.slots.specs.Slots.{At};
ghost use Rattle.applying.specs.Left.{left_of};

use answers::Refusal;
use lent::Tables;

// What a call wrote into its own room goes to the slot at o.
fn leave(t: Result<usize, Refusal>, out: &[u8], work: &mut [u8], o: usize) -> Result<usize, Refusal>
    requires { (count_of t ≤ length out.now) × (o + count_of t ≤ length work.old) }
    ensures { (result ≡ t) × (work.new ≡ left_of t out.now work.old o) }
{
    let n = t?;
    handing::put(work, o, &out[..n]);
    Ok(n)
}

// A call of two arguments: plain by its kind, or a cipher call, 0100 + 16f + suite, that has neither IV nor tag.
fn call_two(tables: &Tables, k: usize, a: &[u8], b: &[u8], out: &mut [u8]) -> Result<usize, Refusal>
    requires { (arguments_of k ≡ 2) × Serves (tables_for k) tables.now }
    ensures { told_of result out.new ≡ deliver (real_two cell_of k a.now b.now) out.old }
{
    match k {
        0x0010 => plain::cat(a, b, out),
        0x0011 => plain::xor(a, b, out),
        0x0012 => plain::eq(a, b, out),
        0x0013 => plain::head(a, b, out),
        _ => {
            let f = (k - 0x0100) / 16;
            calls::call(tables, f, (k % 16) as u64, a, &a[..0], b, out)
        }
    }
}

// A call of three arguments: a cipher call with an IV or a tag.
fn call_three(
    tables: &Tables,
    k: usize,
    a: &[u8],
    b: &[u8],
    c: &[u8],
    out: &mut [u8],
) -> Result<usize, Refusal>
    requires { (arguments_of k ≡ 3) × (k ≡ when_kind → ⊥) × Serves (tables_for k) tables.now }
    ensures { told_of result out.new ≡ deliver (ciphered cell_of k (a.now ∷ b.now ∷ c.now ∷ [])) out.old }
{
    let f = (k - 0x0100) / 16;
    calls::call(tables, f, (k % 16) as u64, a, b, c, out)
}

// The arguments stand in the slots at o and o + 1,024; the answer is left at o.
pub fn apply_two(
    tables: &Tables,
    k: usize,
    work: &mut [u8],
    o: usize,
    la: usize,
    lb: usize,
) -> Result<usize, Refusal>
    requires { (o + 2048 ≤ length work.old) × (la ≤ 1024) × (lb ≤ 1024) × (arguments_of k ≡ 2) × Serves (tables_for k) tables.now }
    ensures { At (real_two cell_of k (take la (drop o work.old)) (take lb (drop (o + 1024) work.old))) o result work.old work.new }
{
    let ea = o + la;
    let second = o + 1024;
    let eb = second + lb;
    let mut out = [0u8; 1024];
    let t = call_two(tables, k, &work[o..ea], &work[second..eb], &mut out);
    leave(t, &out, work, o)
}

// The same for three, the third at o + 2,048.
pub fn apply_three(
    tables: &Tables,
    k: usize,
    work: &mut [u8],
    o: usize,
    la: usize,
    lb: usize,
    lc: usize,
) -> Result<usize, Refusal>
    requires { (o + 3072 ≤ length work.old) × (la ≤ 1024) × (lb ≤ 1024) × (lc ≤ 1024) × (arguments_of k ≡ 3) × (k ≡ when_kind → ⊥) × Serves (tables_for k) tables.now }
    ensures { At (ciphered cell_of k (take la (drop o work.old) ∷ take lb (drop (o + 1024) work.old) ∷ take lc (drop (o + 2048) work.old) ∷ [])) o result work.old work.new }
{
    let ea = o + la;
    let second = o + 1024;
    let eb = second + lb;
    let third = o + 2048;
    let ec = third + lc;
    let mut out = [0u8; 1024];
    let t = call_three(
        tables,
        k,
        &work[o..ea],
        &work[second..eb],
        &work[third..ec],
        &mut out,
    );
    leave(t, &out, work, o)
}
