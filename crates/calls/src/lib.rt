// A cipher call whole: its checks in their order, then what it makes, with tables that the caller lends.
#![tactic(auto)]

ghost use Rattle.std.specs.Prelude.{◌≡◌, nat_eq};
ghost use Rattle.common.specs.Answer.{deliver};
ghost use Rattle.answers.specs.Told.{told_of};
ghost use Rattle.lent.specs.Lent.{Serves, need_of};
ghost use Rattle.modes.specs.Cell.{call_of, cell};

use answers::Refusal;
use lent::Tables;

// f stays a number: each one has an answer, and a narrower type would ask more of callers.

// Whether call f opens blocks, and needs the opening tables too.
#[tactic(auto, using(crate::proofs::Ways::opens_2, crate::proofs::Ways::opens_1))]
fn opens(f: usize) -> bool
    ensures { result ≡ nat_eq (need_of f) 2 }
{
    matches!(f, 1 | 7 | 9)
}

// Call f of suite number n, whatever the lengths: what is delivered is what the cell answers.
#[tactic(auto, using(crate::proofs::Ways::told_refused, crate::proofs::Ways::told_made, crate::proofs::Ways::cleared, crate::proofs::Ways::need_2, crate::proofs::Ways::need_1, crate::proofs::Ways::serves))]
pub fn call(
    tables: &Tables,
    f: usize,
    n: u64,
    key: &[u8],
    side: &[u8],
    text: &[u8],
    out: &mut [u8],
) -> Result<usize, Refusal>
    requires { Serves (need_of f) tables.now }
    ensures { told_of result out.new ≡ deliver (cell (call_of f) n key.now side.now text.now) out.old }
{
    let s = judging::judge(f, n, key.len(), side.len(), text.len(), out.len())?;
    if opens(f) {
        return openings::open_call(tables, f, s, key, side, text, out);
    }
    Ok(sealings::seal_call(tables.seal, f, s, key, side, text, out))
}
