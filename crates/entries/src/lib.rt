// A cipher call that makes its own tables, once and only past its checks.
#![tactic(auto)]

ghost use Rattle.std.specs.Prelude.{◌≡◌};
ghost use Rattle.common.specs.Answer.{deliver};
ghost use Rattle.answers.specs.Told.{told_of};
ghost use Rattle.lent.specs.Lent.{need_of};
ghost use Rattle.modes.specs.Cell.{call_of, cell};

use answers::Refusal;
use lent::Tables;

// f stays a number: each one has an answer, and a narrower type would ask more of callers.

// Call f, which needs no opened block.
#[tactic(auto, using(calls::proofs::Ways::told_refused, calls::proofs::Ways::told_made, calls::proofs::Ways::cleared))]
pub fn sealed(
    f: usize,
    n: u64,
    key: &[u8],
    side: &[u8],
    text: &[u8],
    out: &mut [u8],
) -> Result<usize, Refusal>
    requires { need_of f ≡ 1 }
    ensures { told_of result out.new ≡ deliver (cell (call_of f) n key.now side.now text.now) out.old }
{
    let s = judging::judge(f, n, key.len(), side.len(), text.len(), out.len())?;
    Ok(sealings::seal_call(&seal_table::table(), f, s, key, side, text, out))
}

// Call f, which opens blocks.
#[tactic(auto, using(calls::proofs::Ways::told_refused, calls::proofs::Ways::told_made, calls::proofs::Ways::cleared))]
pub fn opened(
    f: usize,
    n: u64,
    key: &[u8],
    side: &[u8],
    text: &[u8],
    out: &mut [u8],
) -> Result<usize, Refusal>
    requires { need_of f ≡ 2 }
    ensures { told_of result out.new ≡ deliver (cell (call_of f) n key.now side.now text.now) out.old }
{
    let s = judging::judge(f, n, key.len(), side.len(), text.len(), out.len())?;
    let tables = Tables {
        seal: &seal_table::table(),
        unseal: &open_table::table(),
        forward: &substitutions::forward(),
        backward: &substitutions::backward(),
    };
    openings::open_call(&tables, f, s, key, side, text, out)
}
