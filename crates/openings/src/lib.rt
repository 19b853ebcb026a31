// The three calls that open blocks, past their checks: `unblk`, `uncbc` and `uncbp` (document 01, section 4).
#![tactic(auto)]

ghost use Rattle.std.specs.Prelude.{◌≡◌, List, ℕ, ◌%◌, ◌≤◌, ◌<◌, length};
ghost use Rattle.common.specs.Answer.{deliver};
ghost use Rattle.answers.specs.Told.{told_of};
ghost use Rattle.opener.specs.Opening.{block_size, MixedBack, opened_by};
ghost use Rattle.lent.specs.Lent.{Serves, need_of};
ghost use Rattle.suites.specs.Suites.{block_bytes};
ghost use Rattle.modes.specs.Chain.{uncbc};
ghost use Rattle.modes.specs.Fill.{unfill};
ghost use Rattle.modes.specs.Cell.{call_of, made, sealing, opening};
ghost use Rattle.judging.specs.Cleared.{Cleared};

use answers::Refusal;
use lent::Tables;
use opener::Opener;
use suites::Suite;

// Б.3: opened aside, so that a refusal changes no output byte; then the text before its fill is handed out.
fn unfilled(opener: &Opener, iv: &[u8], text: &[u8], out: &mut [u8]) -> Result<usize, Refusal>
    requires { (length iv.now ≡ block_size opener.now) × (0 < length text.now) × (length text.now ≤ 1024) × (length text.now % block_size opener.now ≡ 0) }
    ensures { (k : List ℕ) → MixedBack opener.now k → told_of result out.new ≡ deliver (unfill (block_size opener.now) (uncbc (block_size opener.now) (opened_by opener.now k) iv.now text.now)) out.old }
{
    let mut plain = [0u8; 1024];
    unchains::uncbc(opener, iv, text, &mut plain);
    match fills::text_end(&plain, text.len(), 8 * opener.columns) {
        Some(n) => handing::hand(&plain[..n], out),
        None => Err(Refusal::Fill),
    }
}

// Call f of a suite: what it answers is told, and a value becomes the leading bytes of the output.
// f stays a number: each one has an answer, and a narrower type would ask more of callers.
// A match on f, not closures: the modes take other arguments and ask other things.
pub fn open_call(
    tables: &Tables,
    f: usize,
    s: Suite,
    key: &[u8],
    side: &[u8],
    text: &[u8],
    out: &mut [u8],
) -> Result<usize, Refusal>
    requires { Serves 2 tables.now × (need_of f ≡ 2) × Cleared (call_of f) s (length key.now) (length side.now) (length text.now) (length out.old) }
    ensures { told_of result out.new ≡ deliver (made (call_of f) (block_bytes s) (sealing s key.now) (opening s key.now) side.now text.now) out.old }
{
    let c = s.columns;
    let t = s.rounds;
    let mut ks = keys::schedule(tables.seal, key, c, s.key.0 / 64, t);
    open_block::keys_back(tables.unseal, tables.forward, &mut ks, c, t);
    let opener = &Opener {
        table: tables.unseal,
        forward: tables.forward,
        backward: tables.backward,
        keys: &ks,
        columns: c,
        rounds: t,
    };
    match f {
        1 => {
            unchains::unblk(opener, text, out);
            Ok(8 * c)
        }
        7 => {
            unchains::uncbc(opener, side, text, out);
            Ok(text.len())
        }
        _ => unfilled(opener, side, text, out),
    }
}
