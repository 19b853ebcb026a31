// The nine calls that need no opened block, past their checks: the key schedule once, then the mode (document 01, section 4).
#![tactic(auto)]

ghost use Rattle.std.specs.Prelude.{◌≡◌, Ok, length};
ghost use Rattle.common.specs.Answer.{deliver};
ghost use Rattle.answers.specs.Told.{told_of};
ghost use Rattle.lookup.specs.Table.{seal_table};
ghost use Rattle.lent.specs.Lent.{need_of};
ghost use Rattle.suites.specs.Suites.{block_bytes};
ghost use Rattle.modes.specs.Cell.{call_of, made, sealing, opening};
ghost use Rattle.judging.specs.Cleared.{Cleared};

use sealer::Sealer;
use suites::Suite;

// Call f of a suite: what it makes becomes the leading bytes of the output, and their count is told.
// f stays a number: each one has an answer, and a narrower type would ask more of callers.
// A match on f, not closures: the modes take other arguments and ask other things.
pub fn seal_call(
    tab: &[u8; 8192],
    f: usize,
    s: Suite,
    key: &[u8],
    side: &[u8],
    text: &[u8],
    out: &mut [u8],
) -> usize
    requires { (tab.now ≡ seal_table) × (need_of f ≡ 1) × Cleared (call_of f) s (length key.now) (length side.now) (length text.now) (length out.old) }
    ensures { told_of (Ok result) out.new ≡ deliver (made (call_of f) (block_bytes s) (sealing s key.now) (opening s key.now) side.now text.now) out.old }
{
    let c = s.columns;
    let t = s.rounds;
    let ks = keys::schedule(tab, key, c, s.key.0 / 64, t);
    let sealer = &Sealer {
        table: tab,
        keys: &ks,
        columns: c,
        rounds: t,
    };
    match f {
        0 => {
            chains::blk(sealer, text, out);
            8 * c
        }
        2 => {
            ctr_mode::ctr(sealer, side, text, out);
            text.len()
        }
        3 => {
            ofb_mode::ofb(sealer, side, text, out);
            text.len()
        }
        4 => {
            cfb_mode::cfb(sealer, side, text, out);
            text.len()
        }
        5 => {
            uncfb_mode::uncfb(sealer, side, text, out);
            text.len()
        }
        6 => {
            chains::cbc(sealer, side, text, out);
            text.len()
        }
        8 => {
            fills::cbp(sealer, side, text, out);
            8 * c * (text.len() / (8 * c) + 1)
        }
        10 => {
            tags::mac(sealer, text, out);
            8 * c
        }
        _ => {
            tags::chk(sealer, side, text, out);
            1
        }
    }
}
