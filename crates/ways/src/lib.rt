// How a record folds, read from the top (document 01, section 5): by the runner's own evaluator with only `#` bound.
#![tactic(auto)]

ghost use Rattle.std.specs.Prelude.{length};
ghost use Rattle.ways.specs.Ways.{Ready, Choosing, bound_by, GoesSo};

use evaluating::Evaluator;
use lent::Tables;

// What becomes of a record, by places of the bytes that it stands in.
#[derive(Clone, Copy, Debug, PartialEq, Eq)]
pub enum Way {
    // So many bytes in the first slot.
    Constant {
        length: usize,
    },
    // A chosen side.
    Side {
        start: usize,
        end: usize,
    },
    // A name that only a run has a value for, as it stands.
    Leaf {
        end: usize,
    },
    // A call that stays, with so many arguments.
    Call {
        kind: usize,
        count: usize,
        end: usize,
    },
}

// A `when` that has no value, up to a place: its chosen side, or it stays.
fn side_of(s: &[u8], list: &[u8], tables: &Tables, end: usize, work: &mut [u8]) -> Way
    requires { Choosing s.now list.now tables.now end (length work.old) }
    ensures { GoesSo (bound_by list.now) s.now result work.new }
{
    let Some(condition) = heads::head_at(s, 4) else {
        return Way::Leaf { end: 0 };
    };
    let yes = 8 + condition.length;
    let Some(first) = heads::head_at(s, yes) else {
        return Way::Leaf { end: 0 };
    };
    let no = yes + 4 + first.length;
    let stays = Way::Call {
        kind: 0x0014,
        count: 3,
        end,
    };
    let given = Evaluator {
        image: s,
        list,
        tables,
    };
    let Ok(l) = given.eval(4, yes, work, 0) else {
        return stays;
    };
    match evaluating::side(work, 0, l) {
        Some(true) => Way::Side {
            start: yes,
            end: no,
        },
        Some(false) => Way::Side { start: no, end },
        None => stays,
    }
}

// The record that stands first.
pub fn way_of(s: &[u8], list: &[u8], tables: &Tables, work: &mut [u8]) -> Way
    requires { Ready s.now list.now tables.now (length work.old) }
    ensures { GoesSo (bound_by list.now) s.now result work.new }
{
    let Some(head) = heads::head_at(s, 0) else {
        return Way::Leaf { end: 0 };
    };
    let kind = head.kind;
    let end = 4 + head.length;
    let given = Evaluator {
        image: s,
        list,
        tables,
    };
    if let Ok(length) = given.eval(0, end, work, 0) {
        return Way::Constant { length };
    }
    let Some(count) = kinds::arguments(kind) else {
        return Way::Leaf { end };
    };
    if kind == 0x0014 {
        return side_of(s, list, tables, end, work);
    }
    Way::Call { kind, count, end }
}
