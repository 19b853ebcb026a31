// The size of a folded record, read from the top (document 01, section 5). A dropped side is passed by, and nothing stops early.
#![tactic(auto)]

ghost use Rattle.std.specs.Prelude.{◌≡◌, length};
ghost use Rattle.ways.specs.Ways.{Ready};
ghost use Rattle.fold_size.specs.Folded.{folded_at, folded_past, ReadyAll};

use lent::Tables;
use ways::Way;

// The size of what the record that stands first folds to.
#[cycle(size_sizes)]
pub fn size(s: &[u8], list: &[u8], tables: &Tables, work: &mut [u8]) -> usize
    requires { Ready s.now list.now tables.now (length work.old) }
    ensures { result ≡ length (folded_at list.now s.now) }
{
    match ways::way_of(s, list, tables, work) {
        Way::Constant { length } => 4 + length,
        Way::Side { start, end } => {
            let q = &s[start..end];
            size(q, list, tables, work)
        }
        Way::Leaf { end } => end,
        Way::Call { count, end, .. } => {
            let q = &s[4..end];
            4 + sizes(q, list, tables, count, 0, work)
        }
    }
}

// The same for so many records, one after another, from a place of a payload on.
#[cycle(size_sizes)]
fn sizes(s: &[u8], list: &[u8], tables: &Tables, left: usize, at: usize, work: &mut [u8]) -> usize
    requires { ReadyAll left at s.now list.now tables.now (length work.old) }
    ensures { result ≡ length (folded_past list.now s.now left at) }
{
    if left == 0 {
        return 0;
    }
    let q = &s[at..];
    let Some(head) = heads::head_at(q, 0) else {
        return 0;
    };
    let a = size(q, list, tables, work);
    a + sizes(s, list, tables, left - 1, at + 4 + head.length, work)
}
