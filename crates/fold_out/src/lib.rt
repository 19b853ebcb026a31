// A folded record written to the output, read from the top (document 01, section 5): constants, chosen sides, and what stays, in its place.
#![tactic(auto)]

ghost use Rattle.std.specs.Prelude.{length};
ghost use Rattle.ways.specs.Ways.{Ready};
ghost use Rattle.fold_size.specs.Folded.{folded_at, folded_past, ReadyAll};
ghost use Rattle.fold_out.specs.Written.{Fitting, Written};

use lent::Tables;
use ways::Way;

// What the record that stands first folds to, from place o of the output on; the place after it.
#[cycle(write_writes)]
pub fn write(
    s: &[u8],
    list: &[u8],
    tables: &Tables,
    work: &mut [u8],
    out: &mut [u8],
    o: usize,
) -> usize
    requires { Ready s.now list.now tables.now (length work.old) × Fitting o (folded_at list.now s.now) out.old }
    ensures { Written o (folded_at list.now s.now) result out.old out.new }
{
    match ways::way_of(s, list, tables, work) {
        Way::Constant { length } => {
            let v = &work[..length];
            record_out::put_record(out, o, 0x0001, v);
            o + 4 + length
        }
        Way::Side { start, end } => {
            let q = &s[start..end];
            write(q, list, tables, work, out, o)
        }
        Way::Leaf { end } => {
            let q = &s[..end];
            handing::put(out, o, q);
            o + end
        }
        Way::Call { kind, count, end } => {
            let q = &s[4..end];
            let after = writes(q, list, tables, count, 0, work, out, o + 4);
            record_out::put_head(out, o, after - o - 4, kind);
            after
        }
    }
}

// The same for so many records, one after another, from a place of a payload on.
#[cycle(write_writes)]
fn writes(
    s: &[u8],
    list: &[u8],
    tables: &Tables,
    left: usize,
    at: usize,
    work: &mut [u8],
    out: &mut [u8],
    o: usize,
) -> usize
    requires { ReadyAll left at s.now list.now tables.now (length work.old) × Fitting o (folded_past list.now s.now left at) out.old }
    ensures { Written o (folded_past list.now s.now left at) result out.old out.new }
{
    if left == 0 {
        return o;
    }
    let q = &s[at..];
    let Some(head) = heads::head_at(q, 0) else {
        return o;
    };
    let end = write(q, list, tables, work, out, o);
    let next = at + 4 + head.length;
    writes(s, list, tables, left - 1, next, work, out, end)
}
