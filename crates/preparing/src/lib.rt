// Preparing a text (document 01, sections 5 to 7): 14; 21; reading (20, 22, 23, 6); 27; 25; 26; 9. The output is written only when all is decided.
#![tactic(auto)]

ghost use Rattle.std.specs.Prelude.{◌≡◌, ◌+◌, ◌≤◌, ◌<◌, length};
ghost use Rattle.common.specs.Answer.{deliver};
ghost use Rattle.modes.specs.Cell.{cell_of};
ghost use Rattle.texts.specs.Reading.{read_text};
ghost use Rattle.recipe.specs.Outcome.{outcome, zeroed};
ghost use Rattle.recipe.specs.Prepare.{sized, is_given, after_read, answer_of, prepared_of, prepare_of, place_of};
ghost use Rattle.listing.specs.Find.{find_in, stretch_of};
ghost use Rattle.kinds.specs.Tables.{need_number};
ghost use Rattle.ways.specs.Ways.{Ready};
ghost use Rattle.fold_size.specs.Folded.{folded_at};
ghost use Rattle.preparing.specs.Ended.{outcome_of, Gives, Folding, WasRead};

use answers::{Fault, Refusal};
use kinds::Need;
use lent::Tables;

// What is lent where no call needs it.
static NO_TABLE: [u8; 8192] = [0; 8192];

static NO_ROWS: [u8; 1024] = [0; 1024];

// 26, then 9, by the size; then the bytes.
fn fold_in(
    records: &[u8],
    list: &[u8],
    tables: &Tables,
    out: &mut [u8],
    work: &mut [u8],
) -> Result<usize, Fault>
    requires { Ready records.now list.now tables.now (length work.old) }
    ensures { Gives (sized (folded_at list.now records.now)) result out.old out.new }
{
    let n = fold_size::size(records, list, tables, work);
    if 16384 < n {
        return Err(Fault::from(Refusal::Image));
    }
    if out.len() < n {
        return Err(Fault::from(Refusal::Room));
    }
    Ok(fold_out::write(records, list, tables, work, out, 0))
}

// The lookup tables are made once, as far as a call needs them.
// runner has the same match: a closure that was lent the tables would tell its caller nothing of the output and the work room.
fn with_tables(
    records: &[u8],
    list: &[u8],
    need: Need,
    out: &mut [u8],
    work: &mut [u8],
) -> Result<usize, Fault>
    requires { Folding records.now list.now (need_number need) (length work.old) }
    ensures { Gives (sized (folded_at list.now records.now)) result out.old out.new }
{
    match need {
        Need::Nothing => {
            let tables = Tables {
                seal: &NO_TABLE,
                unseal: &NO_TABLE,
                forward: &NO_ROWS,
                backward: &NO_ROWS,
            };
            fold_in(records, list, &tables, out, work)
        }
        Need::Sealing => {
            let tables = Tables {
                seal: &seal_table::table(),
                unseal: &NO_TABLE,
                forward: &NO_ROWS,
                backward: &NO_ROWS,
            };
            fold_in(records, list, &tables, out, work)
        }
        Need::Opening => {
            let tables = Tables {
                seal: &seal_table::table(),
                unseal: &open_table::table(),
                forward: &substitutions::forward(),
                backward: &substitutions::backward(),
            };
            fold_in(records, list, &tables, out, work)
        }
    }
}

// Whether `#n` has a value.
fn has_value(list: &[u8], n: usize) -> bool
    requires { n < 4 }
    ensures { result ≡ is_given (stretch_of list.now (find_in list.now (0x0200 + n))) }
{
    listing::find(list, 0x0200 + n).is_some()
}

// The list (27), the unbound names (25), then folding.
fn after_read(
    text: &[u8],
    records: &[u8],
    list: &[u8],
    out: &mut [u8],
    work: &mut [u8],
) -> Result<usize, Fault>
    requires { WasRead text.now records.now (length work.old) }
    ensures { Gives (after_read cell_of text.now list.now (read_text text.now)) result out.old out.new }
{
    if listing::good(list, false) {
        let b0 = has_value(list, 0);
        let b1 = has_value(list, 1);
        let b2 = has_value(list, 2);
        let b3 = has_value(list, 3);
        if let Some(place) = unbound::first_unbound(text, [b0, b1, b2, b3]) {
            return Err(Fault {
                refusal: Refusal::Absent,
                place,
            });
        }
        let Some(need) = image_check::check(records, true) else {
            return Err(Fault::from(Refusal::Form));
        };
        return with_tables(records, list, need, out, work);
    }
    Err(Fault::from(Refusal::List))
}

// The text (21; 20, 22, 23, 6) to records.
fn decide(text: &[u8], list: &[u8], out: &mut [u8], work: &mut [u8]) -> Result<usize, Fault>
    requires { 47104 ≤ length work.old }
    ensures { Gives (prepared_of cell_of text.now list.now) result out.old out.new }
{
    if 4096 < text.len() {
        return Err(Fault::from(Refusal::Text));
    }
    let mut records = [0u8; 12288];
    match text_reader::read(text, &mut records) {
        Err(fault) => Err(fault),
        Ok(n) => after_read(text, &records[..n], list, out, work),
    }
}

// The work is done in the first bytes of the work room, which are then cleared.
fn in_room(
    text: &[u8],
    list: &[u8],
    out: &mut [u8],
    work: &mut [u8],
    room: usize,
) -> Result<usize, Fault>
    requires { (47104 ≤ room) × (room ≤ length work.old) }
    ensures { outcome_of result out.new work.new ≡ outcome (deliver (answer_of (prepared_of cell_of text.now list.now)) out.old) (place_of (prepared_of cell_of text.now list.now)) (zeroed room work.old) }
{
    let r = decide(text, list, out, &mut work[..room]);
    work_room::clear(work, room);
    r
}

// A recipe text to an image, with the values of `#`: its length, or a refusal and its place.
pub fn prepare(text: &[u8], list: &[u8], out: &mut [u8], work: &mut [u8]) -> Result<usize, Fault>
    ensures { outcome_of result out.new work.new ≡ prepare_of cell_of text.now list.now out.old work.old }
{
    if work.len() < 65536 {
        return Err(Fault::from(Refusal::Work));
    }
    in_room(text, list, out, work, 65536)
}
