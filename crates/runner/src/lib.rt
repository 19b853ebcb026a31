// Running an image (document 01, sections 5 to 7): 14; 28; 27; the meaning; 9.
#![tactic(auto)]

ghost use Rattle.std.specs.Prelude.{◌≡◌, ◌≤◌, length};
ghost use Rattle.common.specs.Answer.{deliver};
ghost use Rattle.recipe.specs.Outcome.{zeroed, outcome};
ghost use Rattle.recipe.specs.Run.{ran_of, run_of};
ghost use Rattle.modes.specs.Cell.{cell_of};
ghost use Rattle.answers.specs.Told.{told_of};
ghost use Rattle.kinds.specs.Tables.{need_number};
ghost use Rattle.runner.specs.Sound.{Sound, Served};

use answers::Refusal;
use evaluating::Evaluator;
use kinds::Need;
use lent::Tables;

// What is lent where no call needs it.
static NO_TABLE: [u8; 8192] = [0; 8192];

static NO_ROWS: [u8; 1024] = [0; 1024];

// The whole image is evaluated with lent tables, its value copied to the output.
fn value_of(given: &Evaluator, out: &mut [u8], work: &mut [u8]) -> Result<usize, Refusal>
    requires { Served given.now.image.now given.now.list.now given.now.tables.now × (47104 ≤ length work.old) }
    ensures { told_of result out.new ≡ deliver (ran_of cell_of given.now.image.now given.now.list.now) out.old }
{
    let n = given.eval(0, given.image.len(), work, 0)?;
    handing::hand(&work[..n], out)
}

// The sealing table alone. This and the next are functions of their own: a function clears all of its locals when it begins, and no run pays for a table that it does not need.
fn with_sealing(
    image: &[u8],
    list: &[u8],
    out: &mut [u8],
    work: &mut [u8],
) -> Result<usize, Refusal>
    requires { Sound image.now list.now 1 × (47104 ≤ length work.old) }
    ensures { told_of result out.new ≡ deliver (ran_of cell_of image.now list.now) out.old }
{
    let tables = &Tables {
        seal: &seal_table::table(),
        unseal: &NO_TABLE,
        forward: &NO_ROWS,
        backward: &NO_ROWS,
    };
    value_of(
        &Evaluator {
            image,
            list,
            tables,
        },
        out,
        work,
    )
}

// The opening tables too.
fn with_opening(
    image: &[u8],
    list: &[u8],
    out: &mut [u8],
    work: &mut [u8],
) -> Result<usize, Refusal>
    requires { Sound image.now list.now 2 × (47104 ≤ length work.old) }
    ensures { told_of result out.new ≡ deliver (ran_of cell_of image.now list.now) out.old }
{
    let tables = &Tables {
        seal: &seal_table::table(),
        unseal: &open_table::table(),
        forward: &substitutions::forward(),
        backward: &substitutions::backward(),
    };
    value_of(
        &Evaluator {
            image,
            list,
            tables,
        },
        out,
        work,
    )
}

// Tables are made as far as a call needs them.
// preparing has the same match: a closure that was lent the tables would tell its caller nothing of the output and the work room.
fn with_tables(
    image: &[u8],
    list: &[u8],
    need: Need,
    out: &mut [u8],
    work: &mut [u8],
) -> Result<usize, Refusal>
    requires { Sound image.now list.now (need_number need) × (47104 ≤ length work.old) }
    ensures { told_of result out.new ≡ deliver (ran_of cell_of image.now list.now) out.old }
{
    match need {
        Need::Nothing => {
            let tables = &Tables {
                seal: &NO_TABLE,
                unseal: &NO_TABLE,
                forward: &NO_ROWS,
                backward: &NO_ROWS,
            };
            value_of(
                &Evaluator {
                    image,
                    list,
                    tables,
                },
                out,
                work,
            )
        }
        Need::Sealing => with_sealing(image, list, out, work),
        Need::Opening => with_opening(image, list, out, work),
    }
}

// A leaf at the root goes straight to the output.
fn meant(
    image: &[u8],
    list: &[u8],
    need: Need,
    out: &mut [u8],
    work: &mut [u8],
) -> Result<usize, Refusal>
    requires { Sound image.now list.now (need_number need) × (47104 ≤ length work.old) }
    ensures { told_of result out.new ≡ deliver (ran_of cell_of image.now list.now) out.old }
{
    if heads::word_at(image, 2) < 0x0010 {
        return evaluating::give_leaf(image, list, 0, out);
    }
    with_tables(image, list, need, out, work)
}

// 28; 27; the meaning; 9.
fn ran(image: &[u8], list: &[u8], out: &mut [u8], work: &mut [u8]) -> Result<usize, Refusal>
    requires { 47104 ≤ length work.old }
    ensures { told_of result out.new ≡ deliver (ran_of cell_of image.now list.now) out.old }
{
    let Some(need) = image_check::check(image, false) else {
        return Err(Refusal::Form);
    };
    if listing::good(list, true) {
        return meant(image, list, need, out, work);
    }
    Err(Refusal::List)
}

// The work is done in the first bytes of the work room, and they are zero afterwards whatever the answer.
fn in_room(
    image: &[u8],
    list: &[u8],
    out: &mut [u8],
    work: &mut [u8],
    room: usize,
) -> Result<usize, Refusal>
    requires { (47104 ≤ room) × (room ≤ length work.old) }
    ensures { (told_of result out.new ≡ deliver (ran_of cell_of image.now list.now) out.old) × (work.new ≡ zeroed room work.old) }
{
    let t = ran(image, list, out, &mut work[..room]);
    work_room::clear(work, room);
    t
}

// A run: number, length, every byte of output and work room.
pub fn run(image: &[u8], list: &[u8], out: &mut [u8], work: &mut [u8]) -> Result<usize, Refusal>
    ensures { outcome (told_of result out.new) 0 work.new ≡ run_of cell_of image.now list.now out.old work.old }
{
    if work.len() < 65536 {
        return Err(Refusal::Work);
    }
    in_room(image, list, out, work, 65536)
}
