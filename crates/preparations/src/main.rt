// Reads a table of texts and runs with the answer due for each, and prints a tally. All numbers are decimal, bytes are pairs of digits, and *hhhh after one
// says how often it stands there; - is none.
// `P NUMBER PLACE ROOM WORK LIST IMAGE TEXT`: the text prepared with the list, in an output and a work room of these lengths.
// `R NUMBER ROOM LIST VALUE`: the image of the row before that was prepared, run on the list.
// Each row is right only if all bytes of output and work room are as section 7 of document 01 says.
#![tactic(auto)]

ghost use Rattle.std.specs.Prelude.{◌≤◌, IfOk, vec_len};

mod library;

use library::Fault;
use std::alloc::{AllocError, Global};
use std::io;
use table_rows::{OUT, WORK};

// The bytes that a field spells, no more than `most` of them; - is none.
fn field(alloc: Global, text: &[u8], most: usize) -> Result<Vec<u8>, AllocError>
    ensures within { IfOk result (λ v. vec_len v ≤ most) }
{
    let text = match text.len() {
        2..=65536 => text,
        _ => &[],
    };
    table_rows::spelled::<false>(alloc, text, most)
}

// The work room: untouched where it is too short, else its first 65,536 bytes zero and the others untouched.
fn is_work_due(work: &[u8]) -> bool {
    if work.len() < 65536 {
        table_rows::is_all(work, WORK)
    } else {
        table_rows::is_cleared(work)
    }
}

// The output of the texts that are prepared. The image of the last one stands in front of it.
#[derive(Drop)]
struct Output {
    bytes: Vec<u8>,
    size: usize,
}

impl Output {
    // A text prepared, from its number on.
    fn is_prepared(&mut self, alloc: Global, row: &[u8]) -> Result<bool, AllocError> {
        let (number, row) = table_rows::number_first(row);
        let (place, row) = table_rows::number_first(row);
        let (room, row) = table_rows::number_first(row);
        let (space, row) = table_rows::number_first(row);
        let (list, row) = table_rows::part(row);
        let (image, text) = table_rows::part(row);
        let list = field(alloc, list, 4400)?;
        let image = field(alloc, image, 16400)?;
        let (due, front) = if number == 0 {
            (Ok(image.len()), image.as_slice())
        } else {
            (Err(Fault { number, place }), [].as_slice())
        };
        let room = room.min(self.bytes.len());
        let out = &mut self.bytes.as_mut_slice()[..room];
        out.fill(OUT);
        let mut work = vec![in alloc; WORK; space.min(65552)]?;
        let answer = library::prepare(text, list.as_slice(), out, work.as_mut_slice());
        let is_due = answer == due
            && table_rows::is_given(out, front)
            && is_work_due(work.as_slice());
        self.size = if is_due { image.len() } else { 0 };
        Ok(is_due)
    }

    // The image run, by a row from its number on.
    fn is_run(&self, alloc: Global, row: &[u8]) -> Result<bool, AllocError> {
        let (number, row) = table_rows::number_first(row);
        let (room, row) = table_rows::number_first(row);
        let (list, value) = table_rows::part(row);
        let list = field(alloc, list, 13000)?;
        let value = field(alloc, value, 1100)?;
        let (due, front) = if number == 0 {
            (Ok(value.len()), value.as_slice())
        } else {
            (Err(number), [].as_slice())
        };
        let image = self.bytes.get(..self.size).unwrap_or(&[]);
        let mut out = vec![in alloc; OUT; room.min(1040)]?;
        let mut work = vec![in alloc; WORK; 65552]?;
        let answer = library::run(
            image,
            list.as_slice(),
            out.as_mut_slice(),
            work.as_mut_slice(),
        );
        Ok(
            answer == due
                && table_rows::is_given(out.as_slice(), front)
                && is_work_due(work.as_slice()),
        )
    }

    // Whether a row is as due.
    fn is_due(&mut self, alloc: Global, row: &[u8]) -> Result<bool, AllocError> {
        match row {
            [b'P', _, rest @ ..] => self.is_prepared(alloc, rest),
            [_, _, rest @ ..] => self.is_run(alloc, rest),
            _ => Ok(false),
        }
    }
}

fn main(rt: HostRuntime) -> io::Result<()> {
    let alloc = rt.alloc();
    let table = table_rows::read_table(&rt, 98304)?;
    let mut output = Output {
        bytes: vec![in alloc; 0; 16400]?,
        size: 0,
    };
    table_rows::tally(&rt, table.as_slice(), |row| Ok(output.is_due(alloc, row)?))
}
