// Runs images with lists and prints a tally. A row is `NUMBER ROOM WORK IMAGE LIST ANSWER`, a blank between two parts: the number due, the lengths of
// the output and the work room, the bytes of image and list, the bytes due. A byte is two digits, and *hhhh after it says how often it stands there.
// Output and work room are filled with a pattern before the run; every byte of both is looked at afterwards.
#![tactic(auto)]

use answers::Numbered;
use std::alloc::{AllocError, Global};
use std::io;
use table_rows::{OUT, WORK};

// A row: the number due, the rooms' lengths, and what spells the image, the list and the bytes due.
#[derive(Clone, Copy, Drop)]
struct Row<'a> {
    number: usize,
    room: usize,
    work: usize,
    image: &'a [u8],
    list: &'a [u8],
    answer: &'a [u8],
}

impl<'a> Row<'a> {
    // A part that the row lacks is empty.
    fn of(line: &'a [u8]) -> Row<'a> {
        let (number, rest) = table_rows::part(line);
        let (room, rest) = table_rows::part(rest);
        let (work, rest) = table_rows::part(rest);
        let (image, rest) = table_rows::part(rest);
        let (list, answer) = table_rows::part(rest);
        Row {
            number: table_rows::number(number),
            room: table_rows::number(room),
            work: table_rows::number(work),
            image,
            list,
            answer,
        }
    }

    // Whether the run gives the number and the bytes due, and leaves the work room as it has to be.
    fn is_due(&self, alloc: Global) -> Result<bool, AllocError> {
        let image = table_rows::spelled::<false>(alloc, self.image, 16400)?;
        let list = table_rows::spelled::<false>(alloc, self.list, 16400)?;
        let value = table_rows::spelled::<false>(alloc, self.answer, 2048)?;
        let mut out = vec![in alloc; OUT; self.room.min(2048)]?;
        let mut work = vec![in alloc; WORK; self.work.min(70000)]?;
        let due = if self.number == 0 {
            Ok(value.len())
        } else {
            Err(self.number)
        };
        let answer = runner::run(
            image.as_slice(),
            list.as_slice(),
            out.as_mut_slice(),
            work.as_mut_slice(),
        )
        .map_err(|refusal| refusal.number() as usize);
        Ok(
            answer == due
                && table_rows::is_given(out.as_slice(), value.as_slice())
                && self.is_work_due(work.as_slice()),
        )
    }

    // 14 is a work room that is too short, and leaves it alone.
    fn is_work_due(&self, work: &[u8]) -> bool {
        if self.number == 14 {
            table_rows::is_all(work, WORK)
        } else {
            table_rows::is_cleared(work)
        }
    }
}

fn main(rt: HostRuntime) -> io::Result<()> {
    let table = table_rows::read_table(&rt, 98304)?;
    let alloc = rt.alloc();
    table_rows::tally(&rt, table.as_slice(), |line| {
        Ok(Row::of(line).is_due(alloc)?)
    })
}
