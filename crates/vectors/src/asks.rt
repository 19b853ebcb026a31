// What a row asks for.
use crate::rows;
use crate::schedules::{self, Part};
use crate::twelve::Call;
use std::alloc::{AllocError, Global};

// The longest output.
const ROOM: usize = 2048;

#[derive(Clone, Copy, PartialEq, Eq)]
enum Task {
    Enter(Call),
    Schedule(Part),
}

impl Task {
    // A word counts by its last eight bytes, less the zeros in front of them.
    fn named(word: &[u8]) -> Option<Task> {
        let tail = word.get(word.len().saturating_sub(8)..).unwrap_or(&[]);
        let zeros = tail.iter().take_while(|b| **b == 0).count();
        match tail.get(zeros..).unwrap_or(&[]) {
            b"helper" => Some(Task::Schedule(Part::Helper)),
            b"rounds" => Some(Task::Schedule(Part::Rounds)),
            name => Some(Task::Enter(Call::named(name)?)),
        }
    }
}

// A task, what it is given, and what is due: a number, and the bytes in an output of this length.
#[derive(Drop)]
pub(crate) struct Ask {
    task: Task,
    suite: u64,
    number: u64,
    room: usize,
    key: Vec<u8>,
    side: Vec<u8>,
    text: Vec<u8>,
    want: Vec<u8>,
}

impl Ask {
    // What a row asks for, if it names a task. Its fields spell 8,192 bytes at most.
    pub(crate) fn of(alloc: Global, row: &[u8]) -> Result<Option<Ask>, AllocError> {
        let Some(task) = Task::named(rows::word(row, 1)) else {
            return Ok(None);
        };
        let mut left = 8192;
        Ok(Some(Ask {
            task,
            suite: rows::number(row, 2),
            number: rows::number(row, 3),
            room: rows::number(row, 4) as usize,
            key: rows::bytes(alloc, row, 5, &mut left)?,
            side: rows::bytes(alloc, row, 6, &mut left)?,
            text: rows::bytes(alloc, row, 7, &mut left)?,
            want: rows::bytes(alloc, row, 8, &mut left)?,
        }))
    }

    // Whether the task does what is due; what an entry made has to go back to the text.
    pub(crate) fn is_right(&self) -> bool {
        let text = self.text.as_slice();
        let want = self.want.as_slice();
        match self.task {
            Task::Schedule(part) => schedules::are(part, self.suite, self.key.as_slice(), want),
            Task::Enter(call) => {
                self.answers(call, text, self.room, self.number, want)
                    && (self.number != 0
                        || call
                            .back()
                            .is_none_or(|back| self.answers(back, want, ROOM, 0, text)))
            }
        }
    }

    // Whether a call into the front of a filled buffer answers so: the number, the length, and every byte of the buffer.
    fn answers(&self, call: Call, text: &[u8], room: usize, number: u64, want: &[u8]) -> bool {
        if ROOM < room || ROOM < want.len() {
            return false;
        }
        let mut out = [table_rows::OUT; ROOM];
        let mut length = ROOM + 1;
        let answer = call.enter(
            self.suite,
            self.key.as_slice(),
            self.side.as_slice(),
            text,
            &mut out[..room],
            &mut length,
        );
        u64::from(answer) == number && length == want.len() && table_rows::is_given(&out, want)
    }
}
