// Reads a table of texts, lists and images with the number and the place due for each, and prints a tally.
// A row of a text is `t NUMBER PLACE TEXT`; or `u NUMBER PLACE BOUND TEXT`, BOUND four figures, 1 where `#0` to `#3` have a value.
// A row of a list or an image is P (a list for preparing), R (a list for running) or I (an image); the number due, for a good image the tables that it needs;
// a blank; the bytes: a byte is two digits, and *hhhh after it says how often it stands there.
#![tactic(auto)]

use answers::{Fault, Numbered, Refusal};
use std::alloc::{AllocError, Global};
use std::io;

// What a text is answered with, or what is due.
#[derive(Clone, Copy, PartialEq, Eq)]
struct Answer {
    number: usize,
    place: usize,
}

impl Answer {
    fn of(told: Result<(), Fault>) -> Answer {
        match told {
            Ok(()) => Answer {
                number: 0,
                place: 0,
            },
            Err(fault) => Answer {
                number: fault.number() as usize,
                place: fault.place,
            },
        }
    }
}

// Whether a text reads; it is too long before it is read.
fn read(text: &[u8]) -> Result<(), Fault> {
    if 4096 < text.len() {
        return Err(Fault::from(Refusal::Text));
    }
    text_reader::read(text, &mut [0u8; 12288])?;
    Ok(())
}

// The first name without a value, of a text behind its four figures; a row that is too short for them has a number of its own.
fn scan(bound: &[u8]) -> Answer {
    let [a, b, c, d, _, text @ ..] = bound else {
        return Answer {
            number: 99,
            place: 0,
        };
    };
    let told = match unbound::first_unbound(
        text,
        [*a == b'1', *b == b'1', *c == b'1', *d == b'1'],
    ) {
        Some(place) => Err(Fault {
            refusal: Refusal::Absent,
            place,
        }),
        None => Ok(()),
    };
    Answer::of(told)
}

// The number given back for a list or an image; for a good image the tables that it needs.
fn number_of(kind: u8, bytes: &[u8]) -> u8 {
    if kind == b'I' {
        return image_check::check(bytes, false).map_or(0x28, |need| need as u8);
    }
    if listing::good(bytes, kind == b'R') {
        0
    } else {
        0x27
    }
}

// Whether the row of a list or an image has the answer due.
fn is_record_due(alloc: Global, row: &[u8]) -> Result<bool, AllocError> {
    match row {
        [kind, high, low, _, text @ ..] if row.len() <= 65536 => {
            let bytes = table_rows::spelled::<false>(alloc, text, 16400)?;
            Ok(table_rows::pair::<false>(*high, *low) == Some(number_of(*kind, bytes.as_slice())))
        }
        _ => Ok(false),
    }
}

// Whether a row has the answer due.
fn is_due(alloc: Global, row: &[u8]) -> Result<bool, AllocError> {
    match row {
        [] | [_] => Ok(false),
        [..b'a', ..] => is_record_due(alloc, row),
        [kind, _, due @ ..] => {
            let (number, due) = table_rows::number_first(due);
            let (place, text) = table_rows::number_first(due);
            let answer = if *kind == b'u' {
                scan(text)
            } else {
                Answer::of(read(text))
            };
            Ok(answer == Answer { number, place })
        }
    }
}

fn main(rt: HostRuntime) -> io::Result<()> {
    let table = table_rows::read_table(&rt, 98304)?;
    let alloc = rt.alloc();
    table_rows::tally(&rt, table.as_slice(), |row| Ok(is_due(alloc, row)?))
}
