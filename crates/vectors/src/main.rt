// Runs a table of calls through the twelve entries: the examples of document 003, Annex В.2 to В.7, and the bounds and refusals of document 01, section 7.
// A row is `NAME: KIND CALL SUITE NUMBER ROOM KEY SIDE TEXT WANT`. KIND is p for a row that is told of, t for one that is told of if it is wrong; a row
// `NAME: =` sums up the rows since the last sum. CALL is an entry, or `helper` or `rounds` for the key schedule. NUMBER is the answer due and WANT the
// bytes due with it; ROOM is the output's length, SIDE an IV or a tag. Numbers and bytes are pairs of digits, *hhhh after a byte says how often it
// stands there, and - is no byte.
#![tactic(auto)]

mod asks;
mod rows;
mod schedules;
mod twelve;

use asks::Ask;
use std::io;

// The rows since the last sum, and how many of them were right.
#[derive(Clone, Copy, Default, PartialEq, Eq)]
struct Sum {
    rows: u64,
    right: u64,
}

impl Sum {
    fn count(&mut self, is_right: bool) {
        self.rows = self.rows.wrapping_add(1);
        self.right = self.right.wrapping_add(u64::from(is_right));
    }
}

fn say(rt: &impl Print, name: &[u8], what: &[u8]) -> io::Result<()> {
    rt.write_all(name)?;
    rt.write_all(what)
}

// A row run and counted, or those before it summed up.
fn run(rt: &(impl Print + AllocGlobal), line: &[u8], sum: &mut Sum) -> io::Result<()> {
    let (name, row) = rows::named(line);
    if row.first() == Some(&b'=') {
        let Sum { rows, right } = *sum;
        *sum = Sum::default();
        rt.write_all(name)?;
        return println!(rt; ": {right} of {rows} right");
    }
    let is_right = Ask::of(rt.alloc(), row)?.is_some_and(|ask| ask.is_right());
    sum.count(is_right);
    if !is_right {
        return say(rt, line, b": WRONG\n");
    }
    if row.first() == Some(&b'p') {
        return say(rt, name, b": right\n");
    }
    Ok(())
}

fn main(rt: HostRuntime) -> io::Result<()> {
    let table = table_rows::read_table(&rt, 262144)?;
    let mut sum = Sum::default();
    for line in table.as_slice().split_inclusive(|b| *b == b'\n') {
        run(&rt, table_rows::without_end(line), &mut sum)?;
    }
    Ok(())
}
