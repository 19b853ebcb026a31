// What the programs that judge a table share: the numbers and the bytes that a row spells, the table's rows, and the tally that is printed.
// Only programs stand on it, so it may allocate.
#![tactic(auto)]

ghost use Rattle.std.specs.Prelude.{◌≡◌, ◌+◌, ◌*◌, ◌<◌, ◌≤◌, ltb, length, unwrap_or, IfOk, IfSome, if◌then◌else◌, vec_len, ◌++◌, ◌↔◌, IsTrue, take, drop, replicate, position, not};
ghost use Rattle.std.specs.Iterator.{YieldsFirst, item_count};
ghost use Rattle.table_rows.specs.Rooms.{all_are, given_in, cleared_in, row_of};
ghost use Rattle.table_rows.specs.Spelling.{digit_of, pair_of, figure_of, grown_of, number_of, is_blank, is_figure, blank_in, figures_in, is_counted, count_in, runs_of, bytes_of};

use std::alloc::{AllocError, Global};
use std::io;
use std::io::Read;

// The value of a digit, up to F.
pub fn digit(b: u8) -> Option<u8>
    ensures value { result ≡ digit_of b }
    ensures small { IfSome result (λ d. d < 16) }
{
    match b {
        b'0'..=b'9' => Some(b - b'0'),
        b'A'..=b'F' => Some(b - b'A' + 10),
        _ => None,
    }
}

// The byte that two digits spell. Where one of them is none: nothing if STRICT, else it counts as 0.
pub fn pair<const STRICT: bool>(high: u8, low: u8) -> Option<u8>
    ensures { result ≡ pair_of STRICT high low }
{
    match (digit(high), digit(low)) {
        (Some(h), Some(l)) => Some(h * 16 + l),
        _ if STRICT => None,
        (h, l) => Some(h.unwrap_or(0) * 16 + l.unwrap_or(0)),
    }
}

// A figure's value; what is none counts as 0.
pub fn figure(b: u8) -> u8
    ensures { result ≡ figure_of b }
{
    match b {
        b'0'..=b'9' => b - b'0',
        _ => 0,
    }
}

// A number with one figure more; from a million on it stays as it is.
pub fn grown(value: usize, figure: u8) -> usize
    ensures { result ≡ grown_of value figure }
{
    if value < 1000000 {
        value * 10 + usize::from(figure)
    } else {
        value
    }
}

// The number that a text spells.
pub fn number(text: &[u8]) -> usize
    ensures { result ≡ number_of text.now }
{
    text.iter().fold(0, |value, b| grown(value, figure(*b)))
}

// The place of the first blank in a text.
fn blank(text: &[u8]) -> Option<usize>
    ensures place { result ≡ position is_blank text.now }
    ensures within { IfSome result (λ at. at < length text.now) }
{
    text.iter().position(|b| *b == b' ')
}

// The place of the first byte that is no figure.
fn no_figure(text: &[u8]) -> Option<usize>
    ensures place { result ≡ position (λ b. not (is_figure b)) text.now }
    ensures within { IfSome result (λ at. at < length text.now) }
{
    text.iter().position(|b| !b.is_ascii_digit())
}

// What stands before a place, and what behind the byte at it; with no place the whole text stands before it.
fn cut(text: &[u8], place: Option<usize>) -> (&[u8], &[u8])
    requires { IfSome place (λ at. at < length text.now) }
    ensures front { result.0.now ≡ take (unwrap_or place (length text.now)) text.now }
    ensures behind { result.1.now ≡ drop (unwrap_or place (length text.now) + 1) text.now }
{
    match place {
        Some(at) => (&text[..at], &text[at + 1..]),
        None => (text, &[]),
    }
}

// What stands before the first blank, and what behind it.
pub fn part(text: &[u8]) -> (&[u8], &[u8])
    ensures front { result.0.now ≡ take (blank_in text.now) text.now }
    ensures behind { result.1.now ≡ drop (blank_in text.now + 1) text.now }
{
    cut(text, blank(text))
}

// The number at the start of a text, and what stands behind the byte after it.
pub fn number_first(text: &[u8]) -> (usize, &[u8])
    ensures number { result.0 ≡ number_of (take (figures_in text.now) text.now) }
    ensures behind { result.1.now ≡ drop (figures_in text.now + 1) text.now }
{
    let (front, rest) = cut(text, no_figure(text));
    (number(front), rest)
}

// A byte, and how often it stands in a row.
#[derive(Clone, Copy, PartialEq, Eq, Debug)]
pub struct Run {
    pub byte: u8,
    pub count: usize,
}

// The bytes that a text spells, by two digits each, and *hhhh after them says how often the byte stands there.
// They end where no byte stands if STRICT.
#[derive(Clone, Copy, Drop)]
pub struct Runs<'a, const STRICT: bool>(pub &'a [u8]);

// How often the byte before this text stands: hhhh times if *hhhh is in front, else once. And what comes after that.
fn count<const STRICT: bool>(text: &[u8]) -> (usize, &[u8])
    ensures many { result.0 ≡ (if is_counted text.now then count_in STRICT text.now else 1) }
    ensures behind { result.1.now ≡ (if is_counted text.now then drop 5 text.now else text.now) }
{
    match text {
        [b'*', a, b, c, d, rest @ ..] => {
            let high = pair::<STRICT>(*a, *b).unwrap_or(0);
            let low = pair::<STRICT>(*c, *d).unwrap_or(0);
            (usize::from(high) * 256 + usize::from(low), rest)
        }
        _ => (1, text),
    }
}

impl<const STRICT: bool> Iterator for Runs<'_, STRICT> {
    type Item = Run;

    ghost next_gives = { YieldsFirst (λ s. runs_of STRICT s.0.now) };

    ghost remaining = { item_count (λ s. runs_of STRICT s.0.now) };

    #[tactic(auto, unfolding(crate::specs::Spelling::runs_of))]
    fn next(&mut self) -> Option<Run> {
        match self.0 {
            [a, b, rest @ ..] => {
                let byte = pair::<STRICT>(*a, *b)?;
                let (count, rest) = count::<STRICT>(rest);
                self.0 = rest;
                Some(Run { byte, count })
            }
            [_, rest @ ..] if !STRICT => {
                self.0 = rest;
                Some(Run { byte: 0, count: 1 })
            }
            _ => None,
        }
    }
}

// Puts a run behind these bytes, but no more than `most` stand there then. One byte is cheaper to push than to fill in.
fn put(bytes: &mut Vec<u8>, run: Run, most: usize) -> Result<(), AllocError>
    requires { vec_len bytes.old ≤ most }
    ensures items { IfOk result (λ _. bytes.new.items ≡ take most (bytes.old.items ++ replicate run.count run.byte)) }
    ensures within { vec_len bytes.new ≤ most }
{
    match run.count.min(most - bytes.len()) {
        1 => bytes.push(run.byte)?,
        count => bytes.resize(bytes.len() + count, run.byte)?,
    }
    Ok(())
}

// The bytes that a text spells, no more than `most` of them.
pub fn spelled<const STRICT: bool>(
    alloc: Global,
    text: &[u8],
    most: usize,
) -> Result<Vec<u8>, AllocError>
    ensures bytes { IfOk result (λ v. v.items ≡ take most (bytes_of STRICT text.now)) }
    ensures within { IfOk result (λ v. vec_len v ≤ most) }
{
    let mut bytes = Vec::new(alloc);
    for run in Runs::<STRICT>(text) {
        put(&mut bytes, run, most)?;
        if bytes.len() == most {
            break;
        }
    }
    Ok(bytes)
}

// What an output, and what a work room holds before a call.
pub const OUT: u8 = 0xA5;

pub const WORK: u8 = 0x5A;

// Whether these bytes are all the same one. No way out early, so that the loop works on many bytes at once.
pub fn is_all(bytes: &[u8], b: u8) -> bool
    ensures { result ≡ all_are b bytes.now }
{
    bytes.iter().fold(true, |all, x| all & (*x == b))
}

// Whether an output holds a value in front and is untouched behind it.
pub fn is_given(out: &[u8], value: &[u8]) -> bool
    ensures { result ≡ given_in OUT out.now value.now }
{
    match out.strip_prefix(value) {
        Some(rest) => is_all(rest, OUT),
        None => false,
    }
}

// Whether the part of a work room that is used, 65,536 bytes, is there and zero, and what lies behind it untouched.
pub fn is_cleared(work: &[u8]) -> bool
    ensures { result ≡ cleared_in WORK work.now }
{
    match work.split_at_checked(65536) {
        Some((used, rest)) => is_all(used, 0) && is_all(rest, WORK),
        None => false,
    }
}

// The first `most` bytes that a reader gives, or all of them where there are fewer.
fn read_most<R: Read + Drop>(alloc: Global, reader: R, most: u64) -> io::Result<Vec<u8>>
    ensures { IfOk result (λ v. IfSome (R.remaining reader) (λ bytes. v.items ≡ take most bytes)) }
{
    let mut table = Vec::new(alloc);
    reader.take(most).read_to_end(&mut table)?;
    Ok(table)
}

// What read_most gives of the input. No clause: an input's reader says nothing of the bytes that it has left, and so nothing of how many.
pub fn read_table(rt: &(impl Input + Alloc<A = Global>), most: u64) -> io::Result<Vec<u8>> {
    read_most(rt.alloc(), rt.reader(), most)
}

// A row without the end of its line.
pub fn without_end(line: &[u8]) -> &[u8]
    ensures { result.now ≡ row_of line.now }
{
    line.strip_suffix(b"\n").unwrap_or(line)
}

// Judges each row of a table, names each that is not as due, and says how many are. No clause can say what is printed.
pub fn tally<F: FnMut(&[u8]) -> io::Result<bool>>(
    rt: &impl Print,
    table: &[u8],
    mut is_due: F,
) -> io::Result<()>
    requires { F.IsAlwaysCallable is_due }
{
    let mut rows = 0u64;
    let mut good = 0u64;
    for line in table.split_inclusive(|b| *b == b'\n') {
        rows = rows.saturating_add(1);
        if is_due(without_end(line))? {
            good = good.saturating_add(1);
        } else {
            println!(rt; "not as due: row {rows}")?;
        }
    }
    println!(rt; "{rows} rows, {good} as due")
}

#[cfg(test)]
mod tests {
    use super::*;
    use std::test::Fail;

    #[test]
    fn spells(rt: HostRuntime) -> Result<(), Fail> {
        let strict = spelled::<true>(rt.alloc(), b"41*000342 43", 16)?;
        assert_eq!(rt; strict.as_slice(), b"AAAB".as_slice());
        let loose = spelled::<false>(rt.alloc(), b"41*0003424G", 9)?;
        assert_eq!(rt; loose.as_slice(), b"AAAB@".as_slice());
        Ok(())
    }

    #[test]
    fn cuts(rt: HostRuntime) -> Result<(), Fail> {
        let (number, rest) = number_first(b"12x34");
        assert_eq!(rt; number, 12);
        assert_eq!(rt; rest, b"34".as_slice());
        let (first, second) = part(b"one two three");
        assert_eq!(rt; first, b"one".as_slice());
        assert_eq!(rt; second, b"two three".as_slice());
        Ok(())
    }
}
