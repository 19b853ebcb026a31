// The pieces that a recipe's text is read by (document 01, sections 5 and 7): each reads its bytes once.
#![tactic(auto)]

ghost use Rattle.std.specs.Prelude.{◌≡◌, ◌≤◌, ◌<◌};
ghost use Rattle.texts.specs.Reading.{due_at};
ghost use Rattle.texts.specs.Packed.{call_by};
ghost use Rattle.tree.specs.Calls.{calls};
ghost use Rattle.tokens.specs.Tokens.{syntax_at, due_is, some_below, some_if, digit_of, digit_at, pair_of, letter_at, more_of, Lettered, call_is, suite_head, head_at};

use answers::{Fault, Refusal};

// A call's row: kind and count of arguments.
#[derive(Clone, Copy, Debug, PartialEq, Eq)]
pub enum Call {
    Plain(usize, usize),
    Cipher(usize, usize),
}

// What stands before a call's arguments: kind, count of arguments, the place of the `(`.
#[derive(Clone, Copy, Debug, PartialEq, Eq)]
pub struct Head {
    pub kind: usize,
    pub arguments: usize,
    pub place: usize,
}

// A run of letters: how many, and the first five as a number; 0 where there are more.
#[derive(Clone, Copy, Debug, PartialEq, Eq)]
pub struct Letters {
    pub count: usize,
    pub word: u64,
}

pub fn wide(x: u8) -> usize
    ensures { (result ≡ x) × (result < 256) }
{
    usize::from(x)
}

// 20, and its place.
fn syntax(place: usize) -> Fault
    ensures { result ≡ syntax_at place }
{
    Fault {
        refusal: Refusal::Syntax,
        place,
    }
}

// A byte from lo to hi is due at p.
#[tactic(auto, using(crate::proofs::Laws::dues))]
pub fn due_at(s: &[u8], lo: u8, hi: u8, p: usize) -> Result<(), Fault>
    ensures { result ≡ due_is (due_at s.now lo hi p) }
{
    if s.len() <= p {
        return Err(syntax(s.len()));
    }
    let b = s[p];
    if b < lo || hi < b {
        return Err(syntax(p));
    }
    Ok(())
}

// A digit's value; none for any other byte.
#[tactic(auto, using(crate::proofs::Laws::digits))]
fn digit_of(b: u8) -> Option<u8>
    ensures { result ≡ some_below 16 (digit_of b) }
{
    match b {
        b'0'..=b'9' => Some(b - b'0'),
        b'A'..=b'F' => Some(b - b'A' + 10),
        _ => None,
    }
}

// The value of the digit at p; none where no digit stands.
pub fn digit_at(s: &[u8], p: usize) -> Option<u8>
    ensures { result ≡ some_below 16 (digit_at s.now p) }
{
    if s.len() <= p {
        return None;
    }
    digit_of(s[p])
}

// The byte of the pair at p; none where no pair stands.
pub fn pair_at(s: &[u8], p: usize) -> Option<u8>
    ensures { result ≡ some_below 256 (pair_of s.now p) }
{
    let a = digit_at(s, p)?;
    let b = digit_at(s, p + 1)?;
    Some(16 * a + b)
}

// The letter at p; none where no letter stands.
#[tactic(auto, using(crate::proofs::Laws::letters))]
fn letter_at(s: &[u8], p: usize) -> Option<u8>
    ensures { result ≡ some_if (letter_at s.now p) }
{
    if s.len() <= p {
        return None;
    }
    let b = s[p];
    if b < b'a' || b'z' < b {
        return None;
    }
    Some(b)
}

// One more letter, while six fit.
fn more(w: u64, b: u8) -> u64
    ensures { result ≡ more_of w b }
{
    if w < 1099511627776 {
        return w * 256 + u64::from(b);
    }
    w
}

// The longest run of letters from p on.
fn letters_at(s: &[u8], p: usize) -> Letters
    ensures { Lettered s.now p result.count result.word }
{
    let mut w: u64 = 0;
    let mut k: usize = 0; // as many as there are: no range to go over
    while let Some(b) = letter_at(s, p + k) {
        w = more(w, b);
        k += 1;
    }
    if 5 < k {
        return Letters { count: k, word: 0 };
    }
    Letters { count: k, word: w }
}

// The row that a number of letters names.
fn call_by(w: u64) -> Option<Call>
    ensures { result ≡ call_is (call_by calls w) }
{
    match w {
        6513012 => Some(Call::Plain(0x0010, 2)), // cat
        7892850 => Some(Call::Plain(0x0011, 2)), // xor
        25969 => Some(Call::Plain(0x0012, 2)), // eq
        1751474532 => Some(Call::Plain(0x0013, 2)), // head
        2003330414 => Some(Call::Plain(0x0014, 3)), // when
        6450283 => Some(Call::Cipher(0x0100, 2)), // blk
        504363117675 => Some(Call::Cipher(0x0110, 2)), // unblk
        6517874 => Some(Call::Cipher(0x0120, 3)), // ctr
        7300706 => Some(Call::Cipher(0x0130, 3)), // ofb
        6514274 => Some(Call::Cipher(0x0140, 3)), // cfb
        504363181666 => Some(Call::Cipher(0x0150, 3)), // uncfb
        6513251 => Some(Call::Cipher(0x0160, 3)), // cbc
        504363180643 => Some(Call::Cipher(0x0170, 3)), // uncbc
        6513264 => Some(Call::Cipher(0x0180, 3)), // cbp
        504363180656 => Some(Call::Cipher(0x0190, 3)), // uncbp
        7168355 => Some(Call::Cipher(0x01A0, 2)), // mac
        6514795 => Some(Call::Cipher(0x01B0, 3)), // chk
        _ => None,
    }
}

// After a cipher call's letters a `.` and a suite digit 1 to 5 are due.
fn suite_at(s: &[u8], k: usize, c: usize, q: usize) -> Result<Head, Fault>
    requires { k ≤ 512 }
    ensures { result ≡ suite_head s.now k c q }
{
    due_at(s, b'.', b'.', q)?;
    due_at(s, b'1', b'5', q + 1)?;
    Ok(Head {
        kind: k + usize::from(s[q + 1] - b'0'),
        arguments: c,
        place: q + 2,
    })
}

// A call's letters and suite, from p on: the letters are judged where they end.
pub fn head_at(s: &[u8], p: usize) -> Result<Head, Fault>
    ensures { result ≡ head_at s.now p }
{
    let l = letters_at(s, p);
    let q = p + l.count;
    match call_by(l.word) {
        Some(Call::Plain(kind, arguments)) => Ok(Head {
            kind,
            arguments,
            place: q,
        }),
        Some(Call::Cipher(kind, arguments)) => suite_at(s, kind, arguments, q),
        None => Err(syntax(p)),
    }
}
