// Lists of values (document 01, section 6), walked record by record.
#![tactic(auto)]

ghost use Rattle.std.specs.Prelude.{◌≡◌, ◌+◌, ◌<◌};
ghost use Rattle.lists.specs.Entries.{list_of};
ghost use Rattle.listing.specs.Walk.{entry_at, slot_of, some_low, taken_in, is_good};
ghost use Rattle.listing.specs.Find.{find_in};

// A record of a list: its kind, where its payload starts and how long it is.
#[derive(Clone, Copy, Debug, PartialEq, Eq)]
pub struct Entry {
    pub kind: usize,
    pub start: usize,
    pub length: usize,
}

// Bytes that are no whole record.
#[derive(Clone, Copy, Debug, PartialEq, Eq)]
pub struct Cut;

// The list reader: a lent list and a place in it.
#[derive(Drop)]
pub struct Lister<'a> {
    pub src: &'a [u8],
    pub at: usize,
}

// Where a value stands, and how long it is.
#[derive(Clone, Copy, Debug, PartialEq, Eq)]
pub struct Stretch {
    pub start: usize,
    pub length: usize,
}

// The work of the list reader: the record at a place of a slice; none at its end.
fn entry_at(s: &[u8], at: usize) -> Result<Option<Entry>, Cut>
    ensures { result ≡ entry_at s.now at }
{
    if s.len() <= at {
        return Ok(None);
    }
    match heads::head_at(s, at) {
        Some(h) => Ok(Some(Entry {
            kind: h.kind,
            start: at + 4,
            length: h.length,
        })),
        None => Err(Cut),
    }
}

pub fn new<'a>(src: &'a [u8], at: usize) -> Lister<'a>
    ensures { (result.src ≡ src.entry) × (result.at ≡ at) }
{
    Lister { src, at }
}

pub fn next<'a>(r: Lister<'a>) -> Result<Option<Entry>, Cut>
    ensures { result ≡ entry_at r.entry.src.now r.entry.at }
{
    entry_at(r.src, r.at)
}

// The record at a place, through the list reader: what every walk of a list calls.
pub fn entry_of(s: &[u8], at: usize) -> Result<Option<Entry>, Cut>
    ensures { result ≡ entry_at s.now at }
{
    next(new(s, at))
}

// Each kind that a list may have has a place among 16; no other has.
#[tactic(auto, using(crate::proofs::Slots::slots))]
fn slot(run: bool, k: usize) -> Option<usize>
    ensures { result ≡ some_low (slot_of run k) }
{
    if run {
        return match k {
            0x0300..=0x0307 => Some(k - 0x0300),
            0x0400..=0x0403 => Some(k - 0x0400 + 8),
            _ => None,
        };
    }
    match k {
        0x0200..=0x0203 => Some(k - 0x0200),
        _ => None,
    }
}

// Whether a list is good, for running or for preparing.
pub fn good(s: &[u8], run: bool) -> bool
    ensures { result ≡ is_good (list_of (taken_in run) s.now) }
{
    let mut seen = [false; 16];
    let mut at: usize = 0;
    loop {
        match entry_of(s, at) {
            Ok(Some(e)) => {
                let Some(i) = slot(run, e.kind) else {
                    return false;
                };
                if seen[i] {
                    return false;
                }
                if 1024 < e.length {
                    return false;
                }
                seen[i] = true;
                at = e.start + e.length;
            }
            Ok(None) => return true,
            Err(Cut) => return false,
        }
    }
}

// Where the value of a kind stands.
pub fn find(s: &[u8], k: usize) -> Option<Stretch>
    ensures { result ≡ find_in s.now k }
{
    let mut at: usize = 0;
    while let Some(e) = entry_of(s, at).ok()? {
        if e.kind == k {
            return Some(Stretch {
                start: e.start,
                length: e.length,
            });
        }
        at = e.start + e.length;
    }
    None
}
