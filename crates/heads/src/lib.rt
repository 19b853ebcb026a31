// The head of a record (document 01, section 6), in a list and in an image alike.
#![tactic(auto)]

ghost use Rattle.std.specs.Prelude.{◌≡◌, ◌+◌, ◌<◌, length};
ghost use Rattle.records.specs.Record.{word};
ghost use Rattle.heads.specs.Head.{head_at};

// A whole record's kind and the length of its payload.
#[derive(Clone, Copy, Debug, PartialEq, Eq)]
pub struct Head {
    pub kind: usize,
    pub length: usize,
}

// The two bytes at a place, low byte first.
pub fn word_at(s: &[u8], i: usize) -> usize
    requires { i + 1 < length s.now }
    ensures { (result ≡ word s.now i) × (result < 65536) }
{
    (s[i] as usize) + 256 * (s[i + 1] as usize)
}

// The head of the record that stands at a place; none where it is cut.
pub fn head_at(s: &[u8], at: usize) -> Option<Head>
    ensures { result ≡ head_at s.now at }
{
    if s.len() < at || s.len() - at < 4 {
        return None;
    }
    let length = word_at(s, at);
    if s.len() - at - 4 < length {
        return None;
    }
    Some(Head {
        kind: word_at(s, at + 2),
        length,
    })
}
