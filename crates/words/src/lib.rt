// A cell in 16-bit pieces: one column read, one column stored.
#![tactic(auto)]

ghost use Rattle.std.specs.Prelude.{◌≡◌, ◌+◌, ◌*◌, ◌≤◌, ◌<◌, length};
ghost use Rattle.words.specs.Words.{word_at, put_word};

// Column j.
pub fn word_at(s: &[u16], j: usize) -> u64
    requires { 4 * j + 4 ≤ length s.now }
    ensures { result ≡ word_at s.now j }
{
    let at = 4 * j;
    let d = s[at + 3] as u64 * 65536 + s[at + 2] as u64;
    let e = d * 65536 + s[at + 1] as u64;
    e * 65536 + s[at] as u64
}

// Column j replaced by w.
pub fn put_word(s: &mut [u16], j: usize, w: u64)
    requires { 4 * j + 4 ≤ length s.old }
    ensures { s.new ≡ put_word s.old j w }
{
    let at = 4 * j;
    s[at] = (w % 65536) as u16;
    s[at + 1] = (w / 65536 % 65536) as u16;
    s[at + 2] = (w / 4294967296 % 65536) as u16;
    s[at + 3] = (w / 281474976710656 % 65536) as u16;
}
