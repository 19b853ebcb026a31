// The scan of a text for the first `#` without a value (document 01, section 7: 25).
#![tactic(auto)]

ghost use Rattle.std.specs.Prelude.{◌≡◌, ◌-◌, ◌<◌, length, get_or};
ghost use Rattle.texts.specs.Unbound.{unbound_in};
ghost use Rattle.unbound.specs.Scan.{place_is, has_in, open_at};

// Whether `#d` has a value; `bound` says it of `#0` to `#3`.
#[tactic(auto, using(crate::proofs::Laws::four))]
fn has(d: u8, bound: [bool; 4]) -> bool
    ensures { result ≡ has_in bound d }
{
    d < 4 && bound[usize::from(d)]
}

// The digit at p; 0 for a byte below the digits, or for none.
fn digit_at(s: &[u8], p: usize) -> u8
    ensures { result ≡ get_or s.now p 0 - 48 }
{
    if s.len() <= p {
        return 0;
    }
    s[p].saturating_sub(b'0')
}

// Whether a `#` without a value stands at p.
#[tactic(auto, using(crate::proofs::Laws::opens))]
fn open_at(s: &[u8], p: usize, bound: [bool; 4]) -> bool
    requires { p < length s.now }
    ensures { result ≡ open_at (has_in bound) s.now p }
{
    s[p] == b'#' && !has(digit_at(s, p + 1), bound)
}

// The place of the first, in text order, dropped sides included; `bound` says whether `#0` to `#3` have a value.
pub fn first_unbound(text: &[u8], bound: [bool; 4]) -> Option<usize>
    ensures { result ≡ place_is (unbound_in (has_in bound) text.now) }
{
    for p in 0..text.len() {
        if open_at(text, p, bound) {
            return Some(p);
        }
    }
    None
}
