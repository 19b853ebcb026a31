// The checks of a cipher call that lengths alone decide, in their order (document 01, section 7).
#![tactic(auto)]

ghost use Rattle.std.specs.Prelude.{◌≡◌, ◌*◌, ◌/◌, ◌%◌, ◌+◌, ◌<◌, ◌≤◌};
ghost use Rattle.suites.specs.Suites.{suite_of, block_bytes};
ghost use Rattle.suite_laws.specs.Row.{Row};
ghost use Rattle.modes.specs.Cell.{call_of, side_of, shape_of, iv_wrong, text_empty, text_long, text_partial, tag_wrong};
ghost use Rattle.judging.specs.Order.{length_before, judged_for, judged_of};

use answers::Refusal;
use suites::{Bits, Bytes, Suite};

// f stays a number: each one has an answer, and a narrower type would ask more of callers.

// Iv: calls 2 to 9 take one.
#[tactic(auto, using(crate::proofs::Tests::iv_none, crate::proofs::Tests::iv_taken))]
fn iv_wrong(f: usize, b: usize, n: usize) -> bool
    ensures { result ≡ iv_wrong (side_of (call_of f)) b n }
{
    match f {
        2..=9 => n != b,
        _ => false,
    }
}

// Empty: a block has only its own check.
#[tactic(auto, using(crate::proofs::Tests::empty_block, crate::proofs::Tests::empty_text))]
fn text_empty(f: usize, n: usize) -> bool
    ensures { result ≡ text_empty (shape_of (call_of f)) n }
{
    match f {
        0 | 1 => false,
        _ => n == 0,
    }
}

// Long: the result of `cbp` is over 1,024 bytes exactly where its text is not under.
#[tactic(auto, using(crate::proofs::Tests::filled_long, crate::proofs::Tests::long_filled, crate::proofs::Tests::long_block, crate::proofs::Tests::long_text))]
fn text_long(f: usize, b: usize, n: usize) -> bool
    requires { (0 < b) × (1024 % b ≡ 0) }
    ensures { result ≡ text_long (shape_of (call_of f)) b n }
{
    match f {
        0 | 1 => false,
        8 => 1024 <= n,
        _ => 1024 < n,
    }
}

// Partial: one block; whole blocks for calls 6, 7 and 9.
#[tactic(auto, using(crate::proofs::Tests::partial_block, crate::proofs::Tests::partial_none, crate::proofs::Tests::partial_whole))]
fn text_partial(f: usize, b: usize, n: usize) -> bool
    requires { 0 < b }
    ensures { result ≡ text_partial (shape_of (call_of f)) b n }
{
    match f {
        0 | 1 => n != b,
        6 | 7 | 9 => n % b != 0,
        _ => false,
    }
}

// Tag: the standard's bound is 64 bits.
#[tactic(auto, using(crate::proofs::Tests::tag_none, crate::proofs::Tests::tag_low, crate::proofs::Tests::tag_high, crate::proofs::Tests::tag_taken))]
fn tag_wrong(f: usize, b: usize, n: usize) -> bool
    ensures { result ≡ tag_wrong (side_of (call_of f)) b n }
{
    match f {
        0..=10 => false,
        _ => n < Bytes::from(Bits(64)).0 || b < n,
    }
}

// The length of the answer, as far as the text's length tells it: of `uncbp` it does not.
#[tactic(auto, using(crate::proofs::Tests::length_filled, crate::proofs::Tests::length_unfilled, crate::proofs::Tests::length_text, crate::proofs::Tests::length_yes, crate::proofs::Tests::length_tag, crate::proofs::Tests::length_block, crate::proofs::Tests::quotient_small, crate::proofs::Tests::filled_small))]
fn length_before(f: usize, b: usize, n: usize) -> usize
    requires { (0 < b) × (b ≤ 64) × (f ≡ 8 → n < 1024) }
    ensures { result ≡ length_before (call_of f) b n }
{
    match f {
        0 | 1 | 10 => b,
        2..=7 => n,
        8 => b * (n / b + 1),
        9 => 0,
        _ => 1,
    }
}

// The checks of a known suite, one after another.
#[tactic(auto, unfolding(crate::specs::Order::judged_for, common::specs::Choice::pick, modes::specs::Cell::key_wrong))]
pub fn judge_known(
    f: usize,
    s: Suite,
    key: usize,
    side: usize,
    text: usize,
    room: usize,
) -> Result<Suite, Refusal>
    requires { Row s }
    ensures { result ≡ judged_for (call_of f) s key side text room }
{
    let b = Bytes::from(s.block).0;
    if key != Bytes::from(s.key).0 {
        return Err(Refusal::Key);
    }
    if iv_wrong(f, b, side) {
        return Err(Refusal::Iv);
    }
    if text_empty(f, text) {
        return Err(Refusal::Empty);
    }
    if text_long(f, b, text) {
        return Err(Refusal::Long);
    }
    if text_partial(f, b, text) {
        return Err(Refusal::Partial);
    }
    if tag_wrong(f, b, side) {
        return Err(Refusal::Tag);
    }
    if room < length_before(f, b, text) {
        return Err(Refusal::Room);
    }
    Ok(s)
}

// The same of a suite number.
#[tactic(auto, unfolding(crate::specs::Order::judged_of, crate::specs::Order::judged_named))]
pub fn judge(
    f: usize,
    n: u64,
    key: usize,
    side: usize,
    text: usize,
    room: usize,
) -> Result<Suite, Refusal>
    ensures { result ≡ judged_of (call_of f) n key side text room }
{
    let s = suites::suite_of(n).ok_or(Refusal::Suite)?;
    judge_known(f, s, key, side, text, room)
}
