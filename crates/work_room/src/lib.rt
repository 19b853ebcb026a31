// The work room that preparing and running borrow (document 01, section 7).
#![tactic(auto)]

ghost use Rattle.std.specs.Prelude.{◌≡◌, ◌+◌, ◌≤◌, min, max, fold, length, replicate};
ghost use Rattle.recipe.specs.Outcome.{zeroed};

// The largest byte: 0 exactly where all are zero. No way out early, so that the loop works on many bytes at once.
fn largest(part: &[u8]) -> u8
    ensures { result ≡ fold max 0 part.now }
{
    part.iter().fold(0, |x, w| x.max(*w))
}

// Every byte zero. A stretch that is zero already, as the run before left it, is only read: that is cheaper than writing.
#[tactic(auto, using(crate::proofs::Maximum::all_zero))]
fn clean(part: &mut [u8])
    ensures { part.new ≡ replicate (length part.old) 0 }
{
    if 0 < largest(part) {
        part.fill(0);
    }
}

// Where the stretch that starts at `at` ends: after 4,096 bytes, or at n.
fn end_of(at: usize, n: usize) -> usize
    requires { at ≤ n }
    ensures { result ≡ min (at + 4096) n }
{
    at + (n - at).min(4096)
}

// Its first n bytes zero, bytes beyond unchanged.
pub fn clear(work: &mut [u8], n: usize)
    requires { n ≤ length work.old }
    ensures { work.new ≡ zeroed n work.old }
{
    for at in (0..n).step_by(4096) {
        let e = end_of(at, n);
        clean(&mut work[at..e]);
    }
}
