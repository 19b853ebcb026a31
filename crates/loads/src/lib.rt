// Bytes read as columns, low byte first: one load for each column.
#![tactic(auto)]

ghost use Rattle.std.specs.Prelude.{◌++◌, ◌≡◌, ◌*◌, ◌≤◌, length, drop};
ghost use Rattle.kalyna.specs.State.{columns_of};

// The first n columns of b.
pub fn load(k: &mut [u64], b: &[u8], n: usize)
    requires { (n ≤ length k.old) × (8 * n ≤ length b.now) }
    ensures { k.new ≡ columns_of n b.now ++ drop n k.old }
{
    for j in 0..n {
        k[j] = cells::bytes_at(b, 8 * j);
    }
}
