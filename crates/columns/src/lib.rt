// A column mixed by lookups in a lent table.
#![tactic(auto)]

ghost use Rattle.std.specs.Prelude.{◌≡◌, [], ◌∷◌, ◌+◌, ◌*◌, ◌/◌, ◌%◌, ◌≤◌, ◌<◌, get_or};
ghost use Rattle.field.specs.Xor.{xor};
ghost use Rattle.field.specs.Column.{pack};
ghost use Rattle.lookup.specs.Table.{turned, entry, half, gather};

// Eight bytes of a table, as the number that they make: one load. cells::bytes_at is the same of a slice; a table lent as a slice cost one in a hundred.
fn eight_at(t: &[u8; 8192], p: usize) -> u64
    requires { p + 8 ≤ 8192 }
    ensures { result ≡ pack 8 (λ k. get_or t.now (p + k) 0) }
{
    let h = t[p + 7] as u64 * 256 + t[p + 6] as u64;
    let g = h * 256 + t[p + 5] as u64;
    let f = g * 256 + t[p + 4] as u64;
    let e = f * 256 + t[p + 3] as u64;
    let d = e * 256 + t[p + 2] as u64;
    let c = d * 256 + t[p + 1] as u64;
    c * 256 + t[p] as u64
}

// The column of row i at the byte x.
fn entry_at(t: &[u8; 8192], i: usize, x: usize) -> u64
    requires { (i < 4) × (x < 256) }
    ensures { result ≡ entry t.now i x }
{
    eight_at(t, 2048 * i + 8 * x)
}

fn low(x: u16) -> usize
    ensures { (result ≡ x % 256) × (result < 256) }
{
    (x % 256) as usize
}

fn high(x: u16) -> usize
    ensures { (result ≡ x / 256) × (result < 256) }
{
    (x / 256) as usize
}

// The two halves of a column change places.
fn turn(w: u64) -> u64
    ensures { result ≡ turned w }
{
    w % 4294967296 * 4294967296 + w / 4294967296
}

// Four rows of a column added to w one after another: the low, high, low, high bytes of four pieces.
fn half_on(t: &[u8; 8192], w: u64, a: u16, b: u16, c: u16, d: u16) -> u64
    ensures { result ≡ xor w (half t.now (λ i. get_or (a % 256 ∷ b / 256 ∷ c % 256 ∷ d / 256 ∷ []) i 0)) }
{
    let x = field::x64(w, entry_at(t, 0, low(a)));
    let y = field::x64(x, entry_at(t, 1, high(b)));
    let z = field::x64(y, entry_at(t, 2, low(c)));
    field::x64(z, entry_at(t, 3, high(d)))
}

// A mixed column, from the eight pieces that hold its rows, in one chain: least work, for blocks that overlap.
pub fn column(t: &[u8; 8192], a: u16, b: u16, c: u16, d: u16, e: u16, f: u16, g: u16, h: u16) -> u64
    ensures { result ≡ gather t.now (λ i. get_or (a % 256 ∷ b / 256 ∷ c % 256 ∷ d / 256 ∷ e % 256 ∷ f / 256 ∷ g % 256 ∷ h / 256 ∷ []) i 0) }
{
    half_on(t, turn(half_on(t, 0, e, f, g, h)), a, b, c, d)
}

// The same in two chains that do not wait for each other, for a block that stands alone.
pub fn column_alone(
    t: &[u8; 8192],
    a: u16,
    b: u16,
    c: u16,
    d: u16,
    e: u16,
    f: u16,
    g: u16,
    h: u16,
) -> u64
    ensures { result ≡ gather t.now (λ i. get_or (a % 256 ∷ b / 256 ∷ c % 256 ∷ d / 256 ∷ e % 256 ∷ f / 256 ∷ g % 256 ∷ h / 256 ∷ []) i 0) }
{
    field::x64(half_on(t, 0, a, b, c, d), turn(half_on(t, 0, e, f, g, h)))
}
