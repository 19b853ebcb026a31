// Bytes of a cell moved into 16-bit pieces and out of them, a column at a time.
#![tactic(auto)]

ghost use Rattle.std.specs.Prelude.{◌≡◌, ◌++◌, ◌+◌, ◌*◌, ◌/◌, ◌%◌, ◌≤◌, ◌<◌, get_or, take, drop, length};
ghost use Rattle.std.proofs.lemmas.List.Edits.{sets};
ghost use Rattle.common.specs.Places.{tab};
ghost use Rattle.field.specs.Xor.{xor};
ghost use Rattle.field.specs.Column.{byte_of, pack};
ghost use Rattle.words.specs.Words.{word_at, put_words};

// Eight bytes from a place on, low byte first: one load. By hand, since u64::from_le_bytes takes an array, which eight bytes would have to be gathered into first.
pub fn bytes_at(b: &[u8], at: usize) -> u64
    requires { at + 8 ≤ length b.now }
    ensures { result ≡ pack 8 (λ i. get_or b.now (at + i) 0) }
{
    let h = u64::from(b[at + 7]) * 256 + u64::from(b[at + 6]);
    let g = h * 256 + u64::from(b[at + 5]);
    let f = g * 256 + u64::from(b[at + 4]);
    let e = f * 256 + u64::from(b[at + 3]);
    let d = e * 256 + u64::from(b[at + 2]);
    let c = d * 256 + u64::from(b[at + 1]);
    c * 256 + u64::from(b[at])
}

// The bytes of a column, stored from a place on: one store. By hand, as bytes_at.
pub fn put_bytes(o: &mut [u8], at: usize, w: u64)
    requires { at + 8 ≤ length o.old }
    ensures { o.new ≡ sets o.old at (tab 8 (byte_of w)) }
{
    o[at] = (w % 256) as u8;
    o[at + 1] = (w / 256 % 256) as u8;
    o[at + 2] = (w / 65536 % 256) as u8;
    o[at + 3] = (w / 16777216 % 256) as u8;
    o[at + 4] = (w / 4294967296 % 256) as u8;
    o[at + 5] = (w / 1099511627776 % 256) as u8;
    o[at + 6] = (w / 281474976710656 % 256) as u8;
    o[at + 7] = (w / 72057594037927936 % 256) as u8;
}

// m columns of bytes, from a place of b on, become columns w, w + 1 .. of the cell.
pub fn load(s: &mut [u16], w: usize, b: &[u8], at: usize, m: usize)
    requires { (4 * (w + m) ≤ length s.old) × (at + 8 * m ≤ length b.now) }
    ensures { s.new ≡ put_words s.old w m (λ j. pack 8 (λ i. get_or b.now (at + 8 * j + i) 0)) }
{
    for j in 0..m {
        words::put_word(s, w + j, bytes_at(b, at + 8 * j));
    }
}

// The same, added modulo 2 to what stands there.
pub fn xor_in(s: &mut [u16], w: usize, b: &[u8], at: usize, m: usize)
    requires { (4 * (w + m) ≤ length s.old) × (at + 8 * m ≤ length b.now) }
    ensures { s.new ≡ put_words s.old w m (λ j. xor (word_at s.old (w + j)) (pack 8 (λ i. get_or b.now (at + 8 * j + i) 0))) }
{
    for j in 0..m {
        let x = words::word_at(s, w + j);
        words::put_word(s, w + j, field::x64(x, bytes_at(b, at + 8 * j)));
    }
}

// Columns w, w + 1 .. of the cell become 8 m bytes of o, from a place on.
pub fn store(s: &[u16], w: usize, o: &mut [u8], at: usize, m: usize)
    requires { (4 * (w + m) ≤ length s.now) × (at + 8 * m ≤ length o.old) }
    ensures { o.new ≡ take at o.old ++ (tab (8 * m) (λ n. byte_of (word_at s.now (w + n / 8)) (n % 8)) ++ drop (at + 8 * m) o.old) }
{
    for j in 0..m {
        put_bytes(o, at + 8 * j, words::word_at(s, w + j));
    }
}

// 8 m bytes of b, from a place on, with the columns w, w + 1 .. added modulo 2, become the same bytes of o.
pub fn xor_out(s: &[u16], w: usize, b: &[u8], o: &mut [u8], at: usize, m: usize)
    requires { (4 * (w + m) ≤ length s.now) × (at + 8 * m ≤ length b.now) × (at + 8 * m ≤ length o.old) }
    ensures { o.new ≡ take at o.old ++ (tab (8 * m) (λ n. xor (get_or b.now (at + n) 0) (byte_of (word_at s.now (w + n / 8)) (n % 8))) ++ drop (at + 8 * m) o.old) }
{
    for j in 0..m {
        put_bytes(
            o,
            at + 8 * j,
            field::x64(bytes_at(b, at + 8 * j), words::word_at(s, w + j)),
        );
    }
}

// Byte k of the cell.
fn byte_at(s: &[u16], k: usize) -> u8
    requires { 4 * (k / 8) + 4 ≤ length s.now }
    ensures { result ≡ byte_of (word_at s.now (k / 8)) (k % 8) }
{
    let g = s[k / 2];
    if k % 2 == 0 {
        return (g % 256) as u8;
    }
    (g / 256) as u8
}

// n bytes of b, from a place on, with the bytes of the cell from byte k on added modulo 2: what is left of a cell after its whole columns.
pub fn xor_rest(s: &[u16], k: usize, b: &[u8], o: &mut [u8], at: usize, n: usize)
    requires { (k + n ≤ 2 * length s.now) × (length s.now % 4 ≡ 0) × (at + n ≤ length b.now) × (at + n ≤ length o.old) }
    ensures { o.new ≡ take at o.old ++ (tab n (λ i. xor (get_or b.now (at + i) 0) (byte_of (word_at s.now ((k + i) / 8)) ((k + i) % 8))) ++ drop (at + n) o.old) }
{
    for i in 0..n {
        o[at + i] = field::x8(b[at + i], byte_at(s, k + i));
    }
}
