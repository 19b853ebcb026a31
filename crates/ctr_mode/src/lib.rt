// Section 7 of document 003: the gamma of a counter, on cells of at most 1,024 bytes.
#![tactic(auto)]

ghost use Rattle.std.specs.Prelude.{◌≡◌, ◌+◌, ◌*◌, ◌/◌, ◌^◌, ◌<◌, ◌≤◌, ◌++◌, length, drop};
ghost use Rattle.common.specs.Places.{tab};
ghost use Rattle.words.specs.Words.{put_words, block_at};
ghost use Rattle.kalyna.specs.State.{columns_of};
ghost use Rattle.sealer.specs.Sealing.{block_size, sealed, sealed_by};
ghost use Rattle.blocks.specs.Blocks.{Width};
ghost use Rattle.modes.specs.Blocks as Text;
ghost use Rattle.modes.specs.Stream as Stream;
ghost use Rattle.stream_laws.specs.Gammas.{counted, Laid};

use sealer::Sealer;

// A block of bytes, sealed, as block 0 of a cell.
fn seal_bytes(sealer: &Sealer, b: &[u8], e: &mut [u16])
    requires { (length b.now ≡ block_size sealer.now) × (4 * sealer.now.columns ≤ length e.old) }
    ensures { block_at sealer.now.columns e.new 0 ≡ sealed sealer.now (columns_of sealer.now.columns b.now) }
{
    cells::load(e, 0, b, 0, sealer.columns);
    sealer.seal(e, 1);
}

// What is carried when two columns are added.
fn over(a: u64, b: u64) -> u64
    ensures { result ≡ (a + b) / 2 ^ 64 }
{
    if a > 18446744073709551615 - b {
        return 1;
    }
    0
}

// The block e, as a number with its low column first, plus x, to the columns from w on.
fn count(e: &[u16], s: &mut [u16], w: usize, c: usize, x: u64)
    requires { (4 * c ≤ length e.now) × (4 * (w + c) ≤ length s.old) }
    ensures { s.new ≡ put_words s.old w c (counted e.now x) }
{
    let mut more = x;
    for j in 0..c {
        let y = words::word_at(e, j);
        words::put_word(s, w + j, std::num::wrapping_add_u64(y, more));
        let next = over(y, more);
        more = next;
    }
}

// Counters 1 to n.
fn counters_for(e: &[u16], s: &mut [u16], n: usize, c: usize)
    requires { (4 * c ≤ length e.now) × (4 * (c * n) ≤ length s.old) }
    ensures { Laid c n (λ i. tab c (counted e.now (i + 1))) s.old s.new }
{
    for i in 0..n {
        count(e, s, c * i, c, (i + 1) as u64);
    }
}

// The same, by case once a cell, so that the loop over columns is straight.
fn counters(e: &[u16], s: &mut [u16], n: usize, c: usize)
    requires { (4 * c ≤ length e.now) × (4 * (c * n) ≤ length s.old) × Width c }
    ensures { Laid c n (λ i. tab c (counted e.now (i + 1))) s.old s.new }
{
    if c == 2 {
        counters_for(e, s, n, 2);
        return;
    }
    if c == 4 {
        counters_for(e, s, n, 4);
        return;
    }
    counters_for(e, s, n, 8);
}

// The gammas of n blocks.
fn ctr_gammas(sealer: &Sealer, iv: &[u8], e: &mut [u16], s: &mut [u16], n: usize)
    requires { (length iv.now ≡ block_size sealer.now) × (4 * sealer.now.columns ≤ length e.old) × (4 * (sealer.now.columns * n) ≤ length s.old) }
    ensures { Laid sealer.now.columns n (λ i. sealed sealer.now (columns_of sealer.now.columns (Text.block_of (block_size sealer.now) (Stream.counter (block_size sealer.now) (sealed_by sealer.now iv.now) (i + 1))))) s.old s.new }
{
    seal_bytes(sealer, iv, e);
    counters(e, s, n, sealer.columns);
    sealer.seal(s, n);
}

// Counters of one cell never repeat, so none is refused.
pub fn ctr(sealer: &Sealer, iv: &[u8], text: &[u8], out: &mut [u8])
    requires { (length iv.now ≡ block_size sealer.now) × (length text.now ≤ 1024) × (length text.now ≤ length out.old) }
    ensures { out.new ≡ Stream.ctr (block_size sealer.now) (sealed_by sealer.now) iv.now text.now ++ drop (length text.now) out.old }
{
    let long = text.len();
    let mut e = [0u16; 32];
    let mut s = [0u16; 512];
    ctr_gammas(
        sealer,
        iv,
        &mut e,
        &mut s,
        gamma_out::blocks_of(long, sealer.columns),
    );
    gamma_out::add_front(&s, text, out, 0, long);
}
