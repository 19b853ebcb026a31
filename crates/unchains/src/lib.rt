// One block opened, and chaining opened (document 003, 10.3): all blocks at once.
#![tactic(auto)]

ghost use Rattle.std.specs.Prelude.{◌≡◌, List, ◌++◌, ℕ, ◌+◌, ◌*◌, ◌/◌, ◌%◌, ◌≤◌, ◌<◌, drop, length};
ghost use Rattle.common.specs.Places.{tab};
ghost use Rattle.field.specs.Column.{byte_of};
ghost use Rattle.words.specs.Words.{word_at};
ghost use Rattle.opener.specs.Opening.{block_size, MixedBack, opened_by};
ghost use Rattle.modes.specs.Chain.{uncbc};
ghost use Rattle.one_block.specs.Held.{held};

use opener::Opener;

// The first block opened.
fn open_first(opener: &Opener, s: &mut [u16])
    requires { 4 * opener.now.columns ≤ length s.old }
    ensures { (k : List ℕ) → MixedBack opener.now k → held opener.now.columns s.new ≡ opened_by opener.now k (held opener.now.columns s.old) }
{
    opener.unseal(s, 1);
}

// One block opened.
pub fn unblk(opener: &Opener, text: &[u8], out: &mut [u8])
    requires { (length text.now ≡ block_size opener.now) × (block_size opener.now ≤ length out.old) }
    ensures { (k : List ℕ) → MixedBack opener.now k → out.new ≡ opened_by opener.now k text.now ++ drop (block_size opener.now) out.old }
{
    let mut s = [0u16; 32];
    one_block::take_in(&mut s, opener.columns, text, 0);
    open_first(opener, &mut s);
    one_block::give_out(&s, opener.columns, out, 0);
}

// All n blocks of the text opened in the cell, then the IV added to the first and the sealed block before to each other.
fn open_in(opener: &Opener, s: &mut [u16], iv: &[u8], text: &[u8], n: usize)
    requires { (0 < n) × (4 * (opener.now.columns * n) ≤ length s.old) × (length iv.now ≡ block_size opener.now) × (length text.now ≡ 8 * (opener.now.columns * n)) }
    ensures { (k : List ℕ) → MixedBack opener.now k → tab (8 * (opener.now.columns * n)) (λ i. byte_of (word_at s.new (0 + i / 8)) (i % 8)) ≡ uncbc (block_size opener.now) (opened_by opener.now k) iv.now text.now }
{
    let c = opener.columns;
    cells::load(s, 0, text, 0, c * n);
    opener.unseal(s, n);
    cells::xor_in(s, 0, iv, 0, c);
    cells::xor_in(s, c, text, 0, c * n - c);
}

// 10.3: whole blocks opened.
pub fn uncbc(opener: &Opener, iv: &[u8], text: &[u8], out: &mut [u8])
    requires { (length iv.now ≡ block_size opener.now) × (0 < length text.now) × (length text.now ≤ 1024) × (length text.now % block_size opener.now ≡ 0) × (length text.now ≤ length out.old) }
    ensures { (k : List ℕ) → MixedBack opener.now k → out.new ≡ uncbc (block_size opener.now) (opened_by opener.now k) iv.now text.now ++ drop (length text.now) out.old }
{
    let c = opener.columns;
    let n = text.len() / (8 * c);
    let mut s = [0u16; 512];
    open_in(opener, &mut s, iv, text, n);
    cells::store(&s, 0, out, 0, c * n);
}
