// Tags (document 003, section 9), and their check.
#![tactic(auto)]

ghost use Rattle.std.specs.Prelude.{◌≡◌, ◌++◌, ◌+◌, ◌-◌, ◌*◌, ◌/◌, ◌%◌, ◌≤◌, ◌<◌, eqb, take, drop, length};
ghost use Rattle.common.specs.Choice.{pick};
ghost use Rattle.sealer.specs.Sealing.{block_size, sealed_by};
ghost use Rattle.blocks.specs.Blocks.{Width};
ghost use Rattle.modes.specs.Blocks.{block_at, xor_block, block_of};
ghost use Rattle.modes.specs.Mac.{mac_text, mac, same, chk};
ghost use Rattle.one_block.specs.Held.{held};

use sealer::Sealer;

// 9.2: 0 for whole blocks, 1 after a fill: a number and no flag, since it is sealed as a block.
fn mask_number(n: usize, b: usize) -> u16
    requires { 0 < b }
    ensures { (result ≡ pick (eqb (n % b) 0) 0 1) × (result < 2) }
{
    if n % b == 0 {
        return 0;
    }
    1
}

// 9.2: the mask, the encryption of a number of one digit, becomes the leading bytes of m.
fn mask(sealer: &Sealer, x: u16, m: &mut [u8])
    requires { (x < 2) × (block_size sealer.now ≤ length m.old) }
    ensures { m.new ≡ sealed_by sealer.now (block_of (block_size sealer.now) x) ++ drop (block_size sealer.now) m.old }
{
    let mut s = [0u16; 32];
    s[0] = x;
    one_block::seal_first(sealer, &mut s);
    one_block::give_out(&s, sealer.columns, m, 0);
}

// 9.1: the last block, filled if it is short, added to the first block of the cell.
fn add_last(s: &mut [u16], c: usize, text: &[u8], at: usize)
    requires { Width c × (4 * c ≤ length s.old) × (0 < length text.now) × (at ≡ (length text.now - 1) / (8 * c) * (8 * c)) }
    ensures { held c s.new ≡ xor_block (8 * c) (held c s.old) (block_at (8 * c) (mac_text (8 * c) text.now) ((length text.now - 1) / (8 * c))) }
{
    if text.len() % (8 * c) == 0 {
        one_block::add_in(s, c, text, at);
        return;
    }
    fills::add_filled(s, c, text, at);
}

// 9.2: the tag of a text, one block.
pub fn mac(sealer: &Sealer, text: &[u8], out: &mut [u8])
    requires { (0 < length text.now) × (block_size sealer.now ≤ length out.old) }
    ensures { out.new ≡ mac (block_size sealer.now) (sealed_by sealer.now) text.now ++ drop (block_size sealer.now) out.old }
{
    let c = sealer.columns;
    let n = text.len();
    let q = (n - 1) / (8 * c);
    let mut s = [0u16; 32];
    chains::chain(sealer, &mut s, text, q);
    add_last(&mut s, c, text, q * (8 * c));
    let mut m = [0u8; 64];
    mask(sealer, mask_number(n, 8 * c), &mut m);
    one_block::add_in(&mut s, c, &m, 0);
    one_block::seal_first(sealer, &mut s);
    one_block::give_out(&s, c, out, 0);
}

// 9.3: whether all bytes of the tag, at least 8, are the leading bytes of the right one; every byte is compared.
pub fn same_tag(tag: &[u8], right: &[u8]) -> bool
    requires { (length tag.now ≤ length right.now) × (length tag.now ≤ 64) × (8 ≤ length tag.now) }
    ensures { result ≡ same tag.now (take (length tag.now) right.now) }
{
    let mut d: u64 = 0;
    for i in 0..tag.len() {
        d += u64::from(field::x8(tag[i], right[i]));
    }
    d == 0
}

// 9.3: whether the tag is the leading bytes of the text's tag: 01 or 00.
pub fn chk(sealer: &Sealer, tag: &[u8], text: &[u8], out: &mut [u8])
    requires { (length tag.now ≤ block_size sealer.now) × (0 < length text.now) × (0 < length out.old) × (8 ≤ length tag.now) }
    ensures { out.new ≡ chk (block_size sealer.now) (sealed_by sealer.now) tag.now text.now ++ drop 1 out.old }
{
    let mut right = [0u8; 64];
    mac(sealer, text, &mut right);
    out[0] = u8::from(same_tag(tag, &right));
}
