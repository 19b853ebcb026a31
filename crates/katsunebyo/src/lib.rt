// The face: what a host calls; `katsunebyo_c` exports it to C. Each entry takes any bytes, lengths and numbers, gives back the number of document 01, section 7, and writes the length: that is the form that C can read, so here numbers stay.
#![tactic(auto)]

ghost use Rattle.std.specs.Prelude.{◌≡◌, []};
ghost use Rattle.common.specs.Answer.{deliver};
ghost use Rattle.modes.specs.Cell.{Call, cell, cell_of};
ghost use Rattle.recipe.specs.Outcome.{outcome};
ghost use Rattle.recipe.specs.Prepare.{prepare_of};
ghost use Rattle.recipe.specs.Run.{run_of};
ghost use Rattle.entries.specs.Seen.{seen};
ghost use Rattle.preparing.specs.Ended.{place_of};

use answers::Fault;

// One block sealed.
pub fn katsu_blk(suite: u64, key: &[u8], block: &[u8], out: &mut [u8], length: &mut usize) -> u32
    ensures { seen result length.new out.new ≡ deliver (cell Call.blk suite key.now [] block.now) out.old }
{
    answers::give(
        entries::sealed(0, suite, key, &key[..0], block, out),
        length,
    )
}

// One block opened.
pub fn katsu_unblk(suite: u64, key: &[u8], block: &[u8], out: &mut [u8], length: &mut usize) -> u32
    ensures { seen result length.new out.new ≡ deliver (cell Call.unblk suite key.now [] block.now) out.old }
{
    answers::give(
        entries::opened(1, suite, key, &key[..0], block, out),
        length,
    )
}

// Counter mode (document 003, section 7); opening is the same call.
pub fn katsu_ctr(
    suite: u64,
    key: &[u8],
    iv: &[u8],
    text: &[u8],
    out: &mut [u8],
    length: &mut usize,
) -> u32
    ensures { seen result length.new out.new ≡ deliver (cell Call.ctr suite key.now iv.now text.now) out.old }
{
    answers::give(entries::sealed(2, suite, key, iv, text, out), length)
}

// Output feedback (section 11); opening is the same call.
pub fn katsu_ofb(
    suite: u64,
    key: &[u8],
    iv: &[u8],
    text: &[u8],
    out: &mut [u8],
    length: &mut usize,
) -> u32
    ensures { seen result length.new out.new ≡ deliver (cell Call.ofb suite key.now iv.now text.now) out.old }
{
    answers::give(entries::sealed(3, suite, key, iv, text, out), length)
}

// Cipher feedback of whole blocks (section 8).
pub fn katsu_cfb(
    suite: u64,
    key: &[u8],
    iv: &[u8],
    text: &[u8],
    out: &mut [u8],
    length: &mut usize,
) -> u32
    ensures { seen result length.new out.new ≡ deliver (cell Call.cfb suite key.now iv.now text.now) out.old }
{
    answers::give(entries::sealed(4, suite, key, iv, text, out), length)
}

// Cipher feedback opened.
pub fn katsu_uncfb(
    suite: u64,
    key: &[u8],
    iv: &[u8],
    text: &[u8],
    out: &mut [u8],
    length: &mut usize,
) -> u32
    ensures { seen result length.new out.new ≡ deliver (cell Call.uncfb suite key.now iv.now text.now) out.old }
{
    answers::give(entries::sealed(5, suite, key, iv, text, out), length)
}

// Chaining of whole blocks (section 10).
pub fn katsu_cbc(
    suite: u64,
    key: &[u8],
    iv: &[u8],
    text: &[u8],
    out: &mut [u8],
    length: &mut usize,
) -> u32
    ensures { seen result length.new out.new ≡ deliver (cell Call.cbc suite key.now iv.now text.now) out.old }
{
    answers::give(entries::sealed(6, suite, key, iv, text, out), length)
}

// Chaining opened.
pub fn katsu_uncbc(
    suite: u64,
    key: &[u8],
    iv: &[u8],
    text: &[u8],
    out: &mut [u8],
    length: &mut usize,
) -> u32
    ensures { seen result length.new out.new ≡ deliver (cell Call.uncbc suite key.now iv.now text.now) out.old }
{
    answers::give(entries::opened(7, suite, key, iv, text, out), length)
}

// Chaining of a text with its fill.
pub fn katsu_cbp(
    suite: u64,
    key: &[u8],
    iv: &[u8],
    text: &[u8],
    out: &mut [u8],
    length: &mut usize,
) -> u32
    ensures { seen result length.new out.new ≡ deliver (cell Call.cbp suite key.now iv.now text.now) out.old }
{
    answers::give(entries::sealed(8, suite, key, iv, text, out), length)
}

// Chaining opened, and the fill taken off.
pub fn katsu_uncbp(
    suite: u64,
    key: &[u8],
    iv: &[u8],
    text: &[u8],
    out: &mut [u8],
    length: &mut usize,
) -> u32
    ensures { seen result length.new out.new ≡ deliver (cell Call.uncbp suite key.now iv.now text.now) out.old }
{
    answers::give(entries::opened(9, suite, key, iv, text, out), length)
}

// The tag of a text (section 9), one block.
pub fn katsu_mac(suite: u64, key: &[u8], text: &[u8], out: &mut [u8], length: &mut usize) -> u32
    ensures { seen result length.new out.new ≡ deliver (cell Call.mac suite key.now [] text.now) out.old }
{
    answers::give(
        entries::sealed(10, suite, key, &key[..0], text, out),
        length,
    )
}

// Whether a tag is the leading bytes of the text's tag, 8 or more of them: 01 or 00.
pub fn katsu_chk(
    suite: u64,
    key: &[u8],
    tag: &[u8],
    text: &[u8],
    out: &mut [u8],
    length: &mut usize,
) -> u32
    ensures { seen result length.new out.new ≡ deliver (cell Call.chk suite key.now tag.now text.now) out.old }
{
    answers::give(entries::sealed(11, suite, key, tag, text, out), length)
}

// Where in the text a refusal stands; 0 for all else.
#[tactic(auto, unfolding(preparing::specs::Ended::place_of))]
fn place_in(told: Result<usize, Fault>) -> usize
    ensures { result ≡ place_of told }
{
    match told {
        Ok(_) => 0,
        Err(fault) => fault.place,
    }
}

// A recipe text prepared to an image, with the values of `#`; the place is where in the text a refusal stands.
pub fn katsu_prepare(
    text: &[u8],
    list: &[u8],
    out: &mut [u8],
    work: &mut [u8],
    length: &mut usize,
    place: &mut usize,
) -> u32
    ensures { outcome (seen result length.new out.new) place.new work.new ≡ prepare_of cell_of text.now list.now out.old work.old }
{
    let told = preparing::prepare(text, list, out, work);
    *place = place_in(told);
    answers::give(told, length)
}

// An image run on a list of values, once a row.
pub fn katsu_run<'a>(
    image: &'a [u8],
    list: &'a [u8],
    out: &mut [u8],
    work: &mut [u8],
    length: &mut usize,
) -> u32
    ensures { outcome (seen result length.new out.new) 0 work.new ≡ run_of cell_of image.now list.now out.old work.old }
{
    answers::give(runner::run(image, list, out, work), length)
}
