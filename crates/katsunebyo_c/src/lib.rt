// The face for C: each export calls the function of `katsunebyo` that has its name, and says the same of it. `include/katsunebyo.h` declares them.
#![tactic(auto)]

ghost use Rattle.std.specs.Prelude.{◌≡◌, []};
ghost use Rattle.common.specs.Answer.{deliver};
ghost use Rattle.modes.specs.Cell.{Call, cell, cell_of};
ghost use Rattle.recipe.specs.Outcome.{outcome};
ghost use Rattle.recipe.specs.Prepare.{prepare_of};
ghost use Rattle.recipe.specs.Run.{run_of};
ghost use Rattle.entries.specs.Seen.{seen};

// One block sealed.
#[unsafe(no_mangle)]
pub extern "C" fn katsu_blk(
    suite: u64,
    key: &[u8],
    block: &[u8],
    out: &mut [u8],
    length: &mut usize,
) -> u32
    ensures { seen result length.new out.new ≡ deliver (cell Call.blk suite key.now [] block.now) out.old }
{
    katsunebyo::katsu_blk(suite, key, block, out, length)
}

// One block opened.
#[unsafe(no_mangle)]
pub extern "C" fn katsu_unblk(
    suite: u64,
    key: &[u8],
    block: &[u8],
    out: &mut [u8],
    length: &mut usize,
) -> u32
    ensures { seen result length.new out.new ≡ deliver (cell Call.unblk suite key.now [] block.now) out.old }
{
    katsunebyo::katsu_unblk(suite, key, block, out, length)
}

// Counter mode (document 003, section 7); opening is the same call.
#[unsafe(no_mangle)]
pub extern "C" fn katsu_ctr(
    suite: u64,
    key: &[u8],
    iv: &[u8],
    text: &[u8],
    out: &mut [u8],
    length: &mut usize,
) -> u32
    ensures { seen result length.new out.new ≡ deliver (cell Call.ctr suite key.now iv.now text.now) out.old }
{
    katsunebyo::katsu_ctr(suite, key, iv, text, out, length)
}

// Output feedback (section 11); opening is the same call.
#[unsafe(no_mangle)]
pub extern "C" fn katsu_ofb(
    suite: u64,
    key: &[u8],
    iv: &[u8],
    text: &[u8],
    out: &mut [u8],
    length: &mut usize,
) -> u32
    ensures { seen result length.new out.new ≡ deliver (cell Call.ofb suite key.now iv.now text.now) out.old }
{
    katsunebyo::katsu_ofb(suite, key, iv, text, out, length)
}

// Cipher feedback of whole blocks (section 8).
#[unsafe(no_mangle)]
pub extern "C" fn katsu_cfb(
    suite: u64,
    key: &[u8],
    iv: &[u8],
    text: &[u8],
    out: &mut [u8],
    length: &mut usize,
) -> u32
    ensures { seen result length.new out.new ≡ deliver (cell Call.cfb suite key.now iv.now text.now) out.old }
{
    katsunebyo::katsu_cfb(suite, key, iv, text, out, length)
}

// Cipher feedback opened.
#[unsafe(no_mangle)]
pub extern "C" fn katsu_uncfb(
    suite: u64,
    key: &[u8],
    iv: &[u8],
    text: &[u8],
    out: &mut [u8],
    length: &mut usize,
) -> u32
    ensures { seen result length.new out.new ≡ deliver (cell Call.uncfb suite key.now iv.now text.now) out.old }
{
    katsunebyo::katsu_uncfb(suite, key, iv, text, out, length)
}

// Chaining of whole blocks (section 10).
#[unsafe(no_mangle)]
pub extern "C" fn katsu_cbc(
    suite: u64,
    key: &[u8],
    iv: &[u8],
    text: &[u8],
    out: &mut [u8],
    length: &mut usize,
) -> u32
    ensures { seen result length.new out.new ≡ deliver (cell Call.cbc suite key.now iv.now text.now) out.old }
{
    katsunebyo::katsu_cbc(suite, key, iv, text, out, length)
}

// Chaining opened.
#[unsafe(no_mangle)]
pub extern "C" fn katsu_uncbc(
    suite: u64,
    key: &[u8],
    iv: &[u8],
    text: &[u8],
    out: &mut [u8],
    length: &mut usize,
) -> u32
    ensures { seen result length.new out.new ≡ deliver (cell Call.uncbc suite key.now iv.now text.now) out.old }
{
    katsunebyo::katsu_uncbc(suite, key, iv, text, out, length)
}

// Chaining of a text with its fill.
#[unsafe(no_mangle)]
pub extern "C" fn katsu_cbp(
    suite: u64,
    key: &[u8],
    iv: &[u8],
    text: &[u8],
    out: &mut [u8],
    length: &mut usize,
) -> u32
    ensures { seen result length.new out.new ≡ deliver (cell Call.cbp suite key.now iv.now text.now) out.old }
{
    katsunebyo::katsu_cbp(suite, key, iv, text, out, length)
}

// Chaining opened, and the fill taken off.
#[unsafe(no_mangle)]
pub extern "C" fn katsu_uncbp(
    suite: u64,
    key: &[u8],
    iv: &[u8],
    text: &[u8],
    out: &mut [u8],
    length: &mut usize,
) -> u32
    ensures { seen result length.new out.new ≡ deliver (cell Call.uncbp suite key.now iv.now text.now) out.old }
{
    katsunebyo::katsu_uncbp(suite, key, iv, text, out, length)
}

// The tag of a text (section 9), one block.
#[unsafe(no_mangle)]
pub extern "C" fn katsu_mac(
    suite: u64,
    key: &[u8],
    text: &[u8],
    out: &mut [u8],
    length: &mut usize,
) -> u32
    ensures { seen result length.new out.new ≡ deliver (cell Call.mac suite key.now [] text.now) out.old }
{
    katsunebyo::katsu_mac(suite, key, text, out, length)
}

// Whether a tag is the leading bytes of the text's tag, 8 or more of them: 01 or 00.
#[unsafe(no_mangle)]
pub extern "C" fn katsu_chk(
    suite: u64,
    key: &[u8],
    tag: &[u8],
    text: &[u8],
    out: &mut [u8],
    length: &mut usize,
) -> u32
    ensures { seen result length.new out.new ≡ deliver (cell Call.chk suite key.now tag.now text.now) out.old }
{
    katsunebyo::katsu_chk(suite, key, tag, text, out, length)
}

// A recipe text prepared to an image, with the values of `#`; the place is where in the text a refusal stands.
#[unsafe(no_mangle)]
pub extern "C" fn katsu_prepare(
    text: &[u8],
    list: &[u8],
    out: &mut [u8],
    work: &mut [u8],
    length: &mut usize,
    place: &mut usize,
) -> u32
    ensures { outcome (seen result length.new out.new) place.new work.new ≡ prepare_of cell_of text.now list.now out.old work.old }
{
    katsunebyo::katsu_prepare(text, list, out, work, length, place)
}

// An image run on a list of values, once a row.
#[unsafe(no_mangle)]
pub extern "C" fn katsu_run<'a>(
    image: &'a [u8],
    list: &'a [u8],
    out: &mut [u8],
    work: &mut [u8],
    length: &mut usize,
) -> u32
    ensures { outcome (seen result length.new out.new) 0 work.new ≡ run_of cell_of image.now list.now out.old work.old }
{
    katsunebyo::katsu_run(image, list, out, work, length)
}
