// The twelve calls of document 01, section 6.
#[derive(Clone, Copy, PartialEq, Eq)]
pub(crate) enum Call {
    Blk,
    Unblk,
    Ctr,
    Ofb,
    Cfb,
    Uncfb,
    Cbc,
    Uncbc,
    Cbp,
    Uncbp,
    Mac,
    Chk,
}

impl Call {
    pub(crate) fn named(word: &[u8]) -> Option<Call> {
        match word {
            b"blk" => Some(Call::Blk),
            b"unblk" => Some(Call::Unblk),
            b"ctr" => Some(Call::Ctr),
            b"ofb" => Some(Call::Ofb),
            b"cfb" => Some(Call::Cfb),
            b"uncfb" => Some(Call::Uncfb),
            b"cbc" => Some(Call::Cbc),
            b"uncbc" => Some(Call::Uncbc),
            b"cbp" => Some(Call::Cbp),
            b"uncbp" => Some(Call::Uncbp),
            b"mac" => Some(Call::Mac),
            b"chk" => Some(Call::Chk),
            _ => None,
        }
    }

    // The call that undoes this one; none undoes a tag.
    pub(crate) fn back(self) -> Option<Call> {
        match self {
            Call::Blk => Some(Call::Unblk),
            Call::Unblk => Some(Call::Blk),
            Call::Ctr => Some(Call::Ctr),
            Call::Ofb => Some(Call::Ofb),
            Call::Cfb => Some(Call::Uncfb),
            Call::Uncfb => Some(Call::Cfb),
            Call::Cbc => Some(Call::Uncbc),
            Call::Uncbc => Some(Call::Cbc),
            Call::Cbp => Some(Call::Uncbp),
            Call::Uncbp => Some(Call::Cbp),
            Call::Mac | Call::Chk => None,
        }
    }

    // The entry's number; a call without an IV or a tag leaves `side` aside.
    pub(crate) fn enter(
        self,
        suite: u64,
        key: &[u8],
        side: &[u8],
        text: &[u8],
        out: &mut [u8],
        length: &mut usize,
    ) -> u32 {
        match self {
            Call::Blk => katsunebyo::katsu_blk(suite, key, text, out, length),
            Call::Unblk => katsunebyo::katsu_unblk(suite, key, text, out, length),
            Call::Ctr => katsunebyo::katsu_ctr(suite, key, side, text, out, length),
            Call::Ofb => katsunebyo::katsu_ofb(suite, key, side, text, out, length),
            Call::Cfb => katsunebyo::katsu_cfb(suite, key, side, text, out, length),
            Call::Uncfb => katsunebyo::katsu_uncfb(suite, key, side, text, out, length),
            Call::Cbc => katsunebyo::katsu_cbc(suite, key, side, text, out, length),
            Call::Uncbc => katsunebyo::katsu_uncbc(suite, key, side, text, out, length),
            Call::Cbp => katsunebyo::katsu_cbp(suite, key, side, text, out, length),
            Call::Uncbp => katsunebyo::katsu_uncbp(suite, key, side, text, out, length),
            Call::Mac => katsunebyo::katsu_mac(suite, key, text, out, length),
            Call::Chk => katsunebyo::katsu_chk(suite, key, side, text, out, length),
        }
    }
}
