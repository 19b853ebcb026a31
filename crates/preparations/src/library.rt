// What the library answers, in the numbers of the table.
use answers::Numbered;

#[derive(Clone, Copy, PartialEq, Eq)]
pub(crate) struct Fault {
    pub(crate) number: usize,
    pub(crate) place: usize,
}

impl From<answers::Fault> for Fault {
    fn from(fault: answers::Fault) -> Fault {
        Fault {
            number: fault.number() as usize,
            place: fault.place,
        }
    }
}

// The length of the image, or why there is none.
pub(crate) fn prepare(
    text: &[u8],
    list: &[u8],
    out: &mut [u8],
    work: &mut [u8],
) -> Result<usize, Fault> {
    preparing::prepare(text, list, out, work).map_err(Fault::from)
}

// The length of the value, or the number of the refusal.
pub(crate) fn run(
    image: &[u8],
    list: &[u8],
    out: &mut [u8],
    work: &mut [u8],
) -> Result<usize, usize> {
    runner::run(image, list, out, work).map_err(|refusal| refusal.number() as usize)
}
