// Leaves (document 01, section 6): the bytes of a constant or of a named value are handed up as a stretch of the image or of the list, uncopied.
#![tactic(auto)]

ghost use Rattle.std.specs.Prelude.{◌≡◌, take, drop};
ghost use Rattle.listing.specs.Find.{find_in};
ghost use Rattle.leaf.specs.Place.{place_in, place_of, placed, bytes_of};

use listing::Stretch;

// Where a leaf's value stands.
#[derive(Clone, Copy, Debug, PartialEq, Eq)]
pub enum Place {
    Image(Stretch),
    List(Stretch),
}

fn named(list: &[u8], kind: usize) -> Option<Place>
    ensures { result ≡ place_in (find_in list.now kind) }
{
    Some(Place::List(listing::find(list, kind)?))
}

// Where the value of the leaf that stands at a place of the image is.
pub fn place_of(image: &[u8], at: usize, list: &[u8]) -> Option<Place>
    ensures { result ≡ place_of image.now at list.now }
{
    let head = heads::head_at(image, at)?;
    if head.kind == 0x0001 {
        return Some(Place::Image(Stretch {
            start: at + 4,
            length: head.length,
        }));
    }
    if head.length == 1 {
        let d = image[at + 4] as usize;
        return match head.kind {
            0x0002 => named(list, 0x0300 + d),
            0x0003 => named(list, 0x0400 + d),
            0x0004 => named(list, 0x0200 + d),
            _ => None,
        };
    }
    None
}

// A stretch of a slice, as much of it as is there.
fn part<'a>(s: &'a [u8], p: Stretch) -> &'a [u8]
    ensures { result.now ≡ take p.length (drop p.start s.now) }
{
    let start = p.start.min(s.len());
    let end = start + p.length.min(s.len() - start);
    &s[start..end]
}

// The part of whichever holds the value.
pub fn leaf<'a>(image: &'a [u8], list: &'a [u8], place: Option<Place>) -> &'a [u8]
    ensures { result.now ≡ bytes_of (placed image.now list.now place) }
{
    match place {
        Some(Place::Image(p)) => part(image, p),
        Some(Place::List(p)) => part(list, p),
        None => &image[..0],
    }
}
