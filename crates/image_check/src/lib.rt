// Image check (document 01, section 6): 28 or good, for any bytes, and which lookup tables its calls need.
#![tactic(auto)]

ghost use Rattle.std.specs.Prelude.{◌≡◌, ◌+◌, ◌*◌, ◌≤◌, length};
ghost use Rattle.kinds.specs.Tables.{need_number};
ghost use Rattle.records.specs.Decode.{shape_of, constant_in, by_shape, decode, image_with};
ghost use Rattle.image_check.specs.Check.{counted, check_of, digit_of, several_from, needed, verdict_of};

use kinds::Need;

// Of a record that stands first: the bytes that it takes, its nodes, the tables that it needs.
#[derive(Clone, Copy, Debug, PartialEq, Eq)]
struct Checked {
    used: usize,
    nodes: usize,
    need: Need,
}

// A value of at most 1,024 bytes.
fn constant_in(p: &[u8]) -> Option<Checked>
    ensures { counted result ≡ check_of (constant_in p.now) }
{
    if 1024 < p.len() {
        return None;
    }
    Some(Checked {
        used: 4 + p.len(),
        nodes: 1,
        need: Need::Nothing,
    })
}

// One byte, below top.
fn digit_in(p: &[u8], top: u8) -> Option<Checked>
    ensures { counted result ≡ digit_of top p.now }
{
    if p.len() == 1 && p[0] < top {
        return Some(Checked {
            used: 5,
            nodes: 1,
            need: Need::Nothing,
        });
    }
    None
}

// One record at the front, of at most `levels` levels; `inner` says whether `#` may stand there.
#[cycle(by_kind_record_in_several)]
fn record_in(s: &[u8], levels: usize, inner: bool) -> Option<Checked>
    ensures { counted result ≡ check_of (decode inner levels s.now) }
{
    if levels == 0 {
        return None;
    }
    let h = heads::head_at(s, 0)?;
    let e = 4 + h.length;
    let p = &s[4..e];
    by_kind(p, levels - 1, inner, h.kind)
}

#[cycle(by_kind_record_in_several)]
fn by_kind(p: &[u8], levels: usize, inner: bool, k: usize) -> Option<Checked>
    ensures { counted result ≡ check_of (by_shape (decode inner levels) (shape_of inner k) k p.now) }
{
    match k {
        0x0001 => constant_in(p),
        0x0002 => digit_in(p, 8),
        0x0003 => digit_in(p, 4),
        0x0004 => {
            if inner {
                return digit_in(p, 4);
            }
            None
        }
        _ => {
            let n = kinds::arguments(k)?;
            let none = Checked {
                used: 0,
                nodes: 0,
                need: Need::Nothing,
            };
            let a = several(p, levels, inner, n, none)?;
            if a.used == p.len() {
                let need = kinds::tables_for(k).max(a.need);
                return Some(Checked {
                    used: 4 + p.len(),
                    nodes: a.nodes + 1,
                    need,
                });
            }
            None
        }
    }
}

// So many arguments, one after another, in a payload behind those before them.
#[cycle(by_kind_record_in_several)]
fn several(p: &[u8], levels: usize, inner: bool, left: usize, before: Checked) -> Option<Checked>
    requires { (left ≤ 3) × (before.used ≤ length p.now) × (4 * before.nodes ≤ before.used) }
    ensures { counted result
        ≡ several_from (decode inner levels) p.now left before.used before.nodes (need_number before.need) }
{
    if left == 0 {
        return Some(before);
    }
    let q = &p[before.used..];
    let a = record_in(q, levels, inner)?;
    let with = Checked {
        used: before.used + a.used,
        nodes: before.nodes + a.nodes,
        need: before.need.max(a.need),
    };
    several(p, levels, inner, left - 1, with)
}

// Which tables an image needs, none where bytes are no image; `inner` is for a text that is being prepared.
pub fn check(s: &[u8], inner: bool) -> Option<Need>
    ensures { needed result ≡ verdict_of (image_with inner s.now) }
{
    if 16384 < s.len() {
        return None;
    }
    let a = record_in(s, 16, inner)?;
    if a.used == s.len() && a.nodes <= 128 {
        return Some(a.need);
    }
    None
}
