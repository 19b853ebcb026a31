// What a call's kind tells (document 01, sections 5 and 6).
#![tactic(auto)]

ghost use Rattle.std.specs.Prelude.{◌≡◌, true};
ghost use Rattle.tree.specs.Bounds.{of_row, arguments_of};
ghost use Rattle.kinds.specs.Tables.{some_if, need_number, tables_for};

// Which lookup tables a call needs: none, the sealing one, or the opening one too.
#[derive(Clone, Copy, Debug, PartialEq, Eq, PartialOrd, Ord)]
pub enum Need {
    Nothing,
    Sealing,
    Opening,
}

// How many arguments a kind takes; none where it is no call's.
#[tactic(auto, using(crate::proofs::Quick::ways))]
pub fn arguments(k: usize) -> Option<usize>
    ensures { result ≡ some_if (arguments_of k) }
{
    match k {
        0x0010..=0x0013 => Some(2),
        0x0014 => Some(3),
        0x0100..=0x01B5 => {
            let suite = k % 16;
            if suite == 0 || 5 < suite {
                return None;
            }
            if k <= 0x0115 || k / 16 == 0x001A {
                return Some(2);
            }
            Some(3)
        }
        _ => None,
    }
}

#[tactic(auto, using(crate::proofs::Needs::suiting))]
fn suited(kind: usize, k: usize) -> bool
    ensures { result ≡ of_row true kind k }
{
    kind < k && k - kind <= 5
}

#[tactic(auto, using(crate::proofs::Needs::needs))]
pub fn tables_for(k: usize) -> Need
    ensures { need_number result ≡ tables_for k }
{
    if suited(0x0110, k) || suited(0x0170, k) || suited(0x0190, k) {
        return Need::Opening;
    }
    if 0x0100 < k {
        return Need::Sealing;
    }
    Need::Nothing
}
