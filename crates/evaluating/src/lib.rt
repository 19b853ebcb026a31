// Evaluating (document 01, sections 5 and 6): descends into payloads; a value stands in a slot of the work room, arguments in the slots above it.
#![tactic(auto)]

ghost use Rattle.std.specs.Prelude.{◌≡◌, ◌+◌, ◌≤◌, ◌<◌, length, take, drop};
ghost use Rattle.common.specs.Answer.{deliver};
ghost use Rattle.tree.specs.Bounds.{arguments_of, when_kind};
ghost use Rattle.meaning.specs.Mean.{named, side_of};
ghost use Rattle.records.specs.Record.{word};
ghost use Rattle.leaf.specs.Place.{place_of, placed};
ghost use Rattle.answers.specs.Told.{told_of};
ghost use Rattle.evaluating.specs.Stretch.{Ready, Means, side_by};

use answers::Refusal;
use lent::Tables;

// What a recipe is evaluated with: its image, or its records while it is prepared; the list of values; the tables that its calls are lent.
#[derive(Clone, Copy)]
pub struct Evaluator<'a> {
    pub image: &'a [u8],
    pub list: &'a [u8],
    pub tables: &'a Tables<'a>,
}

// The value of the leaf that stands at a place of the image, handed out from the stretch that holds it; 25 where a name has none.
pub fn give_leaf(image: &[u8], list: &[u8], at: usize, out: &mut [u8]) -> Result<usize, Refusal>
    ensures { told_of result out.new ≡ deliver (named (placed image.now list.now (place_of image.now at list.now))) out.old }
{
    let Some(place) = leaf::place_of(image, at, list) else {
        return Err(Refusal::Absent);
    };
    handing::hand(leaf::leaf(image, list, Some(place)), out)
}

// The place after the record that stands at a place.
fn after(image: &[u8], at: usize) -> usize
    requires { at + 4 ≤ length image.now }
    ensures { result ≡ at + 4 + word image.now at }
{
    at + 4 + heads::word_at(image, at)
}

// The side that the n bytes at o choose, the first or not: 01 or 00 alone.
pub fn side(work: &[u8], o: usize, n: usize) -> Option<bool>
    requires { o + n ≤ length work.now }
    ensures { side_by result ≡ side_of (take n (drop o work.now)) }
{
    if n != 1 {
        return None;
    }
    match work[o] {
        0x01 => Some(true),
        0x00 => Some(false),
        _ => None,
    }
}

fn put_leaf(
    image: &[u8],
    list: &[u8],
    start: usize,
    end: usize,
    work: &mut [u8],
    o: usize,
) -> Result<usize, Refusal>
    requires { (word image.now (start + 2) < 0x0010) × (o + 1024 ≤ length work.old) }
    ensures { Means image.now list.now start end o result work.old work.new }
{
    let e = o + 1024;
    give_leaf(image, list, start, &mut work[o..e])
}

impl<'a> Evaluator<'a> {
    // The record from start to end of the image is evaluated with the list; its value is left at o.
    #[cycle(choose_eval_three_two)]
    pub fn eval(
        &self,
        start: usize,
        end: usize,
        work: &mut [u8],
        o: usize,
    ) -> Result<usize, Refusal>
        requires { Ready self.now.image.now self.now.list.now self.now.tables.now start end o (length work.old) }
        ensures { Means self.now.image.now self.now.list.now start end o result work.old work.new }
    {
        let k = heads::word_at(self.image, start + 2);
        if k < 0x0010 {
            return put_leaf(self.image, self.list, start, end, work, o);
        }
        if k == 0x0014 {
            return self.choose(start, end, work, o);
        }
        if kinds::arguments(k) == Some(2) {
            return self.two(k, start, end, work, o);
        }
        self.three(k, start, end, work, o)
    }

    // Only the chosen side is evaluated.
    #[cycle(choose_eval_three_two)]
    fn choose(&self, start: usize, end: usize, work: &mut [u8], o: usize) -> Result<usize, Refusal>
        requires { Ready self.now.image.now self.now.list.now self.now.tables.now start end o (length work.old) × (word self.now.image.now (start + 2) ≡ when_kind) }
        ensures { Means self.now.image.now self.now.list.now start end o result work.old work.new }
    {
        let first = start + 4;
        let second = after(self.image, first);
        let third = after(self.image, second);
        let n = self.eval(first, second, work, o)?;
        match side(work, o, n) {
            Some(true) => self.eval(second, third, work, o),
            Some(false) => self.eval(third, end, work, o),
            None => Err(Refusal::Choice),
        }
    }

    // Arguments left to right, the first refusal is the answer; then the call.
    #[cycle(choose_eval_three_two)]
    fn two(
        &self,
        k: usize,
        start: usize,
        end: usize,
        work: &mut [u8],
        o: usize,
    ) -> Result<usize, Refusal>
        requires { Ready self.now.image.now self.now.list.now self.now.tables.now start end o (length work.old) × (word self.now.image.now (start + 2) ≡ k) × (arguments_of k ≡ 2) }
        ensures { Means self.now.image.now self.now.list.now start end o result work.old work.new }
    {
        let first = start + 4;
        let second = after(self.image, first);
        let la = self.eval(first, second, work, o)?;
        let lb = self.eval(second, end, work, o + 1024)?;
        applying::apply_two(self.tables, k, work, o, la, lb)
    }

    #[cycle(choose_eval_three_two)]
    fn three(
        &self,
        k: usize,
        start: usize,
        end: usize,
        work: &mut [u8],
        o: usize,
    ) -> Result<usize, Refusal>
        requires { Ready self.now.image.now self.now.list.now self.now.tables.now start end o (length work.old) × (word self.now.image.now (start + 2) ≡ k) × (0x0010 ≤ k) × (k ≡ when_kind → ⊥) × (arguments_of k ≡ 2 → ⊥) }
        ensures { Means self.now.image.now self.now.list.now start end o result work.old work.new }
    {
        let first = start + 4;
        let second = after(self.image, first);
        let third = after(self.image, second);
        let la = self.eval(first, second, work, o)?;
        let lb = self.eval(second, third, work, o + 1024)?;
        let lc = self.eval(third, end, work, o + 2048)?;
        applying::apply_three(self.tables, k, work, o, la, lb, lc)
    }
}
