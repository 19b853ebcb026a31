// What a call tells its caller (document 01, section 7): the length of its value, or why it refuses.
#![tactic(auto)]

ghost use Rattle.std.specs.Prelude.{◌≡◌, ℕ};
ghost use Rattle.answers.specs.Told.{table, fault_number, number_by, count_of};

// Why a call refuses: the table of section 7, by its names.
#[derive(Clone, Copy, Debug, PartialEq, Eq)]
pub enum Refusal {
    Suite,
    Key,
    Iv,
    Empty,
    Partial,
    Long,
    Tag,
    Fill,
    Room,
    Unequal,
    Choice,
    Short,
    Wrap,
    Work,
    Syntax,
    Text,
    Deep,
    Many,
    Absent,
    Image,
    List,
    Form,
}

// A refusal, and the place of the text where it stands; 0 for those that have none.
#[derive(Clone, Copy, Debug, PartialEq, Eq)]
pub struct Fault {
    pub refusal: Refusal,
    pub place: usize,
}

// A refusal that has no place.
impl From<Refusal> for Fault {
    ghost from_gives = { λ r f. f ≡ record { refusal = r; place = 0 } };

    fn from(refusal: Refusal) -> Fault {
        Fault { refusal, place: 0 }
    }
}

// What has a number in the table.
pub trait Numbered {
    ghost numbered: { Self → ℕ };

    fn number(self) -> u32
        ensures { result ≡ numbered self };
}

impl Numbered for Refusal {
    ghost numbered = { table };

    #[tactic(auto, unfolding(crate::specs::Told::table))]
    fn number(self) -> u32 {
        match self {
            Refusal::Suite => 1,
            Refusal::Key => 2,
            Refusal::Iv => 3,
            Refusal::Empty => 4,
            Refusal::Partial => 5,
            Refusal::Long => 6,
            Refusal::Tag => 7,
            Refusal::Fill => 8,
            Refusal::Room => 9,
            Refusal::Unequal => 10,
            Refusal::Choice => 11,
            Refusal::Short => 12,
            Refusal::Wrap => 13,
            Refusal::Work => 14,
            Refusal::Syntax => 20,
            Refusal::Text => 21,
            Refusal::Deep => 22,
            Refusal::Many => 23,
            Refusal::Absent => 25,
            Refusal::Image => 26,
            Refusal::List => 27,
            Refusal::Form => 28,
        }
    }
}

impl Numbered for Fault {
    ghost numbered = { fault_number };

    #[tactic(auto, unfolding(crate::specs::Told::fault_number))]
    fn number(self) -> u32 {
        self.refusal.number()
    }
}

// A number is its own.
impl Numbered for u32 {
    ghost numbered = { λ n. n };

    fn number(self) -> u32 {
        self
    }
}

// The number is given back, the length through its place: 0 with a refusal.
#[tactic(auto, unfolding(crate::specs::Told::number_by, crate::specs::Told::count_of))]
pub fn give<E: Numbered + Copy>(t: Result<usize, E>, length: &mut usize) -> u32
    ensures { (result ≡ number_by E.numbered t) × (length.new ≡ count_of t) }
{
    match t {
        Ok(n) => {
            *length = n;
            0
        }
        Err(e) => {
            *length = 0;
            e.number()
        }
    }
}
