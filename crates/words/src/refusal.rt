// Why a call was refused.
ghost use Rattle.std.specs.Prelude.{◌≡◌};
ghost use Rattle.words.specs.Refusals.{refusal_number};

// The refusals, in the order of their numbers.
#[derive(Clone, Copy, PartialEq, Eq)]
pub enum Refusal {
    NoRoom,
    Broken,
    NoSuch,
    BadRange,
    BadInterval,
    NotSorted,
    BadCursor,
    BadList,
    ShortOutput,
    BadBit,
    Stale,
    BadImage,
    Overlap,
    NotDisjoint,
    BadPlan,
}

impl Refusal {
    // Returns the refusal's number, from 1 to 15. The number 0 means: not refused.
    pub fn number(self) -> u64
        ensures { result ≡ refusal_number self }
    {
        match self {
            Refusal::NoRoom => 1,
            Refusal::Broken => 2,
            Refusal::NoSuch => 3,
            Refusal::BadRange => 4,
            Refusal::BadInterval => 5,
            Refusal::NotSorted => 6,
            Refusal::BadCursor => 7,
            Refusal::BadList => 8,
            Refusal::ShortOutput => 9,
            Refusal::BadBit => 10,
            Refusal::Stale => 11,
            Refusal::BadImage => 12,
            Refusal::Overlap => 13,
            Refusal::NotDisjoint => 14,
            Refusal::BadPlan => 15,
        }
    }
}
