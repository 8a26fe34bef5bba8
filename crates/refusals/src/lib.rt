// Why a call refuses, and where: the refusals of documents 01 and 02, one variant each. Their numbers, and what a result says in these
// numbers, are defined in specs/Refusals.
#![tactic(auto)]

ghost use Rattle.std.specs.Prelude.{◌≡◌};
ghost use Rattle.refusals.specs.Refusals.{number_of};

// In the order of their numbers. One that has no place of its own has place 0.
#[derive(Clone, Copy, PartialEq, Eq, Debug)]
pub enum Refusal {
    NoRoom = 1,
    NoText = 2,
    TooLong = 3,
    Unfit = 4,
    LabelCount = 5,
    EmptyLabel = 6,
    HyphenEdge = 7,
    LabelTooShort = 8,
    LabelTooLong = 9,
    BareDot = 10,
    NotJp = 11,
    NotPrefecture = 12,
    NotEncodable = 13,
    Over63 = 14,
    NotEncoded = 15,
    BadLine = 16,
    Pretending = 17,
    Over253 = 19,
    NoEdition = 25,
}

// The number of a refusal.
impl From<Refusal> for u8 {
    fn from(refusal: Refusal) -> u8
        ensures { result ≡ number_of refusal }
    {
        refusal as u8
    }
}

// What a call answers that refuses.
#[derive(Clone, Copy, PartialEq, Eq, Debug)]
pub struct Refused {
    pub why: Refusal,
    pub place: usize,
}

impl Refusal {
    // The refusal, at a place.
    pub fn at(self, place: usize) -> Refused
        ensures { result ≡ record { why = self; place = place } }
    {
        Refused { why: self, place }
    }
}
