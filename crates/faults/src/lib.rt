// What is turned away, and where: the faults of 01's table "Numbers returned" and of the requests, and the refusal of a call or of a part of one.
#![tactic(auto)]

ghost use Rattle.std.specs.Prelude.{◌≡◌};
ghost use Rattle.faults.specs.Faults.{number};

// What is at fault. `number` has the number that 01 or a request gives it.
#[derive(Clone, Copy, Debug, PartialEq, Eq)]
pub enum Fault {
    FaultyRoster,
    LongText,
    StrayByte,
    LongWord,
    UnknownName,
    RepeatedName,
    SingleChild,
    TooDeep,
    MissingSpecies,
    TextEnds,
    GeneCount,
    ShortSlice,
    NoCluster,
    NoTree,
    BadRecord,
    BadSpeciesRecord,
    TooLarge,
    TooFine,
    Unresolved,
    FaultyMapping,
    WrongCount,
}

// A fault, and its place: the byte or the index at fault, or 0.
#[derive(Clone, Copy, Debug, PartialEq, Eq)]
pub struct Refusal {
    pub fault: Fault,
    pub place: usize,
}

impl Fault {
    // The number that is returned.
    pub fn number(self) -> u32
        ensures { result ≡ number self }
    {
        match self {
            Fault::FaultyRoster => 1,
            Fault::LongText => 2,
            Fault::StrayByte => 3,
            Fault::LongWord => 4,
            Fault::UnknownName => 5,
            Fault::RepeatedName => 6,
            Fault::SingleChild => 7,
            Fault::TooDeep => 8,
            Fault::MissingSpecies => 9,
            Fault::TextEnds => 10,
            Fault::GeneCount => 11,
            Fault::ShortSlice => 12,
            Fault::NoCluster => 13,
            Fault::NoTree => 14,
            Fault::BadRecord => 15,
            Fault::BadSpeciesRecord => 16,
            Fault::TooLarge => 17,
            Fault::TooFine => 18,
            Fault::Unresolved => 19,
            Fault::FaultyMapping => 20,
            Fault::WrongCount => 23,
        }
    }

    // The refusal of this fault at a place.
    pub fn at(self, place: usize) -> Refusal
        ensures { result ≡ record { fault = self; place = place } }
    {
        Refusal { fault: self, place }
    }
}
