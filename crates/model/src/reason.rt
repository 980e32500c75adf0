// Why a call turns back (document 01, "Where a call turns back"; document 02): a name for each number of a refusal.

ghost use Rattle.std.specs.Prelude.{◌≡◌};
ghost use Rattle.model.specs.Reasons.{number_of};

use crate::Refusal;

#[derive(Clone, Copy, Debug, PartialEq, Eq)]
pub enum Reason {
    TableTooLong,
    CutShort,
    Misplaced,
    OperandOutOfRange,
    NamedAgain,
    Miscounted,
    Circle,
    StateLength,
    StateOutOfRange,
    Missing,
    NotAllowed,
    ResultOutOfRange,
    OutputTooShort,
    MemoryTooShort,
    LayerTooLarge,
    Idle,
    BeyondCeiling,
    WrongDay,
    NoPlacement,
}

impl Reason {
    // "A refusal is a number and a place": its number.
    pub fn number(self) -> u64
        ensures { result ≡ number_of self }
    {
        match self {
            Reason::TableTooLong => 1,
            Reason::CutShort => 2,
            Reason::Misplaced => 3,
            Reason::OperandOutOfRange => 4,
            Reason::NamedAgain => 5,
            Reason::Miscounted => 6,
            Reason::Circle => 7,
            Reason::StateLength => 8,
            Reason::StateOutOfRange => 9,
            Reason::Missing => 10,
            Reason::NotAllowed => 11,
            Reason::ResultOutOfRange => 12,
            Reason::OutputTooShort => 13,
            Reason::MemoryTooShort => 14,
            Reason::LayerTooLarge => 15,
            Reason::Idle => 16,
            Reason::BeyondCeiling => 17,
            Reason::WrongDay => 18,
            Reason::NoPlacement => 19,
        }
    }

    // The refusal for this reason at a place.
    pub fn at(self, place: usize) -> Refusal
        ensures { result ≡ record { number = number_of self; place = place } }
    {
        Refusal {
            number: self.number(),
            place: place as u64,
        }
    }
}
