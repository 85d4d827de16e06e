// Why a sheet is refused, and where.
ghost use Rattle.std.specs.Prelude.{◌≡◌};
ghost use Rattle.records.specs.Refusals.{fault, number_of, raised};

use faults::{Fault, Layer};

#[derive(Clone, Copy, PartialEq, Eq, Debug)]
pub enum SheetRefusal {
    UnknownKind,
    CutShort,
    ShapeMisplaced,
    OutOfRange,
    Repeated,
    TooManyPairs,
    NotAnOrder,
    BytesAfterEnd,
    Incomplete,
}

impl SheetRefusal {
    // A method of this name, since `u8::from` would not say that the number is the published one.
    pub fn number(self) -> u8
        ensures { result ≡ number_of self }
    {
        match self {
            SheetRefusal::UnknownKind => 1,
            SheetRefusal::CutShort => 2,
            SheetRefusal::ShapeMisplaced => 3,
            SheetRefusal::OutOfRange => 4,
            SheetRefusal::Repeated => 5,
            SheetRefusal::TooManyPairs => 6,
            SheetRefusal::NotAnOrder => 7,
            SheetRefusal::BytesAfterEnd => 8,
            SheetRefusal::Incomplete => 9,
        }
    }

    // The fault of this refusal at a place.
    pub fn at(self, place: usize) -> SheetFault
        ensures { result ≡ fault self place }
    {
        SheetFault {
            refusal: self,
            place,
        }
    }
}

// A refusal with the offset in the sheet that it speaks of.
#[derive(Clone, Copy, PartialEq, Eq, Debug)]
pub struct SheetFault {
    pub refusal: SheetRefusal,
    pub place: usize,
}

// On the way up the fault keeps its number and its place, and has the layer of reading.
impl From<SheetFault> for Fault {
    ghost from_gives = { λ below up. up ≡ raised below };

    fn from(below: SheetFault) -> Fault {
        Fault {
            layer: Layer::Reading,
            number: below.refusal.number(),
            place: below.place,
        }
    }
}
