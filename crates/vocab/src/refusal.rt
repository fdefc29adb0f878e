// Why a call is refused: one case for each number from 1 to 25.
ghost use Rattle.std.specs.Prelude.{◌≡◌};
ghost use Rattle.vocab.specs.Refusals.{number_of};

use std::error::Error;
use std::fmt;

#[derive(Clone, Copy, PartialEq, Eq, Debug)]
pub enum Refusal {
    BadName = 1,
    NumberInUse = 2,
    NoSuchDirectory = 3,
    NameTaken = 4,
    StoreFull = 5,
    NoSuchObject = 6,
    ContentsTooLong = 7,
    HasChildren = 8,
    BeneathItself = 9,
    NextOutOfRange = 10,
    PlaceDiffers = 11,
    StampDiffers = 12,
    NumbersSpent = 13,
    LogDamaged = 14,
    LogFull = 15,
    SerialsSpent = 16,
    NotKept = 17,
    BufferShort = 18,
    NotWalked = 19,
    CopyTooSmall = 20,
    ListShort = 21,
    RanksFull = 22,
    RankTooHigh = 23,
    BadLoader = 24,
    BadImage = 25,
}

// The number that is printed.
impl From<Refusal> for u8 {
    ghost from_gives = { λ refusal number. number ≡ number_of refusal };

    fn from(refusal: Refusal) -> u8 {
        refusal as u8
    }
}

impl fmt::Display for Refusal {
    ghost use Rattle.std.specs.Prelude.{Some};
    ghost use Rattle.std.specs.Fmt.{decimal};
    ghost use Rattle.vocab.specs.Refusals.{number_of};

    ghost output = { λ refusal. Some (decimal (number_of refusal)) };

    fn fmt<W: fmt::Write>(&self, f: &mut fmt::Formatter<W>) -> fmt::Result {
        write!(f, "{}", u8::from(*self))
    }
}

impl Error for Refusal {}
