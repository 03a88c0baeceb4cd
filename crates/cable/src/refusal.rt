// Why a call is refused: one case for each ground, in the order in which the grounds are checked.
ghost use Rattle.std.specs.Prelude.{◌≡◌, Some, decimal};
ghost use Rattle.cable.specs.Refusals.{number_of};

use std::fmt;

#[derive(Clone, Copy, PartialEq, Eq, Debug)]
pub enum Refusal {
    BufferTooSmall = 1,
    LineTooLong = 2,
    UnknownWord = 3,
    WrongFieldCount = 4,
    Malformed = 5,
    OutOfPlace = 6,
    OutOfRange = 7,
    NoSuchWire = 8,
    NoSuchLane = 9,
    Bare = 10,
    AlreadyPlanted = 11,
    WrongCabinetCount = 12,
    NotATree = 13,
    MessageWaiting = 14,
    NoSuchCabinet = 15,
    AlreadyWants = 16,
    NotIn = 17,
    NotANeighbour = 18,
    UnexpectedRequest = 19,
    UnexpectedPrivilege = 20,
    LaneFull = 21,
    WireFull = 22,
    WrongLength = 23,
    UnknownHead = 24,
    LaneByteTooLarge = 25,
    WrongCheck = 26,
}

impl Refusal {
    // The number that is answered and printed.
    pub fn number(self) -> u8
        ensures value { result ≡ number_of self }
    {
        self as u8
    }
}

// Shown as its number.
impl fmt::Display for Refusal {
    ghost output = { λ why. Some (decimal (number_of why)) };

    fn fmt<W: fmt::Write>(&self, f: &mut fmt::Formatter<W>) -> fmt::Result {
        let n = self.number();
        write!(f, "{n}")
    }
}
