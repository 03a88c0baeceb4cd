// The alternating bit: as a digit, and the other one.
ghost use Rattle.std.specs.Prelude.{◌≡◌};
ghost use Rattle.cable.specs.Frames.{bit_of, flip};

use crate::frame::Bit;
use std::ops::Not;

impl From<Bit> for u8 {
    ghost from_gives = { λ bit r. r ≡ bit_of bit };

    fn from(bit: Bit) -> u8 {
        match bit {
            Bit::Zero => 0,
            Bit::One => 1,
        }
    }
}

impl Not for Bit {
    type Output = Bit;

    ghost not_gives = { λ bit r. r ≡ flip bit };

    fn not(self) -> Bit {
        match self {
            Bit::Zero => Bit::One,
            Bit::One => Bit::Zero,
        }
    }
}
