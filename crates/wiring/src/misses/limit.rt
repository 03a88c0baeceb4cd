// How many misses a wiring may have.
ghost use Rattle.std.specs.Prelude.{◌≡◌, ◌<◌, MatchResult};

use crate::misses::Misses;
use cable::refusal::Refusal;

const MOST_MISSES: u32 = 15;

impl Misses {
    // No frame is lost.
    pub fn none() -> Misses
        ensures value { result.most ≡ 0 }
    {
        Misses { most: 0 }
    }

    // So many frames in a row, if a wiring may lose so many.
    pub fn new(most: u32) -> Result<Misses, Refusal>
        ensures cases { MatchResult result (λ misses. misses.most ≡ most) (λ why. (15 < most) × (why ≡ Refusal.OutOfRange)) }
    {
        if most > MOST_MISSES {
            return Err(Refusal::OutOfRange);
        }
        Ok(Misses { most: most as u8 })
    }
}
