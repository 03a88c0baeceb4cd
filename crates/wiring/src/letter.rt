// The letters of a pattern.
ghost use Rattle.std.specs.Prelude.{◌≡◌};
ghost use Rattle.wiring.specs.Letters.{letter_of};

// What a pattern asks for of a frame. What becomes of the frame is its `Fate`: `Double` and `Lose` may count as `Keep`.
#[derive(Clone, Copy)]
pub enum Letter {
    Keep,
    Double,
    Lose,
}

impl Letter {
    // The letter that this byte is, if it is one. No `TryFrom`, which would be no plainer: it wants an error type for what is just no
    // letter.
    pub fn read(b: u8) -> Option<Letter>
        ensures value { result ≡ letter_of b }
    {
        match char::from(b) {
            'k' => Some(Letter::Keep),
            'd' => Some(Letter::Double),
            'l' => Some(Letter::Lose),
            _ => None,
        }
    }
}
