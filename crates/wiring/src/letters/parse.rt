// Letters as text, and those of a wire that is given none.
ghost use Rattle.std.specs.Prelude.{◌≡◌, [], ◌∷◌};
ghost use Rattle.wiring.specs.Held.{letters_of, letters_in};
ghost use Rattle.wiring.specs.Letters.{parsed};
ghost use Rattle.wiring.specs.declared.letter.Letter.TheVariants.{Keep};

use crate::letter::Letter;
use crate::letters::{Letters, MOST};
use cable::row::Row;

impl Letters {
    // The pattern of a wire that keeps every frame.
    pub fn keep() -> Letters
        ensures value { letters_of result ≡ Keep ∷ [] }
    {
        let mut row = Row::new(Letter::Keep);
        let _ = row.join(Letter::Keep);
        Letters { row }
    }

    // The letters that this text is, if each byte is a letter and there are one to sixteen.
    pub fn parse(text: &[u8]) -> Option<Letters>
        ensures value { letters_in result ≡ parsed text.now }
    {
        // before any byte is read, so that a text that is too long costs nothing more
        if text.is_empty() || text.len() > MOST {
            return None;
        }
        let mut row = Row::new(Letter::Keep);
        for b in text {
            row.join(Letter::read(*b)?).ok()?;
        }
        Some(Letters { row })
    }
}
