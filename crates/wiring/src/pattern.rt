// One wire's pattern at work.
ghost use Rattle.std.specs.Prelude.{◌≡◌};
ghost use Rattle.wiring.specs.Held.{letters_of};
ghost use Rattle.wiring.specs.Laws.{LossesStayFew, SpareFallsOnlyByALoss, DoublesOnlyWithRoom};
ghost use Rattle.wiring.specs.Patterns.{pattern_of, given_letters, fate_of, gone_on};

use crate::letter::Letter;
use crate::letters::Letters;

// What became of a frame that was sent: lost, kept once, or kept twice.
#[derive(Clone, Copy)]
pub enum Fate {
    Lost,
    Kept,
    Doubled,
}

#[derive(Clone, Copy)]
pub struct Pattern {
    letters: Letters,
    turn: usize,
    losses: u8,
}

impl Pattern {
    // A wire on which nothing was sent yet.
    pub fn new(letters: Letters) -> Pattern
        ensures value { pattern_of result ≡ record { letters = letters_of letters; turn = 0; losses = 0 } }
    {
        Pattern {
            letters,
            turn: 0,
            losses: 0,
        }
    }

    // Other letters from now on, beginning with the first; the losses in a row are the wire's and stay.
    pub fn set_letters(&mut self, letters: Letters)
        ensures after { pattern_of self.new ≡ given_letters (letters_of letters) (pattern_of self.old) }
    {
        self.letters = letters;
        self.turn = 0;
    }

    // What becomes of the next frame, on a wire that loses at most `misses` frames in a row and on which `free` more fit. With
    // none free it is as with one.
    pub fn next(&mut self, misses: u8, free: usize) -> Fate
        ensures value { result ≡ fate_of (pattern_of self.old) misses free }
        ensures after { pattern_of self.new ≡ gone_on result (pattern_of self.old) }
        ensures few { LossesStayFew misses (pattern_of self.old) (pattern_of self.new) }
        ensures spare { SpareFallsOnlyByALoss misses (pattern_of self.old) result (pattern_of self.new) }
        ensures room { DoublesOnlyWithRoom free result }
    {
        let letter = self.letters.get(self.turn);
        self.turn = self.letters.following(self.turn);
        let fate = match letter {
            Letter::Lose if self.losses < misses => Fate::Lost,
            Letter::Double if free > 1 => Fate::Doubled,
            _ => Fate::Kept,
        };
        self.losses = match fate {
            Fate::Lost => self.losses + 1,
            _ => 0,
        };
        fate
    }
}
