// Letters in turn: after the last comes the first again.
ghost use Rattle.std.specs.Prelude.{◌≡◌, ◌+◌, ◌%◌, length};
ghost use Rattle.wiring.specs.Held.{letters_of};
ghost use Rattle.wiring.specs.Letters.{letter_at};

use crate::letter::Letter;
use crate::letters::Letters;

impl Letters {
    // The letter that has i others before it, going round.
    pub fn get(&self, i: usize) -> Letter
        ensures value { result ≡ letter_at (letters_of self.now) i }
    {
        self.row.as_slice()[i % self.row.len()]
    }

    // The place, among the letters, of the one that follows the i-th.
    pub(crate) fn following(&self, i: usize) -> usize
        ensures value { result ≡ (i + 1) % length (letters_of self.now) }
    {
        let n = self.row.len();
        // i itself may be the greatest number
        (i % n + 1) % n
    }
}
