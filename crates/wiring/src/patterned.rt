// The wiring that loses, keeps or doubles frames by patterns, one for each wire.
mod line;

ghost use Rattle.std.specs.Prelude.{◌≡◌, ℕ, ◌<◌, ◌≤◌, map, length};
ghost use Rattle.std.proofs.Common.{arith, rules};
ghost use Rattle.wiring.specs.Held.{letters_of};
ghost use Rattle.wiring.specs.Patterns.{spare_of};
ghost use Rattle.wiring.specs.Deciding.{decided};
ghost use Rattle.wiring.specs.Line.{patterned_depth, line_of, new_line, sent_on};
ghost use Rattle.wiring.specs.Meaning.{send_meant_so};
ghost use Rattle.wiring.specs.Patterned.{misses_of, lines_of, patterned_means, Begins, BegunWith, begun_at, PatternSet, PatternedSends, PatternedTakes};
ghost use Rattle.cable.proofs.Tables.{of_every};

use crate::letters::Letters;
use crate::misses::Misses;
use crate::patterned::line::Line;
use crate::wiring::Wiring;
use cable::number::{WIRES, WireNo};
use cable::refusal::Refusal;
use std::array;

// As many frames as may fly on one wire. With `<Patterned as Wiring>::DEPTH` in `Line` in its place the checker says: "this array
// length depends on itself".
const PATTERNED_DEPTH: usize = 8;

#[derive(Clone, Copy)]
pub struct Patterned {
    misses: Misses,
    lines: [Line; WIRES],
}

impl Patterned {
    // Nothing flies, and each wire has the letter k alone.
    pub fn new(misses: u8) -> Result<Patterned, Refusal>
        ensures value { Begins misses result }
    {
        let misses = Misses::new(u32::from(misses))?;
        Ok(Patterned::with(misses, &[Letters::keep(); WIRES]))
    }

    // Nothing flies, and each wire has its letters.
    pub fn with(misses: Misses, patterns: &[Letters; WIRES]) -> Patterned
        ensures value { BegunWith misses.most (map letters_of patterns.now) result }
    {
        Patterned {
            misses,
            lines: array::from_fn(
                |k|
                    requires { k < 60 }
                    ensures { line_of result ≡ begun_at (map letters_of patterns.entry.now) k }
                { Line::new(patterns[k]) },
            ),
        }
    }

    // Gives a wire other letters, of which the first is next. What flies stays, and so do the losses in a row.
    #[tactic(auto, using(cable::proofs::Tables::one_written))]
    pub fn set_pattern(&mut self, wire: WireNo, letters: Letters) -> Result<(), Refusal>
        ensures cases { PatternSet self.old wire.0 (letters_of letters) result self.new }
    {
        self.lines[wire.index()?].set_letters(letters);
        Ok(())
    }
}

impl Wiring for Patterned {
    const DEPTH: usize = PATTERNED_DEPTH;

    ghost DEPTH = { patterned_depth };

    ghost means = { patterned_means };

    ghost sends = { PatternedSends };

    ghost takes = { PatternedTakes };

    ghost sound = { λ w.
        record {
          few = omega arith;
          some_depth = omega arith;
          small_depth = omega arith;
          spares = λ k. omega arith;
          flights = of_every line_of new_line (λ l. length l.flying ≤ patterned_depth) (omega arith) (λ l. l.flight.few) w.lines;
        } };

    ghost bounded = { Prim.search rules };

    ghost send_meant = { λ w v wire f r s.
        let m = misses_of w in
        let sent = send_meant_so patterned_depth m (λ l. l.flying) (λ l. spare_of m l.pattern) f (sent_on m f) (lines_of w) (lines_of v) wire r
        (decided m f wire (lines_of w) (lines_of v)) s.lines in
        rw s.misses sent };

    ghost take_meant = { Prim.search rules };

    fn misses(&self) -> u8 {
        self.misses.most
    }

    #[tactic(auto, using(cable::proofs::Tables::one_written))]
    fn send(&mut self, wire: WireNo, frame: [u8; 3]) -> Result<(), Refusal> {
        self.lines[wire.index()?].send(frame, self.misses.most)
    }

    #[tactic(auto, using(cable::proofs::Tables::one_written))]
    fn take(&mut self, wire: WireNo) -> Result<Option<[u8; 3]>, Refusal> {
        Ok(self.lines[wire.index()?].take())
    }
}
