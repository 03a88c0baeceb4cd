// One wire of a patterned wiring.
ghost use Rattle.std.specs.Prelude.{◌≡◌};
ghost use Rattle.cable.specs.Rows.{oldest};
ghost use Rattle.wiring.specs.Wires.{flies};
ghost use Rattle.wiring.specs.Held.{letters_of};
ghost use Rattle.wiring.specs.Line.{patterned_depth, line_of, new_line, after_send, taken_on, given_on};

use crate::letters::Letters;
use crate::pattern::{Fate, Pattern};
use crate::patterned::PATTERNED_DEPTH;
use crate::wire::Wire;
use cable::refusal::Refusal;

#[derive(Clone, Copy)]
pub(super) struct Line {
    flight: Wire<PATTERNED_DEPTH>,
    pattern: Pattern,
}

impl Line {
    // Nothing was sent yet.
    pub(super) fn new(letters: Letters) -> Line
        ensures value { line_of result ≡ given_on (letters_of letters) new_line }
    {
        Line {
            flight: Wire::new(),
            pattern: Pattern::new(letters),
        }
    }

    // Sends a frame, which the pattern loses, keeps or doubles, on a wire that is not full.
    #[tactic(auto, unfolding(crate::specs::Line::sent_on))]
    pub(super) fn send(&mut self, frame: [u8; 3], misses: u8) -> Result<(), Refusal>
        ensures value { result ≡ flies (line_of self.old).flying patterned_depth }
        ensures after { line_of self.new ≡ after_send misses frame (line_of self.old) }
    {
        let free = PATTERNED_DEPTH - self.flight.len();
        if free == 0 {
            return Err(Refusal::WireFull);
        }
        match self.pattern.next(misses, free) {
            Fate::Lost => Ok(()),
            Fate::Kept => self.flight.add(frame),
            // only with room for two, so that neither is refused
            Fate::Doubled => {
                self.flight.add(frame)?;
                self.flight.add(frame)
            }
        }
    }

    // Takes the oldest frame, if one flies.
    pub(super) fn take(&mut self) -> Option<[u8; 3]>
        ensures value { result ≡ oldest (line_of self.old).flying }
        ensures after { line_of self.new ≡ taken_on (line_of self.old) }
    {
        self.flight.leave()
    }

    pub(super) fn set_letters(&mut self, letters: Letters)
        ensures after { line_of self.new ≡ given_on (letters_of letters) (line_of self.old) }
    {
        self.pattern.set_letters(letters);
    }
}
