// What is said of a site before its cabinets are planted.
ghost use Rattle.std.specs.Prelude.{◌≡◌};
ghost use Rattle.script.specs.Grounds.{refusal, unless_refused};
ghost use Rattle.script.specs.Obeying.{noted_if};
ghost use Rattle.script.specs.Orders.{misses, pattern, cabinet};
ghost use Rattle.script.specs.Stages.{draft_of, drafting};
ghost use Rattle.wiring.specs.Held.{letters_of};

use crate::draft::{Choice, Draft};
use cable::number::{CabinetNo, WireNo};
use cable::refusal::Refusal;
use tree::tree::CABINETS;
use tree::tree::plant::is_lower;
use wiring::letters::Letters;
use wiring::misses::Misses;

impl Draft {
    // How many frames in a row each wire may lose.
    pub(super) fn set_misses(&mut self, most: u32) -> Result<(), Refusal>
        ensures value { result ≡ unless_refused (refusal (drafting (draft_of self.old)) (misses most)) }
        ensures after { draft_of self.new ≡ noted_if result (draft_of self.old) (misses most) }
    {
        match &mut self.post {
            Choice::Retry(setting) => {
                setting.misses = Misses::new(most)?;
                Ok(())
            }
            Choice::Straight | Choice::Clean => Err(Refusal::OutOfPlace),
        }
    }

    // The letters of a wire.
    #[tactic(auto, using(cable::proofs::Tables::one_written))]
    pub(super) fn set_pattern(&mut self, wire: WireNo, letters: Letters) -> Result<(), Refusal>
        ensures value { result ≡ unless_refused (refusal (drafting (draft_of self.old)) (pattern wire.0 (letters_of letters))) }
        ensures after { draft_of self.new ≡ noted_if result (draft_of self.old) (pattern wire.0 (letters_of letters)) }
    {
        match &mut self.post {
            Choice::Retry(setting) => {
                setting.patterns[wire.index()?] = letters;
                Ok(())
            }
            Choice::Straight | Choice::Clean => Err(Refusal::OutOfPlace),
        }
    }

    // The next cabinet, and its parent.
    pub(super) fn add(&mut self, k: CabinetNo, parent: CabinetNo) -> Result<(), Refusal>
        ensures value { result ≡ unless_refused (refusal (drafting (draft_of self.old)) (cabinet k.0 parent.0)) }
        ensures after { draft_of self.new ≡ noted_if result (draft_of self.old) (cabinet k.0 parent.0) }
    {
        // a seventeenth cabinet is one too many, rather than one that there is not
        let k = k.index(CABINETS).map_err(|_| Refusal::WrongCabinetCount)?;
        if k != self.parents.len() || !is_lower(k, parent) {
            return Err(Refusal::NotATree);
        }
        // there is room: k is below 16
        let _ = self.parents.join(parent);
        Ok(())
    }
}
