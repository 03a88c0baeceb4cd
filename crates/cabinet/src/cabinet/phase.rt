// Which phase a cabinet is in, as others may ask.
ghost use Rattle.std.specs.Prelude.{◌≡◌};
ghost use Rattle.cabinet.specs.Cabinets.{model_of};
ghost use Rattle.cabinet.specs.Parties.{own};
ghost use Rattle.cabinet.specs.Phases.{phase_of, phase_after};

use crate::cabinet::Cabinet;
use crate::event::Event;
use crate::party::Party;

#[derive(Clone, Copy, PartialEq, Eq, Debug)]
pub enum Phase {
    // neither of the others
    Rest,
    // own is queued
    Waits,
    // it may use the terminal
    In,
}

impl Phase {
    // The phase after an event that is done. Own joins the queue at a want alone, and leaves it by going in, so that no queue is
    // searched for this.
    pub(crate) fn after(self, event: Event, entered: bool) -> Phase
        ensures value { result ≡ phase_after self event entered }
    {
        match event {
            _ if entered => Phase::In,
            Event::Want => Phase::Waits,
            Event::Leave => Phase::Rest,
            Event::Request(_) | Event::Privilege(_) => self,
        }
    }
}

impl Cabinet {
    pub fn phase(&self) -> Phase
        ensures value { result ≡ phase_of (model_of self.now) }
    {
        self.phase
    }

    // Whether the privilege is here.
    pub fn has_privilege(&self) -> bool
        ensures value { result ≡ own (model_of self.now).holder }
    {
        self.state.holder == Party::Own
    }
}
