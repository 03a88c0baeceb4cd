// What follows once an event has acted: the privilege is assigned, and the holder is asked.
ghost use Rattle.std.specs.Prelude.{◌≡◌};
ghost use Rattle.cabinet.specs.Models.{served, assigned, asks, asking};
ghost use Rattle.cabinet.specs.Reactions.{reaction_to};
ghost use Rattle.cabinet.specs.States.{model};

use crate::event::Reaction;
use crate::party::Party;
use crate::state::State;

impl State {
    // The holder is asked last: it may be another once the privilege was passed on.
    pub(crate) fn settle(&mut self) -> Reaction
        ensures value { result ≡ reaction_to (served (model self.old)) (asks (assigned (model self.old))) }
        ensures after { model self.new ≡ asking (assigned (model self.old)) }
    {
        let (served, request) = (self.assign(), self.ask());
        Reaction {
            entered: served == Some(Party::Own),
            privilege: served.and_then(Party::neighbour),
            request,
        }
    }
}
