// What an event does to a cabinet.
ghost use Rattle.std.specs.Prelude.{◌≡◌, IfOk};
ghost use Rattle.cabinet.specs.Cabinets.{model_of, near_of};
ghost use Rattle.cabinet.specs.Laws.{PrivilegeGoesFirst, GoesInOnlyIfWanted, EarlierJoinedEarlierServed};
ghost use Rattle.cabinet.specs.Reactions.{Reacts};

use crate::cabinet::Cabinet;
use crate::event::{Event, Reaction};
use cable::refusal::Refusal;

impl Cabinet {
    // Inlined, so that a caller who knows which event it gives is spared the others.
    #[inline(always)]
    pub fn react(&mut self, event: Event) -> Result<Reaction, Refusal>
        ensures reacts { Reacts (near_of self.old) (model_of self.old) event result (model_of self.new) }
        ensures privilege_first { IfOk result PrivilegeGoesFirst }
        ensures only_if_wanted { IfOk result (GoesInOnlyIfWanted (model_of self.old) event) }
        ensures in_turn { IfOk result (λ a. EarlierJoinedEarlierServed (model_of self.old) event a (model_of self.new)) }
        ensures same { self.new.neighbours ≡ self.old.neighbours }
    {
        self.state.act(&self.neighbours, event)?;
        let reaction = self.state.settle();
        self.phase = self.phase.after(event, reaction.entered);
        Ok(reaction)
    }
}
