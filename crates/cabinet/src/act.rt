// The first step of an event: it is refused, or it acts on the record.
ghost use Rattle.std.specs.Prelude.{◌≡◌, ◌≤◌, length, Some, None, MatchResult};
ghost use Rattle.cabinet.specs.Models.{acted, refused};
ghost use Rattle.cabinet.specs.Near.{near};
ghost use Rattle.cabinet.specs.States.{model};

use crate::event::Event;
use crate::party::Party;
use crate::state::State;
use cable::refusal::Refusal;
use tree::tree::neighbours::Neighbours;

impl State {
    pub(crate) fn act(&mut self, neighbours: &Neighbours, event: Event) -> Result<(), Refusal>
        requires room { refused (near neighbours.now) (model self.old) event ≡ None → length (acted (model self.old) event).queue ≤ 15 }
        ensures cases { MatchResult result (λ _. (refused (near neighbours.now) (model self.old) event ≡ None) × (model self.new ≡ acted (model self.old) event)) (λ why. (refused (near neighbours.now) (model self.old) event ≡ Some why) × (model self.new ≡ model self.old)) }
    {
        match (self.holder, self.inside, self.asked, event) {
            (_, inside, _, Event::Want) if inside || self.queues(Party::Own) => {
                return Err(Refusal::AlreadyWants);
            }
            (_, false, _, Event::Leave) => return Err(Refusal::NotIn),
            (_, _, _, Event::Request(from) | Event::Privilege(from)) if !neighbours.has(from) => {
                return Err(Refusal::NotANeighbour);
            }
            (holder, _, _, Event::Request(from))
                if self.queues(Party::Neighbour(from)) || holder == Party::Neighbour(from) => {
                return Err(Refusal::UnexpectedRequest);
            }
            (holder, _, asked, Event::Privilege(from))
                if holder != Party::Neighbour(from) || !asked => {
                return Err(Refusal::UnexpectedPrivilege);
            }
            (_, _, _, Event::Want) => self.join(Party::Own),
            (_, _, _, Event::Leave) => self.inside = false,
            (_, _, _, Event::Request(from)) => self.join(Party::Neighbour(from)),
            (_, _, _, Event::Privilege(_)) => self.holder = Party::Own,
        }
        Ok(())
    }
}
