// What the calls of a post do to one lane.
ghost use Rattle.std.specs.Prelude.{◌≡◌, ℕ, length, None, Some, Ok};
ghost use Rattle.cable.specs.declared.message.Message.{Message};
ghost use Rattle.alternating.specs.Lanes.{fresh, adds, added_if_room, waiting_in};
ghost use Rattle.alternating.specs.Rounds.{Round};
ghost use Rattle.retry.specs.Tables.{kept_model};

use crate::kept::KeptLane;
use crate::link::Link;
use crate::round::repeat;
use alternating::lane::Lane;
use cable::message::Message;
use cable::refusal::Refusal;
use wiring::wiring::Wiring;

impl KeptLane {
    pub(crate) fn new() -> KeptLane
        ensures value { kept_model result ≡ fresh }
    {
        KeptLane { lane: Lane::new() }
    }

    pub(crate) fn add(&mut self, message: Message) -> Result<(), Refusal>
        ensures value { result ≡ adds (kept_model self.old) }
        ensures after { kept_model self.new ≡ added_if_room message (kept_model self.old) }
    {
        self.lane.add(message)
    }

    pub(crate) fn waits(&self) -> usize
        ensures value { result ≡ length (waiting_in (kept_model self.now)) }
    {
        self.lane.waits()
    }

    // One round, if a message is outstanding.
    pub(crate) fn repeat<W: Wiring>(
        &mut self,
        wiring: &mut W,
        link: Link,
    ) -> Result<Option<Message>, Refusal>
        ensures idle { (kept_model self.old).outstanding ≡ None → (result ≡ Ok None) × (kept_model self.new ≡ kept_model self.old) × (wiring.new ≡ wiring.old) }
        ensures round { (x : Message) → (kept_model self.old).outstanding ≡ Some x → Round W.sends W.takes link.lane.0 x (kept_model self.old) wiring.old result (kept_model self.new) wiring.new }
    {
        repeat(wiring, link, &mut self.lane)
    }
}
