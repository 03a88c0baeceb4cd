// An event at one cabinet of a bank: its record changes, and then what it sends is put.
ghost use Rattle.std.specs.Prelude.{◌≡◌};
ghost use Rattle.promise.specs.Events.{Happens};
ghost use Rattle.tree.specs.Planted.{parents_of};
ghost use Rattle.bank.specs.Banks.{own_rules, planted_on};
ghost use Rattle.bank.specs.Parts.{SendsTo};

use crate::cabinets::Cabinets;
use cabinet::event::{Event, Reaction};
use cable::message::Message;
use cable::number::CabinetNo;
use cable::refusal::Refusal;
use post::post::Post;

impl Cabinets {
    // Gives the event to cabinet n, and puts what it sends: the privilege first.
    pub(crate) fn event<P: Post>(
        &mut self,
        post: &mut P,
        n: CabinetNo,
        event: Event,
    ) -> Result<Reaction, Refusal>
        ensures happens { Happens (own_rules P.means P.puts P.pulls) (planted_on self.old post.old) n.0 event result (planted_on self.new post.new) }
        ensures same { self.new.tree ≡ self.old.tree }
    {
        let reaction = self.table.react(n, event)?;
        self.send(post, n, reaction.privilege, Message::Privilege)?;
        self.send(post, n, reaction.request, Message::Request)?;
        Ok(reaction)
    }

    // Puts a message on the lane to a neighbour, if there is one to send it to.
    fn send<P: Post>(
        &self,
        post: &mut P,
        from: CabinetNo,
        to: Option<CabinetNo>,
        message: Message,
    ) -> Result<(), Refusal>
        ensures sends { SendsTo (own_rules P.means P.puts P.pulls) (parents_of self.now.tree) from.0 to message post.old result post.new }
    {
        let Some(to) = to else {
            return Ok(());
        };
        let lane = self.tree.lane(from, to).ok_or(Refusal::NotANeighbour)?;
        post.put(lane, message)
    }
}
