// A sweep: every lane in use is pulled once, in the order of the lanes' numbers.
ghost use Rattle.std.specs.Prelude.{◌≡◌, ◌<◌, ◌≤◌, Err};
ghost use Rattle.cable.specs.declared.refusal.Refusal.TheVariants.{NoSuchLane};
ghost use Rattle.promise.specs.Calls.{Sweeps};
ghost use Rattle.promise.specs.Sweeps.{arrival as arrivalOf};
ghost use Rattle.tree.specs.Planted.{parents_of};
ghost use Rattle.tree.specs.Trees.{lanes_of};
ghost use Rattle.bank.specs.Banks.{own_rules, planted_on, bank_of};
ghost use Rattle.bank.specs.Answers.{sweep_answer};
ghost use Rattle.bank.specs.Parts.{read_answer, Brings, Swept};

use crate::bank::Bank;
use crate::cabinets::Cabinets;
use cabinet::event::Event;
use cable::message::Message;
use cable::number::{CabinetNo, LANES, LaneNo};
use cable::refusal::Refusal;
use post::post::Post;

// Who went in last during a sweep, and how long it had waited.
#[derive(Clone, Copy, PartialEq, Eq, Debug)]
pub struct Entered {
    pub cabinet: CabinetNo,
    pub wait: u32,
}

impl<P: Post> Bank<P> {
    // Sweeps, and says which cabinet went in last.
    pub fn sweep(&mut self) -> Result<Option<Entered>, Refusal>
        ensures sweeps { Sweeps (own_rules P.means P.puts P.pulls) (bank_of self.old) (sweep_answer result) (bank_of self.new) }
    {
        let cabinets = self.cabinets.as_mut().ok_or(Refusal::Bare)?;
        cabinets.sweep(&mut self.post)
    }
}

impl Cabinets {
    // The wait counts grow before any lane is read.
    fn sweep<P: Post>(&mut self, post: &mut P) -> Result<Option<Entered>, Refusal>
        ensures sweeps { Sweeps (own_rules P.means P.puts P.pulls) (planted_on self.old post.old) (sweep_answer result) (planted_on self.new post.new) }
    {
        self.waits.grow(&self.table.cabinets);
        let Some(cabinet) = self.read_all(post)? else {
            return Ok(None);
        };
        let wait = self.waits.at(cabinet);
        Ok(Some(Entered { cabinet, wait }))
    }

    // Reads every lane of the tree, lowest first, and says which cabinet went in last. Not inlined: this loop is what a sweep spends its
    // time on.
    #[inline(never)]
    fn read_all<P: Post>(&mut self, post: &mut P) -> Result<Option<CabinetNo>, Refusal>
        ensures swept { Swept (own_rules P.means P.puts P.pulls) (planted_on self.old post.old) result (planted_on self.new post.new) }
    {
        // a loop, which is plainer here than `try_fold`: each reading has the cabinets and the post in hand
        let mut last = None;
        for l in 0..self.lanes() {
            let lane = LaneNo(l as u32);
            if let Some(message) = post.pull(lane)? {
                last = self.deliver(post, lane, message)?.or(last);
            }
        }
        Ok(last)
    }

    // How many lanes are in use. `min` changes nothing: it shows the compiler that each of them is a place in a post's table.
    #[tactic(auto, using(crate::proofs::Sweeping::all_lanes))]
    fn lanes(&self) -> usize
        ensures value { result ≡ lanes_of (parents_of self.now.tree) }
    {
        self.tree.lanes().min(LANES)
    }

    // Gives the cabinet at the lane's end what came, and says whether that cabinet went in. Not inlined: most lanes are idle, and
    // reading those should not clear room for what an event answers.
    #[inline(never)]
    fn deliver<P: Post>(
        &mut self,
        post: &mut P,
        lane: LaneNo,
        message: Message,
    ) -> Result<Option<CabinetNo>, Refusal>
        ensures brings { lane.0 < lanes_of (parents_of self.old.tree) → Brings (own_rules P.means P.puts P.pulls) (planted_on self.old post.old) lane.0 message (read_answer result) (planted_on self.new post.new) }
        ensures absent { lanes_of (parents_of self.old.tree) ≤ lane.0 → (result ≡ Err NoSuchLane) × (self.new ≡ self.old) × (post.new ≡ post.old) }
        ensures same { self.new.tree ≡ self.old.tree }
    {
        let (from, to) = self.tree.ends(lane).ok_or(Refusal::NoSuchLane)?;
        let reaction = self.event(post, to, arrival(message, from))?;
        Ok(reaction.entered.then_some(to))
    }
}

// A message as the event that it is at the lane's end. Of two values, so that it is no `From`.
fn arrival(message: Message, from: CabinetNo) -> Event
    ensures value { result ≡ arrivalOf message from.0 }
{
    match message {
        Message::Request => Event::Request(from),
        Message::Privilege => Event::Privilege(from),
    }
}
