// The simplest post: what is put on a lane comes off it at the next pull.
ghost use Rattle.std.specs.Prelude.{◌≡◌, ℕ, [], map, slice_index_or};
ghost use Rattle.cable.specs.Rows.{contents};
ghost use Rattle.post.specs.Straights.{waiting_on, StraightPuts, StraightPulls, straight_of};
ghost use Rattle.post.specs.StraightIsAPost.{sound_so, put_meant_so, pull_meant_so};

use crate::post::{Post, WAITING};
use cable::message::Message;
use cable::number::{LANES, LaneNo};
use cable::refusal::Refusal;
use cable::row::Row;

// No pull of a lane on which a message waits comes back empty.
const PATIENCE: u32 = 0;

#[derive(Clone, Copy)]
pub struct Straight {
    queues: [Row<Message, WAITING>; LANES],
}

impl Straight {
    // A post on which nothing waits.
    pub fn new() -> Straight
        ensures value { (l : ℕ) → waiting_on result l ≡ [] }
    {
        Straight {
            queues: empty_queues(),
        }
    }
}

// That thirty alike are empty needs the lemma `all_same`, cited in this function's own proof; beside it, `new` needs none. A generic
// function of this form is `[x; N]` itself: what differs from kind to kind is what the elements mean, and that is the contract.
fn empty_queues() -> [Row<Message, WAITING>; LANES]
    ensures value { (l : ℕ) → slice_index_or (map contents result) l [] ≡ [] }
{
    [Row::new(Message::Request); LANES]
}

impl Post for Straight {
    ghost means = { straight_of };

    ghost puts = { StraightPuts };

    ghost pulls = { StraightPulls };

    ghost sound = { sound_so };

    ghost put_meant = { put_meant_so };

    ghost pull_meant = { pull_meant_so };

    #[tactic(auto, using(cable::proofs::Tables::one_written))]
    fn put(&mut self, lane: LaneNo, message: Message) -> Result<(), Refusal> {
        let queue = &mut self.queues[lane.index()?];
        queue.join(message).map_err(|_| Refusal::LaneFull)
    }

    #[tactic(auto, using(cable::proofs::Tables::one_written))]
    fn pull(&mut self, lane: LaneNo) -> Result<Option<Message>, Refusal> {
        Ok(self.queues[lane.index()?].leave())
    }

    fn count(&self, lane: LaneNo) -> Result<usize, Refusal> {
        Ok(self.queues[lane.index()?].len())
    }

    fn patience(&self) -> u32 {
        PATIENCE
    }
}
