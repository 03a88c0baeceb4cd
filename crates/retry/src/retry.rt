// A post over any wiring: each lane repeats its outstanding message, a round at each pull, until the acknowledgement comes.
ghost use Rattle.std.specs.Prelude.{◌≡◌, ℕ};
ghost use Rattle.alternating.specs.Lanes.{fresh};
ghost use Rattle.alternating.specs.Retry.{RetryPuts, RetryPulls, read_by, post_of};
ghost use Rattle.retry.specs.States.{state_of, NewOver};
ghost use Rattle.retry.specs.Tables.{lane_in};
ghost use Rattle.alternating.proofs.Meaning.{puts_meant, pulls_meant};
ghost use Rattle.alternating.proofs.Retrying.{retry_is_a_post, retry_puts_as_a_post, retry_pulls_as_a_post};
ghost use Rattle.retry.specs.Reading.{sound_by};
ghost use Rattle.wiring.specs.Wirings.{Sends, Takes};

use crate::kept::KeptLane;
use crate::link::Link;
use cable::message::Message;
use cable::number::{LANES, LaneNo};
use cable::refusal::Refusal;
use post::post::Post;
use wiring::wiring::Wiring;

#[derive(Drop)]
pub struct Retry<W> {
    lanes: [KeptLane; LANES],
    wiring: W,
}

impl<W: Wiring> Retry<W> {
    // A post on which nothing waits, over this wiring, whatever flies on it.
    pub fn new(wiring: W) -> Retry<W>
        ensures value { NewOver wiring (state_of result) }
    {
        Retry {
            lanes: new_lanes(),
            wiring,
        }
    }
}

// That thirty alike are fresh needs the lemma `all_same`, cited in this function's own proof; beside it, `new` needs none. A generic
// function of this form is `[x; N]` itself: what differs from kind to kind is what the elements mean, and that is the contract.
fn new_lanes() -> [KeptLane; LANES]
    ensures value { (l : ℕ) → lane_in result l ≡ fresh }
{
    [KeptLane::new(); LANES]
}

impl<W: Wiring> Post for Retry<W> {
    ghost means = { λ p. post_of (read_by W.Wiring.means (state_of p)) };

    ghost puts = { λ p l m r q. RetryPuts (state_of p) l m r (state_of q) };

    ghost pulls = { λ p l r q. RetryPulls W.Wiring.sends W.Wiring.takes (state_of p) l r (state_of q) };

    ghost sound = { λ p. retry_is_a_post _ (sound_by W.Wiring.means W.Wiring.sound p) };

    ghost put_meant = { λ p q l m r h.
        (retry_puts_as_a_post _ _ l m r (sound_by W.Wiring.means W.Wiring.sound p) (puts_meant W.Wiring.means (state_of p) (state_of q) l m r h)).0 };

    ghost pull_meant = { λ p q l r h.
        (retry_pulls_as_a_post _ _ l r (sound_by W.Wiring.means W.Wiring.sound p)
        (pulls_meant W.Wiring.means W.Wiring.sends Sends W.Wiring.takes Takes W.Wiring.send_meant W.Wiring.take_meant (state_of p) (state_of q) l r h)).0 };

    #[tactic(auto, using(cable::proofs::Tables::one_written))]
    fn put(&mut self, lane: LaneNo, message: Message) -> Result<(), Refusal> {
        self.lanes[lane.index()?].add(message)
    }

    #[tactic(auto, using(cable::proofs::Tables::one_written))]
    fn pull(&mut self, lane: LaneNo) -> Result<Option<Message>, Refusal> {
        let k = lane.index()?;
        self.lanes[k].repeat(&mut self.wiring, Link::of(lane)?)
    }

    fn count(&self, lane: LaneNo) -> Result<usize, Refusal> {
        Ok(self.lanes[lane.index()?].waits())
    }

    fn patience(&self) -> u32 {
        // the most pulls for which an accepted message may still be held: m x (m + 1) + m + 1 + m (docs/RETRY.md)
        let m = u32::from(self.wiring.misses());
        m * m + 3 * m + 1
    }
}
