// The link of a lane that there is: its two wires, one for its frames and one for the acknowledgements back. Nowhere else does a lane
// number become a wire number. Only a pull needs one: put and count touch no wire.
ghost use Rattle.std.specs.Prelude.{◌≡◌, ◌<◌, ◌≤◌, MatchResult};
ghost use Rattle.alternating.specs.Rounds.{frame_wire, answer_wire};

use cable::number::{LaneNo, WireNo};
use cable::refusal::Refusal;

#[derive(Clone, Copy)]
pub(crate) struct Link {
    pub(crate) lane: LaneNo,
    ghost within: { lane.0 < 30 },
}

// A wire that there is.
#[derive(Clone, Copy)]
pub(crate) struct ValidWire {
    pub(crate) number: WireNo,
    ghost within: { number.0 < 60 },
}

impl Link {
    // The link of this lane, if there is such a lane.
    pub(crate) fn of(lane: LaneNo) -> Result<Link, Refusal>
        ensures cases { MatchResult result (λ link. link.lane ≡ lane) (λ why. (why ≡ Refusal.NoSuchLane) × (30 ≤ lane.0)) }
    {
        lane.index()?;
        Ok(Link { lane })
    }

    // The wire of its frames. This and the next are not one function with a switch: the rule names both.
    pub(crate) fn frames(self) -> ValidWire
        ensures value { result.number.0 ≡ frame_wire self.lane.0 }
    {
        ValidWire {
            number: WireNo(2 * self.lane.0),
        }
    }

    // The wire of its acknowledgements.
    pub(crate) fn answers(self) -> ValidWire
        ensures value { result.number.0 ≡ answer_wire self.lane.0 }
    {
        ValidWire {
            number: WireNo(2 * self.lane.0 + 1),
        }
    }
}
