// The lanes of a planted tree: two for each cable, one up to the parent and one back down.
ghost use Rattle.std.specs.Prelude.{◌≡◌};
ghost use Rattle.tree.specs.Laws.{ALaneHasItsTwoAsEnds, TheEndsHaveTheirLane, OneLaneForOnePair, TwoLanesForEachCable};
ghost use Rattle.tree.specs.Planted.{parents_of, cabinets, numbered};
ghost use Rattle.tree.specs.Trees.{lanes_of, ends_of, lane_from};
ghost use Rattle.tree.specs.Worked.{TheWorkedLanesHold};

use crate::tree::Tree;
use crate::tree::neighbours::is_cable;
use crate::tree::parents::parent_in;
use cable::number::{CabinetNo, LaneNo};

impl Tree {
    // How many lanes are in use: those below this number.
    pub fn lanes(&self) -> usize
        ensures value { result ≡ lanes_of (parents_of self.now) }
        ensures used { TwoLanesForEachCable (parents_of self.now) }
    {
        2 * (self.list().len() - 1)
    }

    // From which cabinet to which the lane runs, if it is in use.
    pub fn ends(&self, lane: LaneNo) -> Option<(CabinetNo, CabinetNo)>
        ensures value { result ≡ cabinets (ends_of (parents_of self.now) lane.0) }
        ensures back { TheEndsHaveTheirLane (parents_of self.now) }
        ensures worked { TheWorkedLanesHold }
    {
        let child = CabinetNo(lane.0 / 2 + 1);
        let parent = parent_in(self.list(), child)?;
        Some(if lane.0 % 2 == 0 {
            (child, parent)
        } else {
            (parent, child)
        })
    }

    // The lane from one cabinet to another, if they are neighbours.
    pub fn lane(&self, from: CabinetNo, to: CabinetNo) -> Option<LaneNo>
        ensures value { result ≡ numbered (lane_from (parents_of self.now) from.0 to.0) }
        ensures ends { ALaneHasItsTwoAsEnds (parents_of self.now) }
        ensures once { OneLaneForOnePair (parents_of self.now) }
    {
        let list = self.list();
        if is_cable(list, from, to) {
            Some(LaneNo(2 * (from.0 - 1)))
        } else if is_cable(list, to, from) {
            Some(LaneNo(2 * (to.0 - 1) + 1))
        } else {
            None
        }
    }
}
