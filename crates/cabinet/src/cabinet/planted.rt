// A cabinet as it is planted.
ghost use Rattle.tree.specs.Planted.{parents_of};
ghost use Rattle.cabinet.specs.Tables.{PlantedAt};

use crate::cabinet::Cabinet;
use crate::cabinet::phase::Phase;
use crate::party::Party;
use crate::state::State;
use cable::number::CabinetNo;
use tree::tree::Tree;

impl Cabinet {
    // Cabinet k of the tree: the privilege lies toward its parent, and at the root.
    pub(crate) fn planted(tree: &Tree, k: CabinetNo) -> Cabinet
        ensures value { PlantedAt (parents_of tree.now) k.0 result }
    {
        Cabinet {
            neighbours: tree.neighbours(k),
            state: State::new(tree.parent(k).map_or(Party::Own, Party::Neighbour)),
            phase: Phase::Rest,
        }
    }
}
