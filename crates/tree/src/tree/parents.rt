// The list of parents of a planted tree.
ghost use Rattle.std.specs.Prelude.{◌≡◌, ◌≤◌, true, length};
ghost use Rattle.tree.specs.Laws.{AParentIsLower, Lawful};
ghost use Rattle.tree.specs.Planted.{parents_of, parent_in};
ghost use Rattle.tree.specs.Trees.{ordered};

use crate::tree::Tree;
use cable::number::CabinetNo;

impl Tree {
    // How many cabinets there are. With the number goes what its users have to know of it, since a number has no type of its own.
    pub fn count(&self) -> usize
        ensures value { result ≡ length (parents_of self.now) }
        ensures some { 1 ≤ result }
        ensures few { result ≤ 16 }
        ensures grown { ordered 0 (parents_of self.now) ≡ true }
    {
        self.list().len()
    }

    // The parent of cabinet k, if there is such a cabinet and it is not the root.
    pub fn parent(&self, k: CabinetNo) -> Option<CabinetNo>
        ensures value { result ≡ parent_in (parents_of self.now) k.0 }
        ensures lower { AParentIsLower (parents_of self.now) }
    {
        parent_in(self.list(), k)
    }

    // The places that are taken, and what the order of their entries brings with it.
    #[tactic(auto, using(crate::proofs::Cables::lawful))]
    pub(super) fn list(&self) -> &[CabinetNo]
        ensures value { result.now ≡ parents_of self.now }
        ensures some { 1 ≤ length result.now }
        ensures few { length result.now ≤ 16 }
        ensures lawful { Lawful (parents_of self.now) }
    {
        self.parents.as_slice()
    }
}

pub(super) fn parent_in(list: &[CabinetNo], k: CabinetNo) -> Option<CabinetNo>
    ensures value { result ≡ parent_in list.now k.0 }
{
    match k.index(list.len()) {
        Ok(0) | Err(_) => None,
        Ok(i) => Some(list[i]),
    }
}
