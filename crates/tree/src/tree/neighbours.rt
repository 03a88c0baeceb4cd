// Which cabinets are neighbours: those that a cable joins.
ghost use Rattle.std.specs.Prelude.{◌≡◌, ℕ, ◌≤◌, false};
ghost use Rattle.tree.specs.Laws.{NeighboursAreMutual, NoneIsItsOwnNeighbour, NeighboursHaveALane};
ghost use Rattle.tree.specs.Planted.{parents_of, has_number};
ghost use Rattle.tree.specs.Trees.{cable, neighbours};

use crate::tree::parents::parent_in;
use crate::tree::{CABINETS, Tree};
use cable::number::CabinetNo;
use std::array;

// The neighbours of one cabinet, as a set of cabinet numbers.
#[derive(Clone, Copy)]
pub struct Neighbours {
    member: [bool; CABINETS],
}

impl Neighbours {
    // Whether cabinet n is one of them.
    pub fn has(&self, n: CabinetNo) -> bool
        ensures value { result ≡ has_number self.now n.0 }
        ensures past { 16 ≤ n.0 → result ≡ false }
    {
        n.index(CABINETS).is_ok_and(|i| self.member[i])
    }
}

impl Tree {
    // The cabinets that a cable joins to cabinet k.
    pub fn neighbours(&self, k: CabinetNo) -> Neighbours
        ensures value { (n : ℕ) → has_number result n ≡ neighbours (parents_of self.now) k.0 n }
        ensures shared { NeighboursAreMutual (parents_of self.now) }
        ensures other { NoneIsItsOwnNeighbour (parents_of self.now) }
        ensures joined { NeighboursHaveALane (parents_of self.now) }
    {
        let list = self.list();
        Neighbours {
            member: array::from_fn(|i| are_neighbours(list, k, CabinetNo(i as u32))),
        }
    }
}

fn are_neighbours(list: &[CabinetNo], a: CabinetNo, b: CabinetNo) -> bool
    ensures value { result ≡ neighbours list.now a.0 b.0 }
{
    is_cable(list, a, b) || is_cable(list, b, a)
}

// Whether cabinet k is joined to p as to its parent.
pub(super) fn is_cable(list: &[CabinetNo], k: CabinetNo, p: CabinetNo) -> bool
    ensures value { result ≡ cable list.now k.0 p.0 }
{
    parent_in(list, k) == Some(p)
}
