// The cabinets of a bank, by their numbers. Numbers that the tree does not have stand for cabinets without neighbours.
ghost use Rattle.std.specs.Prelude.{◌≡◌};
ghost use Rattle.tree.specs.Planted.{parents_of};
ghost use Rattle.cabinet.specs.Tables.{views_of, answer_at, after_at, PlantedAs};

use crate::cabinet::Cabinet;
use crate::event::{Event, Reaction};
use cable::number::CabinetNo;
use cable::refusal::Refusal;
use std::array;
use tree::tree::{CABINETS, Tree};

#[derive(Clone, Copy)]
pub struct Table {
    // each at the place of its number
    pub cabinets: [Cabinet; CABINETS],
}

impl Table {
    // All cabinets of the tree, as planted.
    pub fn planted(tree: &Tree) -> Table
        ensures value { PlantedAs (parents_of tree.now) (views_of result) }
    {
        Table {
            cabinets: array::from_fn(|k| Cabinet::planted(tree, CabinetNo(k as u32))),
        }
    }

    // Gives the event to cabinet n, and to no other. Inlined, as the cabinet's own call.
    #[inline(always)]
    pub fn react(&mut self, n: CabinetNo, event: Event) -> Result<Reaction, Refusal>
        ensures value { result ≡ answer_at (views_of self.old) n.0 event }
        ensures after { views_of self.new ≡ after_at (views_of self.old) n.0 event }
    {
        let k = n.index(CABINETS)?;
        self.cabinets[k].react(event)
    }
}
