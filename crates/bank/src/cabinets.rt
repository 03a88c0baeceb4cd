// The cabinets of a planted bank: their tree, their records, and how long each has waited. The post is no part of it, and a
// parameter of its calls: a bank has one before it is planted.
ghost use Rattle.std.specs.Prelude.{◌≡◌, ◌<◌, Some, None, MatchResult};
ghost use Rattle.tree.specs.Planted.{parents_of};
ghost use Rattle.bank.specs.Parts.{refusal_in};

use crate::waits::Waits;
use cabinet::table::Table;
use cable::number::CabinetNo;
use cable::refusal::Refusal;
use tree::tree::Tree;

#[derive(Clone, Copy)]
pub struct Cabinets {
    pub(crate) tree: Tree,
    pub(crate) table: Table,
    pub(crate) waits: Waits,
}

impl Cabinets {
    // The place of cabinet n in the table, if the tree has it.
    pub(crate) fn index(&self, n: CabinetNo) -> Result<usize, Refusal>
        ensures cases { MatchResult result (λ k. (k ≡ n.0) × (k < 16) × (refusal_in (parents_of self.now.tree) n.0 ≡ None)) (λ why. refusal_in (parents_of self.now.tree) n.0 ≡ Some why) }
    {
        n.index(self.tree.count())
    }
}
