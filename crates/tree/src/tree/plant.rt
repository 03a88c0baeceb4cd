// Planting: a list of parents is looked at, and becomes a tree.
ghost use Rattle.std.specs.Prelude.{◌≡◌};
ghost use Rattle.tree.specs.Planted.{Planted};
ghost use Rattle.tree.specs.Trees.{lower, ordered};
ghost use Rattle.tree.specs.Worked.{TheWorkedListsHold};

use crate::tree::Tree;
use cable::number::CabinetNo;
use cable::refusal::Refusal;
use cable::row::Row;

impl Tree {
    // The tree with this list of parents.
    pub fn plant(parents: &[CabinetNo]) -> Result<Tree, Refusal>
        ensures value { Planted parents.now result }
        ensures worked { TheWorkedListsHold }
    {
        if parents.is_empty() {
            return Err(Refusal::WrongCabinetCount);
        }
        let row = Row::from_slice(CabinetNo(0), parents).map_err(|_| Refusal::WrongCabinetCount)?;
        if !in_order(parents) {
            return Err(Refusal::NotATree);
        }
        Ok(Tree { parents: row })
    }
}

// Whether each entry is one that may stand at its place.
fn in_order(parents: &[CabinetNo]) -> bool
    ensures value { result ≡ ordered 0 parents.now }
{
    parents
        .iter()
        .enumerate()
        .all(|(k, parent)| is_lower(k, *parent))
}

// Whether the entry may stand at place k of a list of parents: 0 at the first, and below its place at any later one.
pub fn is_lower(k: usize, parent: CabinetNo) -> bool
    ensures value { result ≡ lower k parent.0 }
{
    let p = parent.0 as usize;
    if k == 0 { p == 0 } else { p < k }
}
