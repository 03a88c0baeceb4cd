// Planting: a bare bank gets its tree.
ghost use Rattle.std.specs.Prelude.{◌≡◌, Ok};
ghost use Rattle.cable.specs.Numbers.{lanes};
ghost use Rattle.promise.specs.Calls.{Plants, busy_below};
ghost use Rattle.bank.specs.Banks.{own_rules, bank_of};

use crate::bank::Bank;
use crate::cabinets::Cabinets;
use crate::waits::Waits;
use cabinet::table::Table;
use cable::number::{CabinetNo, LANES, LaneNo};
use cable::refusal::Refusal;
use post::post::Post;
use tree::tree::Tree;

impl<P: Post> Bank<P> {
    // Plants the tree with this list of parents, if no message waits in the post: one that was used before may have some.
    pub fn plant(&mut self, parents: &[CabinetNo]) -> Result<(), Refusal>
        ensures plants { Plants (own_rules P.means P.puts P.pulls) (bank_of self.old) parents.now result (bank_of self.new) }
    {
        if self.cabinets.is_some() {
            return Err(Refusal::AlreadyPlanted);
        }
        let tree = Tree::plant(parents)?;
        if busy(&self.post)? {
            return Err(Refusal::MessageWaiting);
        }
        self.cabinets = Some(Cabinets {
            tree,
            table: Table::planted(&tree),
            waits: Waits::new(),
        });
        Ok(())
    }
}

// Whether a message waits on any lane. A loop, which is plainer here than `try_fold`: a post may refuse a count.
fn busy<P: Post>(post: &P) -> Result<bool, Refusal>
    ensures value { result ≡ Ok (busy_below (P.means post.now).waiting lanes) }
{
    for l in 0..LANES {
        let waiting = post.count(LaneNo(l as u32))?;
        if waiting > 0 {
            return Ok(true);
        }
    }
    Ok(false)
}
