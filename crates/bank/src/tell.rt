// Calls that only tell.
ghost use Rattle.std.specs.Prelude.{◌≡◌, ◌≤◌, map};
ghost use Rattle.cabinet.specs.Tables.{view_of};
ghost use Rattle.bank.specs.Banks.{bank_of};
ghost use Rattle.bank.specs.Answers.{state_of, privilege_at, WaiterAmong, TellsWaiter};

use crate::bank::Bank;
use cabinet::cabinet::Cabinet;
use cabinet::cabinet::phase::Phase;
use cable::number::CabinetNo;
use cable::refusal::Refusal;
use tree::tree::CABINETS;

// A cabinet's `Phase`, with how long it has waited so far: that is kept by its bank, and the cabinet does not know it.
#[derive(Clone, Copy, PartialEq, Eq, Debug)]
pub enum Status {
    // neither of the others
    Rest,
    // own is queued; with its wait count
    Waits(u32),
    // it may use the terminal
    In,
}

impl<P> Bank<P> {
    // The status of cabinet n.
    pub fn state(&self, n: CabinetNo) -> Result<Status, Refusal>
        ensures value { result ≡ state_of (bank_of self.now) n.0 }
    {
        let cabinets = self.cabinets()?;
        let k = cabinets.index(n)?;
        match cabinets.table.cabinets[k].phase() {
            Phase::Rest => Ok(Status::Rest),
            Phase::Waits => Ok(Status::Waits(cabinets.waits.at(n))),
            Phase::In => Ok(Status::In),
        }
    }

    // Whether the privilege is at cabinet n, and not elsewhere or under way.
    pub fn has_privilege(&self, n: CabinetNo) -> Result<bool, Refusal>
        ensures value { result ≡ privilege_at (bank_of self.now) n.0 }
    {
        let cabinets = self.cabinets()?;
        let k = cabinets.index(n)?;
        Ok(cabinets.table.cabinets[k].has_privilege())
    }

    // Some cabinet that waits, if one does.
    pub fn waiter(&self) -> Result<Option<CabinetNo>, Refusal>
        ensures tells { TellsWaiter (bank_of self.now) result }
    {
        let cabinets = self.cabinets()?;
        Ok(first_waiting(&cabinets.table.cabinets, cabinets.tree.count()))
    }
}

// One of the first `count` cabinets that waits. The table always has sixteen, and a tree has the first of them. No call of `Cabinets`:
// here the array's length is known to the prover.
fn first_waiting(cabinets: &[Cabinet; CABINETS], count: usize) -> Option<CabinetNo>
    requires { count ≤ 16 }
    ensures tells { WaiterAmong (map view_of cabinets.now) count result }
{
    let k = cabinets[..count]
        .iter()
        .position(|cabinet| cabinet.phase() == Phase::Waits)?;
    Some(CabinetNo(k as u32))
}
