// The limit on a wait.
ghost use Rattle.std.specs.Prelude.{◌≡◌, ◌≤◌};
ghost use Rattle.promise.specs.Promise.{limit as limitOf};
ghost use Rattle.bank.specs.Banks.{own_rules, bank_of};
ghost use Rattle.bank.specs.Answers.{bound_of};
ghost use Rattle.bank.specs.Promised.{Promised};

use crate::bank::Bank;
use cable::refusal::Refusal;
use post::post::Post;

// The longest stay that a limit is told for. A stay: the sweeps between a cabinet's going in and its leaving.
pub const LONGEST_STAY: u32 = 65_535;

impl<P: Post> Bank<P> {
    // How many sweeps a cabinet waits at most, while no stay is longer than `stay` sweeps.
    pub fn bound(&self, stay: u32) -> Result<u32, Refusal>
        ensures value { result ≡ bound_of (bank_of self.now) (P.means self.now.post).patience stay }
        ensures promised { Promised P.means (own_rules P.means P.puts P.pulls) }
    {
        let patience = self.patience();
        if stay > LONGEST_STAY {
            return Err(Refusal::OutOfRange);
        }
        let cabinets = self.cabinets()?.tree.count();
        Ok(limit(cabinets as u32, patience, stay))
    }

    // The post's patience, and with it what is promised over every post.
    fn patience(&self) -> u32
        ensures value { result ≡ (P.means self.now.post).patience }
        ensures few { result ≤ 65535 }
        ensures promised { Promised P.means (own_rules P.means P.puts P.pulls) }
    {
        self.post.patience()
    }
}

// Each cable on the way may cost three readings of a lane, each up to `patience` pulls late, and one stay.
fn limit(cabinets: u32, patience: u32, stay: u32) -> u32
    requires some { 1 ≤ cabinets }
    requires few { cabinets ≤ 16 }
    requires patience_few { patience ≤ 65535 }
    requires stay_few { stay ≤ 65535 }
    ensures value { result ≡ limitOf cabinets patience stay }
{
    (cabinets - 1) * (3 * (patience + 1) + stay)
}
