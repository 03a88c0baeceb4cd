// Calls to one cabinet: want and leave.
ghost use Rattle.promise.specs.Calls.{Wants, Leaves};
ghost use Rattle.bank.specs.Banks.{own_rules, planted_on, bank_of};
ghost use Rattle.bank.specs.Answers.{want_answer};

use crate::bank::Bank;
use crate::cabinets::Cabinets;
use cabinet::event::Event;
use cable::number::CabinetNo;
use cable::refusal::Refusal;
use post::post::Post;

// What came of a want.
#[derive(Clone, Copy, PartialEq, Eq, Debug)]
pub enum Wanted {
    // the cabinet went in at once
    In,
    // it is queued
    Waits,
}

impl<P: Post> Bank<P> {
    // The buyer at cabinet n wants the terminal.
    pub fn want(&mut self, n: CabinetNo) -> Result<Wanted, Refusal>
        ensures wants { Wants (own_rules P.means P.puts P.pulls) (bank_of self.old) n.0 (want_answer result) (bank_of self.new) }
    {
        let cabinets = self.cabinets.as_mut().ok_or(Refusal::Bare)?;
        cabinets.want(&mut self.post, n)
    }

    // The buyer at cabinet n is done with the terminal.
    pub fn leave(&mut self, n: CabinetNo) -> Result<(), Refusal>
        ensures leaves { Leaves (own_rules P.means P.puts P.pulls) (bank_of self.old) n.0 result (bank_of self.new) }
    {
        let cabinets = self.cabinets.as_mut().ok_or(Refusal::Bare)?;
        cabinets.leave(&mut self.post, n)
    }
}

impl Cabinets {
    fn want<P: Post>(&mut self, post: &mut P, n: CabinetNo) -> Result<Wanted, Refusal>
        ensures wants { Wants (own_rules P.means P.puts P.pulls) (planted_on self.old post.old) n.0 (want_answer result) (planted_on self.new post.new) }
    {
        self.index(n)?;
        let reaction = self.event(post, n, Event::Want)?;
        self.waits.restart(n);
        if reaction.entered {
            Ok(Wanted::In)
        } else {
            Ok(Wanted::Waits)
        }
    }

    fn leave<P: Post>(&mut self, post: &mut P, n: CabinetNo) -> Result<(), Refusal>
        ensures leaves { Leaves (own_rules P.means P.puts P.pulls) (planted_on self.old post.old) n.0 result (planted_on self.new post.new) }
    {
        self.index(n)?;
        self.event(post, n, Event::Leave)?;
        Ok(())
    }
}
