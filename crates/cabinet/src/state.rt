// What a cabinet's record holds, and the single steps of an event. Between the steps of one event the record need not keep what
// it keeps between events.
ghost use Rattle.std.specs.Prelude.{◌≡◌, ◌≤◌, false, [], length};
ghost use Rattle.cabinet.specs.Models.{queued, joined, served, assigned, asks, asking};
ghost use Rattle.cabinet.specs.States.{model};

use crate::party::Party;
use cable::number::CabinetNo;
use cable::row::Row;

// As many askers as a cabinet can have neighbours: the holder is never queued.
pub const ASKERS: usize = 15;

#[derive(Clone, Copy)]
pub struct State {
    // the record as the rules have it: holder, in, asked
    pub holder: Party,
    pub inside: bool,
    pub asked: bool,
    // who comes and goes here, `join` and `assign` alone say
    queue: Row<Party, ASKERS>,
}

impl State {
    // As planted: no mark is set and nobody is queued.
    pub(crate) fn new(holder: Party) -> State
        ensures value { model result ≡ record { holder = holder; inside = false; asked = false; queue = [] } }
    {
        State {
            holder,
            inside: false,
            asked: false,
            queue: Row::new(Party::Own),
        }
    }

    // Whether the party stands in the queue.
    pub(crate) fn queues(&self, party: Party) -> bool
        ensures value { result ≡ queued party (model self.now) }
    {
        self.queue.contains(party)
    }

    // Puts the party behind all others: there is a place.
    pub(crate) fn join(&mut self, party: Party)
        requires { length (joined party (model self.old)).queue ≤ 15 }
        ensures after { model self.new ≡ joined party (model self.old) }
    {
        let _ = self.queue.join(party);
    }

    // Serves the oldest asker, if the privilege is here and free, and says whom.
    pub(crate) fn assign(&mut self) -> Option<Party>
        ensures value { result ≡ served (model self.old) }
        ensures after { model self.new ≡ assigned (model self.old) }
    {
        if self.holder != Party::Own || self.inside {
            return None;
        }
        let first = self.queue.leave()?;
        self.asked = false;
        self.holder = first;
        self.inside = first == Party::Own;
        Some(first)
    }

    // Asks the holder, if somebody is queued and it has not been asked, and says whom.
    pub(crate) fn ask(&mut self) -> Option<CabinetNo>
        ensures value { result ≡ asks (model self.old) }
        ensures after { model self.new ≡ asking (model self.old) }
    {
        let holder = self.holder.neighbour()?;
        if self.asked || self.queue.is_empty() {
            return None;
        }
        self.asked = true;
        Some(holder)
    }
}
