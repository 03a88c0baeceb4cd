// A cabinet: its neighbours and its record, with what every cabinet keeps between events.
pub mod phase;
mod planted;
mod react;

ghost use Rattle.std.specs.Prelude.{◌≡◌, ◌<◌, ◌≤◌, true, false, not, ◌&&◌, length};
ghost use Rattle.tree.specs.Planted.{members_of};
ghost use Rattle.cabinet.specs.Kept.{knows, many};
ghost use Rattle.cabinet.specs.Models.{some};
ghost use Rattle.cabinet.specs.Parties.{own, times};
ghost use Rattle.cabinet.specs.Phases.{phase_of};
ghost use Rattle.cabinet.specs.States.{queue_of, model};
ghost use Rattle.cabinet.specs.declared.party.Party.{Party};

use crate::cabinet::phase::Phase;
use crate::state::State;
use tree::tree::neighbours::Neighbours;

#[derive(Clone, Copy)]
pub struct Cabinet {
    neighbours: Neighbours,
    state: State,
    // kept, so that a sweep need not look into every queue
    phase: Phase,
    ghost few: { many (members_of neighbours) ≤ 15 },
    // no asker is queued twice
    ghost once: { (p : Party) → times p (queue_of state) ≤ 1 },
    // the holder is not queued
    ghost apart: { times state.holder (queue_of state) ≡ 0 },
    // in only with the privilege
    ghost home: { state.inside ≡ true → own state.holder ≡ true },
    // the privilege does not rest while somebody asks for it
    ghost idle: { own state.holder ≡ true → state.inside ≡ false → length (queue_of state) ≡ 0 },
    // the holder is asked exactly while somebody is queued
    ghost asks: { state.asked ≡ (not (own state.holder) && some (queue_of state)) },
    // only own and neighbours are queued, and the holder is one of these too
    ghost known: { (p : Party) → 0 < times p (queue_of state) → knows (members_of neighbours) p ≡ true },
    ghost near: { knows (members_of neighbours) state.holder ≡ true },
    ghost told: { phase ≡ phase_of (model state) },
}
