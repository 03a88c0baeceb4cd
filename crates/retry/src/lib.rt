// A post that repeats over bad wires, by the alternating bit.
#![tactic(auto)]

mod drain;
mod kept;
mod link;
pub mod retry;
mod round;
