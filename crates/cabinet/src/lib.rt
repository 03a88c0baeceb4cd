// One cabinet of a bank: its record, and what an event does to it. No input or output: an event goes in, and what is to be sent
// comes out.
#![tactic(auto)]

mod act;
pub mod cabinet;
pub mod event;
pub mod party;
pub mod state;
mod step;
pub mod table;
