// What goes over a cable: numbers, refusals, messages, frames, and the rows in which they stand.
#![tactic(auto)]

pub mod frame;
pub mod message;
pub mod number;
pub mod refusal;
pub mod row;
