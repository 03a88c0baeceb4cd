// A bank of cabinets over any post.
#![tactic(auto)]

pub mod bank;
pub mod bound;
mod cabinets;
pub mod calls;
mod event;
mod plant;
pub mod sweep;
pub mod tell;
mod waits;
