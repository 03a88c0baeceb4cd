// A script: what happened at a site, line by line, and what its bank answers.
#![tactic(auto)]

pub mod answer;
mod ask;
pub mod command;
mod draft;
mod parse;
pub mod printed;
pub mod script;
mod stage;
mod word;
