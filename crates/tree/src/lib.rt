// The tree that the cabinets of a bank stand in: who is whose neighbour, and which lanes run between them.
#![tactic(auto)]

pub mod tree;
