// Bytes over bad wires: what every wiring means, one wire, letters and patterns, and the two kinds. The kinds are alike in form, an
// array of what a kind keeps of each wire, but their calls are one line each: a generic type with a trait for such lines would be
// longer.
#![tactic(auto)]

pub mod clean;
pub mod letter;
pub mod letters;
pub mod misses;
pub mod pattern;
pub mod patterned;
pub mod wire;
pub mod wiring;
