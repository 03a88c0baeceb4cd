// The alternating bit: a sender repeats each message until its acknowledgement comes, and a receiver accepts each once. In code one
// lane, without its wires; in definitions and proofs its rounds over any wiring, the rules of the retry post, and that they are a post's.
#![tactic(auto)]

pub mod lane;
