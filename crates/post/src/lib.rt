// Messages, lane by lane and in order.
#![tactic(auto)]

pub mod post;
pub mod straight;
