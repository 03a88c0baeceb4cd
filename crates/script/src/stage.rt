// How far a script has come.
use crate::draft::Draft;
use bank::bank::Bank;
use post::straight::Straight;
use retry::retry::Retry;
use wiring::clean::Clean;
use wiring::patterned::Patterned;

#[derive(Drop)]
pub(crate) enum Stage {
    // no post was named
    Unnamed,
    // a post was named, and cabinets may have been
    Drafted(Draft),
    // the cabinets are planted
    Straight(Bank<Straight>),
    Clean(Bank<Retry<Clean>>),
    Retry(Bank<Retry<Patterned>>),
}
