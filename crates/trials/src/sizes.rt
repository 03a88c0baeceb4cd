// How large a bank is, with its post and wiring: the sizes that the documents tell.
use bank::bank::Bank;
use post::straight::Straight;
use retry::retry::Retry;
use std::mem::size_of;
use std::test::*;
use wiring::clean::Clean;
use wiring::patterned::Patterned;

#[test]
fn banks_have_their_sizes(rt: HostRuntime) -> Result<(), Fail> {
    assert_eq!(rt; size_of::<Bank<Straight>>(), 3_312);
    assert_eq!(rt; size_of::<Bank<Retry<Clean>>>(), 5_712);
    assert_eq!(rt; size_of::<Bank<Retry<Patterned>>>(), 8_120);
    Ok(())
}
