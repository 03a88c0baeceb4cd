// The worked example, told over three kinds of posts: three cabinets in a line.
use crate::kinds::{LINE, over_clean, over_pattern};
use bank::bank::Bank;
use bank::calls::Wanted;
use bank::sweep::Entered;
use bank::tell::Status;
use cable::number::CabinetNo;
use cable::refusal::Refusal;
use post::post::Post;
use post::straight::Straight;
use std::process::Abort;
use std::test::*;

// A story is data, told to each kind of post in turn: its calls are hence values and no closures.
#[derive(Clone, Copy)]
enum Call {
    Want(u32),
    Leave(u32),
    Sweep,
}

// What a call that is done says.
#[derive(Clone, Copy, PartialEq, Eq, Debug)]
enum Said {
    Wanted(Wanted),
    Left,
    Swept(Option<Entered>),
}

// The answer to a call; a refusal is told by its number, as a customer reads it.
type Answer = Result<Said, u8>;

const IN: Answer = Ok(Said::Wanted(Wanted::In));

const WAITS: Answer = Ok(Said::Wanted(Wanted::Waits));

const LEFT: Answer = Ok(Said::Left);

const NOBODY: Answer = Ok(Said::Swept(None));

const IN_AFTER_3: Answer = Ok(Said::Swept(Some(Entered {
    cabinet: CabinetNo(2),
    wait: 3,
})));

const IN_AFTER_7: Answer = Ok(Said::Swept(Some(Entered {
    cabinet: CabinetNo(2),
    wait: 7,
})));

const WORKED: [(Call, Answer); 10] = [
    (Call::Want(0), IN),
    (Call::Want(2), WAITS),
    (Call::Want(2), Err(16)),
    (Call::Sweep, NOBODY),
    (Call::Sweep, NOBODY),
    (Call::Leave(0), LEFT),
    (Call::Sweep, IN_AFTER_3),
    (Call::Sweep, NOBODY),
    (Call::Leave(2), LEFT),
    (Call::Leave(2), Err(17)),
];

// Each first frame is lost, so that the REQUESTs and the PRIVILEGEs take a sweep longer each.
const SLOWER: [(Call, Answer); 10] = [
    (Call::Want(0), IN),
    (Call::Want(2), WAITS),
    (Call::Sweep, NOBODY),
    (Call::Sweep, NOBODY),
    (Call::Sweep, NOBODY),
    (Call::Sweep, NOBODY),
    (Call::Leave(0), LEFT),
    (Call::Sweep, NOBODY),
    (Call::Sweep, NOBODY),
    (Call::Sweep, IN_AFTER_7),
];

fn answer_to<P: Post>(bank: &mut Bank<P>, call: Call) -> Answer {
    match call {
        Call::Want(n) => bank.want(CabinetNo(n)).map(Said::Wanted),
        Call::Leave(n) => bank.leave(CabinetNo(n)).map(|()| Said::Left),
        Call::Sweep => bank.sweep().map(Said::Swept),
    }
    .map_err(Refusal::number)
}

fn told<P: Post>(
    rt: &impl Abort,
    bank: &mut Bank<P>,
    story: &[(Call, Answer)],
) -> Result<(), Fail> {
    bank.plant(&LINE)?;
    for (call, answer) in story {
        assert_eq!(rt; answer_to(bank, *call), *answer);
    }
    assert_eq!(rt; bank.state(CabinetNo(1)), Ok(Status::Rest));
    Ok(())
}

#[test]
fn over_the_straight_post(rt: HostRuntime) -> Result<(), Fail> {
    let mut bank = Bank::new(Straight::new());
    told(&rt, &mut bank, &WORKED)?;
    assert_eq!(rt; bank.bound(4), Ok(14));
    Ok(())
}

#[test]
fn over_good_wires(rt: HostRuntime) -> Result<(), Fail> {
    let mut bank = Bank::new(over_clean());
    told(&rt, &mut bank, &WORKED)?;
    assert_eq!(rt; bank.bound(4), Ok(20));
    Ok(())
}

#[test]
fn over_bad_wires(rt: HostRuntime) -> Result<(), Fail> {
    let mut bank = Bank::new(over_pattern(1, b"lk")?);
    told(&rt, &mut bank, &SLOWER)?;
    assert_eq!(rt; bank.bound(4), Ok(44));
    Ok(())
}
