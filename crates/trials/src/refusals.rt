// Every refusal that a call can meet, by its number.
use crate::kinds::{LINE, over_clean};
use bank::bank::Bank;
use cabinet::event::Event;
use cabinet::table::Table;
use cable::frame::Frame;
use cable::message::Message;
use cable::number::{CabinetNo, LaneNo, WireNo};
use cable::refusal::Refusal;
use post::post::Post;
use post::straight::Straight;
use std::process::Abort;
use std::test::*;
use tree::tree::Tree;
use wiring::clean::Clean;
use wiring::letters::Letters;
use wiring::patterned::Patterned;
use wiring::wiring::Wiring;

// The number of a refusal, as a customer reads it; none of a call that is done.
fn number<T: Drop>(r: Result<T, Refusal>) -> Option<u8> {
    r.err().map(Refusal::number)
}

#[test]
fn a_bare_bank_refuses(rt: HostRuntime) -> Result<(), Fail> {
    let mut bank = Bank::new(Straight::new());
    assert_eq!(rt; number(bank.want(CabinetNo(99))), Some(10));
    assert_eq!(rt; number(bank.leave(CabinetNo(0))), Some(10));
    assert_eq!(rt; number(bank.sweep()), Some(10));
    assert_eq!(rt; number(bank.state(CabinetNo(0))), Some(10));
    assert_eq!(rt; number(bank.waiter()), Some(10));
    assert_eq!(rt; number(bank.bound(65_536)), Some(7));
    assert_eq!(rt; number(bank.bound(65_535)), Some(10));
    assert_eq!(rt; number(bank.plant(&[])), Some(12));
    assert_eq!(rt; number(bank.plant(&[CabinetNo(0); 17])), Some(12));
    assert_eq!(rt; number(bank.plant(&[CabinetNo(1)])), Some(13));
    assert_eq!(rt; number(bank.plant(&[CabinetNo(0), CabinetNo(1)])), Some(13));
    assert_eq!(rt; number(bank.plant(&LINE)), None);
    Ok(())
}

#[test]
fn a_planted_bank_refuses(rt: HostRuntime) -> Result<(), Fail> {
    let mut bank = Bank::new(Straight::new());
    bank.plant(&LINE)?;
    assert_eq!(rt; number(bank.plant(&[])), Some(11));
    assert_eq!(rt; number(bank.want(CabinetNo(3))), Some(15));
    assert_eq!(rt; number(bank.leave(CabinetNo(16))), Some(15));
    assert_eq!(rt; number(bank.state(CabinetNo(3))), Some(15));
    assert_eq!(rt; number(bank.leave(CabinetNo(0))), Some(17));
    assert_eq!(rt; number(bank.want(CabinetNo(0))), None);
    assert_eq!(rt; number(bank.want(CabinetNo(0))), Some(16));
    assert_eq!(rt; number(bank.want(CabinetNo(2))), None);
    assert_eq!(rt; number(bank.want(CabinetNo(2))), Some(16));
    assert_eq!(rt; number(bank.leave(CabinetNo(2))), Some(17));
    assert_eq!(rt; number(bank.bound(65_536)), Some(7));
    Ok(())
}

#[test]
fn a_bank_over_a_post_with_a_message_refuses(rt: HostRuntime) -> Result<(), Fail> {
    let mut post = Straight::new();
    post.put(LaneNo(29), Message::Request)?;
    let mut bank = Bank::new(post);
    assert_eq!(rt; number(bank.plant(&[CabinetNo(1)])), Some(13));
    assert_eq!(rt; number(bank.plant(&LINE)), Some(14));
    assert_eq!(rt; number(bank.sweep()), Some(10));
    Ok(())
}

fn post_refuses<P: Post>(rt: &impl Abort, post: &mut P) -> Result<(), Fail> {
    assert_eq!(rt; number(post.put(LaneNo(30), Message::Request)), Some(9));
    assert_eq!(rt; number(post.pull(LaneNo(30))), Some(9));
    assert_eq!(rt; number(post.count(LaneNo(30))), Some(9));
    for _ in 0..4 {
        assert_eq!(rt; number(post.put(LaneNo(29), Message::Privilege)), None);
    }
    assert_eq!(rt; number(post.put(LaneNo(29), Message::Request)), Some(21));
    assert_eq!(rt; number(post.put(LaneNo(28), Message::Request)), None);
    assert_eq!(rt; post.count(LaneNo(29)), Ok(4));
    Ok(())
}

#[test]
fn posts_refuse(rt: HostRuntime) -> Result<(), Fail> {
    post_refuses(&rt, &mut Straight::new())?;
    post_refuses(&rt, &mut over_clean())
}

fn wiring_refuses<W: Wiring>(rt: &impl Abort, wires: &mut W) -> Result<(), Fail> {
    assert_eq!(rt; number(wires.send(WireNo(60), [0x10, 5, 0xea])), Some(8));
    assert_eq!(rt; number(wires.take(WireNo(60))), Some(8));
    for _ in 0..W::capacity() {
        assert_eq!(rt; number(wires.send(WireNo(59), [1, 2, 3])), None);
    }
    assert_eq!(rt; number(wires.send(WireNo(59), [1, 2, 3])), Some(22));
    assert_eq!(rt; number(wires.send(WireNo(58), [1, 2, 3])), None);
    assert_eq!(rt; wires.take(WireNo(59)), Ok(Some([1, 2, 3])));
    Ok(())
}

#[test]
fn wirings_refuse(rt: HostRuntime) -> Result<(), Fail> {
    wiring_refuses(&rt, &mut Clean::new())?;
    assert_eq!(rt; number(Patterned::new(16)), Some(7));
    let mut wires = Patterned::new(15)?;
    assert_eq!(rt;
        number(wires.set_pattern(WireNo(60), Letters::keep())),
        Some(8)
    );
    wiring_refuses(&rt, &mut wires)
}

#[test]
fn cabinets_refuse(rt: HostRuntime) -> Result<(), Fail> {
    let mut table = Table::planted(&Tree::plant(&LINE)?);
    assert_eq!(rt;
        number(table.react(CabinetNo(0), Event::Request(CabinetNo(2)))),
        Some(18)
    );
    assert_eq!(rt;
        number(table.react(CabinetNo(0), Event::Privilege(CabinetNo(0)))),
        Some(18)
    );
    assert_eq!(rt;
        number(table.react(CabinetNo(1), Event::Request(CabinetNo(0)))),
        Some(19)
    );
    assert_eq!(rt;
        number(table.react(CabinetNo(1), Event::Request(CabinetNo(2)))),
        None
    );
    assert_eq!(rt;
        number(table.react(CabinetNo(1), Event::Request(CabinetNo(2)))),
        Some(19)
    );
    assert_eq!(rt;
        number(table.react(CabinetNo(1), Event::Privilege(CabinetNo(2)))),
        Some(20)
    );
    assert_eq!(rt;
        number(table.react(CabinetNo(2), Event::Privilege(CabinetNo(1)))),
        Some(20)
    );
    assert_eq!(rt; number(table.react(CabinetNo(16), Event::Want)), Some(15));
    Ok(())
}

#[test]
fn frames_refuse(rt: HostRuntime) -> Result<(), Fail> {
    assert_eq!(rt; number(Frame::decode(&[0x10, 5])), Some(23));
    assert_eq!(rt; number(Frame::decode(&[0x10, 5, 0xea, 0])), Some(23));
    assert_eq!(rt; number(Frame::decode(&[0x12, 0, 0xed])), Some(24));
    assert_eq!(rt; number(Frame::decode(&[0x10, 0x1e, 0xd1])), Some(25));
    assert_eq!(rt; number(Frame::decode(&[0x10, 5, 0xeb])), Some(26));
    assert_eq!(rt; number(Frame::decode(&[0x10, 5, 0xea])), None);
    Ok(())
}
