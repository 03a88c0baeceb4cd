// Buyers in great numbers come and go: after every entry there is one privilege, and nobody has waited longer than the limit.
use crate::kinds::{line, over_clean, over_pattern, star};
use crate::watched::{Location, Watched};
use bank::bank::Bank;
use bank::calls::Wanted;
use bank::tell::Status;
use cable::number::CabinetNo;
use post::post::Post;
use post::straight::Straight;
use rand::RngExt;
use rand_pcg::Pcg32;
use std::alloc::Global;
use std::cell::Cell;
use std::process::Abort;
use std::rc::Rc;
use std::test::*;
use tree::tree::{CABINETS, Tree};

// No buyer stays longer, in sweeps.
const STAY: u32 = 3;

// A bank whose post is watched, and the buyers in front of it.
#[derive(Drop)]
struct Trial<P> {
    bank: Bank<Watched<P>>,
    location: Rc<Cell<Location>>,
    cabinets: u32,
    generator: Pcg32,
    // for how many sweeps more the buyer who is in stays
    stay: u32,
}

impl<P: Post + Drop> Trial<P> {
    fn new(alloc: Global, post: P, parents: &[CabinetNo]) -> Result<Trial<P>, Fail> {
        let location = Rc::new(alloc, Cell::new(Location::At(0)))?;
        let watched = Watched::new(post, Tree::plant(parents)?, location.clone()?);
        let mut bank = Bank::new(watched);
        bank.plant(parents)?;
        Ok(Trial {
            bank,
            location,
            cabinets: parents.len().min(CABINETS) as u32,
            generator: Pcg32::new(1969, 1989),
            stay: 0,
        })
    }

    // After an entry: who is in has the one privilege, and no wait is over the limit.
    fn sound(&self, rt: &impl Abort) -> Result<(), Fail> {
        let location = self.location.get();
        let limit = self.bank.bound(STAY)?;
        assert_ne!(rt; location, Location::Astray);
        for k in 0..self.cabinets {
            match self.bank.state(CabinetNo(k))? {
                Status::In => assert_eq!(rt; location, Location::At(k)),
                Status::Waits(count) => assert!(rt; count <= limit),
                Status::Rest => {}
            }
        }
        Ok(())
    }

    fn visit(&mut self, n: CabinetNo) -> Result<(), Fail> {
        match self.bank.state(n)? {
            Status::Rest if self.generator.random_ratio(1, 3) => {
                if self.bank.want(n)? == Wanted::In {
                    self.stay = STAY;
                }
            }
            Status::In if self.stay <= 1 || self.generator.random_ratio(1, 2) => self
                .bank
                .leave(n)?,
            Status::In => self.stay = self.stay.saturating_sub(1),
            _ => {}
        }
        Ok(())
    }

    // Every cabinet once, and then a sweep. Whether somebody went in on the sweep.
    fn turn(&mut self, rt: &impl Abort) -> Result<bool, Fail> {
        for k in 0..self.cabinets {
            self.visit(CabinetNo(k))?;
            self.sound(rt)?;
        }
        let entered = self.bank.sweep()?.is_some();
        if entered {
            self.stay = STAY;
        }
        self.sound(rt)?;
        Ok(entered)
    }
}

// Buyers come and go for so many sweeps, and on a good part of these somebody goes in.
fn run<P: Post + Drop>(
    rt: &impl Abort,
    alloc: Global,
    post: P,
    parents: &[CabinetNo],
    sweeps: u32,
) -> Result<(), Fail> {
    let mut trial = Trial::new(alloc, post, parents)?;
    let mut served: u32 = 0;
    for _ in 0..sweeps {
        if trial.turn(rt)? {
            served = served.saturating_add(1);
        }
    }
    assert!(rt; served > sweeps / 40);
    Ok(())
}

#[test]
fn a_line_over_the_straight_post(rt: HostRuntime) -> Result<(), Fail> {
    run(&rt, rt.alloc(), Straight::new(), &line(), 2000)
}

#[test]
fn a_star_over_the_straight_post(rt: HostRuntime) -> Result<(), Fail> {
    run(&rt, rt.alloc(), Straight::new(), &star(), 2000)
}

#[test]
fn a_star_over_good_wires(rt: HostRuntime) -> Result<(), Fail> {
    run(&rt, rt.alloc(), over_clean(), &star(), 500)
}

#[test]
fn a_line_over_bad_wires(rt: HostRuntime) -> Result<(), Fail> {
    run(&rt, rt.alloc(), over_pattern(5, b"lldllk")?, &line(), 2000)
}
