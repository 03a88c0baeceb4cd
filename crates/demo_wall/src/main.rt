// A demo wall: buyers want the terminal, pay and leave, sweep after sweep, over a straight post and over a retry post on bad wires.
// Every entry is printed, and at the end the longest wait beside the limit.
#![tactic(auto)]

use bank::bank::Bank;
use bank::calls::Wanted;
use bank::tell::Status;
use cable::number::{CabinetNo, WIRES, WireNo};
use cable::refusal::Refusal;
use post::post::Post;
use post::straight::Straight;
use rand::RngExt;
use rand_pcg::Pcg32;
use retry::retry::Retry;
use std::io;
use std::io::{BufWriter, Write};
use tree::tree::CABINETS;
use wiring::letters::Letters;
use wiring::patterned::Patterned;

const SWEEPS: u32 = 150;

// No buyer stays longer, in sweeps.
const STAY: u32 = 4;

const MISSES: u8 = 3;

// A line of three, and two floors with a cable between them.
const LINE: [CabinetNo; 3] = [CabinetNo(0), CabinetNo(0), CabinetNo(1)];

const FLOORS: [CabinetNo; 7] = [
    CabinetNo(0),
    CabinetNo(0),
    CabinetNo(0),
    CabinetNo(1),
    CabinetNo(3),
    CabinetNo(3),
    CabinetNo(5),
];

// What happens in front of the cabinets: how many sweeps the buyer who is in still stays, and the longest wait so far.
#[derive(Drop)]
struct Buyers {
    generator: Pcg32,
    stay: u32,
    longest: u32,
}

impl Buyers {
    fn new() -> Buyers {
        Buyers {
            generator: Pcg32::new(1989, 1969),
            stay: 0,
            longest: 0,
        }
    }

    // A buyer goes in, after so many sweeps.
    fn enter(&mut self, wait: u32) {
        self.stay = self.generator.random_range(0..STAY);
        self.longest = self.longest.max(wait);
    }

    // Whether the buyer who is in leaves now.
    fn leaves(&mut self) -> bool {
        let over = self.stay == 0;
        self.stay = self.stay.saturating_sub(1);
        over
    }

    // Whether a buyer comes to a cabinet at rest.
    fn comes(&mut self) -> bool {
        self.generator.random_ratio(1, 8)
    }
}

// A bank, the buyers in front of it, and where it is told what happens.
#[derive(Drop)]
struct Show<'a, P, W> {
    bank: Bank<P>,
    buyers: Buyers,
    out: &'a mut W,
}

impl<'a, P: Post + Drop, W: Write> Show<'a, P, W> {
    fn over(post: P, out: &'a mut W) -> Show<'a, P, W> {
        Show {
            bank: Bank::new(post),
            buyers: Buyers::new(),
            out,
        }
    }

    // All cabinets of the wall, and then a sweep, again and again.
    fn run(&mut self, parents: &[CabinetNo]) -> io::Result<()> {
        let cabinets = parents.len().min(CABINETS) as u32;
        match self.bank.plant(parents) {
            Ok(()) => writeln!(self.out, "plant {cabinets}")?,
            Err(why) => writeln!(self.out, "no {why}")?,
        }
        for _ in 0..SWEEPS {
            self.turn(cabinets)?;
        }
        let longest = self.buyers.longest;
        match self.bank.bound(STAY) {
            Ok(limit) => writeln!(self.out, "longest wait {longest}, limit {limit}"),
            Err(why) => writeln!(self.out, "no {why}"),
        }
    }

    fn turn(&mut self, cabinets: u32) -> io::Result<()> {
        for k in 0..cabinets {
            self.visit(CabinetNo(k))?;
        }
        self.sweep()
    }

    // One cabinet, between two sweeps.
    fn visit(&mut self, n: CabinetNo) -> io::Result<()> {
        match self.bank.state(n) {
            Ok(Status::Rest) if self.buyers.comes() => self.want(n),
            Ok(Status::In) if self.buyers.leaves() => self.leave(n),
            Ok(_) => Ok(()),
            Err(why) => writeln!(self.out, "no {why}"),
        }
    }

    fn want(&mut self, n: CabinetNo) -> io::Result<()> {
        let k = n.0;
        match self.bank.want(n) {
            Ok(Wanted::In) => {
                self.buyers.enter(0);
                writeln!(self.out, "want {k}: in")
            }
            Ok(Wanted::Waits) => writeln!(self.out, "want {k}: waits"),
            Err(why) => writeln!(self.out, "no {why}"),
        }
    }

    fn leave(&mut self, n: CabinetNo) -> io::Result<()> {
        let k = n.0;
        match self.bank.leave(n) {
            Ok(()) => writeln!(self.out, "leave {k}"),
            Err(why) => writeln!(self.out, "no {why}"),
        }
    }

    fn sweep(&mut self) -> io::Result<()> {
        match self.bank.sweep() {
            Ok(None) => writeln!(self.out, "sweep: -"),
            Ok(Some(entered)) => {
                let (k, wait) = (entered.cabinet.0, entered.wait);
                self.buyers.enter(wait);
                writeln!(self.out, "sweep: {k} goes in after {wait}")
            }
            Err(why) => writeln!(self.out, "no {why}"),
        }
    }
}

// Wires of three kinds, none of which is good.
fn bad_wires() -> Result<Patterned, Refusal> {
    let mut wires = Patterned::new(MISSES)?;
    for w in 0..WIRES as u32 {
        let text: &[u8] = match w % 3 {
            0 => b"lkd",
            1 => b"llk",
            _ => b"lllkdlk",
        };
        let letters = Letters::parse(text).ok_or(Refusal::Malformed)?;
        wires.set_pattern(WireNo(w), letters)?;
    }
    Ok(wires)
}

fn main(rt: HostRuntime) -> io::Result<()> {
    let mut out = BufWriter::new(rt.alloc(), rt.stdout())?;
    writeln!(out, "three cabinets in a line, over the straight post")?;
    Show::over(Straight::new(), &mut out).run(&LINE)?;
    writeln!(
        out,
        "seven cabinets on two floors, over a retry post on bad wires"
    )?;
    match bad_wires() {
        Ok(wires) => Show::over(Retry::new(wires), &mut out).run(&FLOORS)?,
        Err(why) => writeln!(out, "no {why}")?,
    }
    out.flush()
}
