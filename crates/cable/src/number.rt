// The three kinds of numbers, each its own type, so that none passes for another. A number that is too large can be held: the
// call that is given it refuses it.
ghost use Rattle.std.specs.Prelude.{◌≡◌};
ghost use Rattle.cable.specs.Numbers.{place_in, cabinet_index, lane_index, wire_index};

use crate::refusal::Refusal;

pub const LANES: usize = 30;

pub const WIRES: usize = 60;

// A cabinet: one vending machine of a bank, a node of its tree.
#[derive(Clone, Copy, PartialEq, Eq, Debug)]
pub struct CabinetNo(pub u32);

// A lane: one direction of the cable between two neighbours.
#[derive(Clone, Copy, PartialEq, Eq, Debug)]
pub struct LaneNo(pub u32);

// A wire: what carries bytes, one way. A lane of the retry post has two, for its frames and for their acknowledgements.
#[derive(Clone, Copy, PartialEq, Eq, Debug)]
pub struct WireNo(pub u32);

impl CabinetNo {
    // The cabinet's place in a table of so many cabinets.
    pub fn index(self, cabinets: usize) -> Result<usize, Refusal>
        ensures value { result ≡ cabinet_index self cabinets }
    {
        place(self.0, cabinets, Refusal::NoSuchCabinet)
    }
}

impl LaneNo {
    // The lane's place in a table of all lanes.
    pub fn index(self) -> Result<usize, Refusal>
        ensures value { result ≡ lane_index self }
    {
        place(self.0, LANES, Refusal::NoSuchLane)
    }
}

impl WireNo {
    // The wire's place in a table of all wires.
    pub fn index(self) -> Result<usize, Refusal>
        ensures value { result ≡ wire_index self }
    {
        place(self.0, WIRES, Refusal::NoSuchWire)
    }
}

fn place(n: u32, count: usize, absent: Refusal) -> Result<usize, Refusal>
    ensures value { result ≡ place_in n count absent }
{
    let i = n as usize;
    if i < count { Ok(i) } else { Err(absent) }
}
