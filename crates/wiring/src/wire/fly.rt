// How frames come to fly on a wire, and leave.
ghost use Rattle.std.specs.Prelude.{◌≡◌, min, [], length};
ghost use Rattle.cable.specs.Rows.{joined, oldest, rest};
ghost use Rattle.wiring.specs.Wires.{deepest, flying_on, flies};

use crate::wire::Wire;
use cable::refusal::Refusal;
use cable::row::Row;

impl<const DEPTH: usize> Wire<DEPTH> {
    // A wire on which nothing flies.
    pub fn new() -> Wire<DEPTH>
        ensures value { flying_on result ≡ [] }
    {
        Wire {
            flying: Row::new([0; 3]),
        }
    }

    // How many frames fly.
    pub fn len(&self) -> usize
        ensures value { result ≡ length (flying_on self.now) }
    {
        self.flying.len()
    }

    // Lets a frame fly behind all others, unless the wire is full: `DEPTH` counts up to the row's length.
    pub fn add(&mut self, frame: [u8; 3]) -> Result<(), Refusal>
        ensures value { result ≡ flies (flying_on self.old) (min DEPTH deepest) }
        ensures after { flying_on self.new ≡ joined (flying_on self.old) (min DEPTH deepest) frame }
    {
        if self.len() >= DEPTH {
            return Err(Refusal::WireFull);
        }
        self.flying.join(frame).map_err(|_| Refusal::WireFull)
    }

    // Takes the oldest frame off the wire, if one flies.
    pub fn leave(&mut self) -> Option<[u8; 3]>
        ensures value { result ≡ oldest (flying_on self.old) }
        ensures after { flying_on self.new ≡ rest (flying_on self.old) }
    {
        self.flying.leave()
    }
}
