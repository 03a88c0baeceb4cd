// What every kind of wiring can do. A kind says what it means, as lists of flying frames and spares, and by what rules of its own its
// calls go; laws tie those rules to what a send and a take of any wiring may do.
ghost use Rattle.std.specs.Prelude.{◌≡◌, ℕ, List, Option, Result};
ghost use Rattle.cable.specs.declared.refusal.Refusal.{Refusal};
ghost use Rattle.wiring.specs.Wirings.{WiringModel, WiringSound, Sends, Takes};

use cable::number::WireNo;
use cable::refusal::Refusal;

// A wiring: the sixty wires under a bank's lanes. A wire may lose what is sent over it, but only so many frames in a row, or carry it
// more than once.
pub trait Wiring {
    // The most frames that fly on one wire.
    const DEPTH: usize;

    ghost DEPTH: { ℕ };

    ghost means: { Self → WiringModel };

    // what a send of this kind does: the wiring before, the wire, the frame, the answer, the wiring after
    ghost sends: { Self → ℕ → List ℕ → Result (Unit {0}) Refusal → Self → Type 0 };

    // and what a take does
    ghost takes: { Self → ℕ → Result (Option (List ℕ)) Refusal → Self → Type 0 };

    // The depth, told by a contract.
    fn capacity() -> usize
        ensures value { result ≡ DEPTH }
    {
        Self::DEPTH
    }

    // How many frames in a row a wire may lose.
    fn misses(&self) -> u8
        ensures value { result ≡ (means self.now).misses };

    // Sends a frame over a wire, which may lose it or carry it more than once.
    fn send(&mut self, wire: WireNo, frame: [u8; 3]) -> Result<(), Refusal>
        ensures own { sends self.old wire.0 frame result self.new };

    // Takes the oldest frame off a wire, if one flies.
    fn take(&mut self, wire: WireNo) -> Result<Option<[u8; 3]>, Refusal>
        ensures own { takes self.old wire.0 result self.new };

    ghost sound: { (w : Self) → WiringSound (means w) };

    ghost bounded: { (w : Self) → (means w).depth ≡ DEPTH };

    ghost send_meant: { (w v : Self) (wire : ℕ) (f : List ℕ) (r : Result (Unit {0}) Refusal) → sends w wire f r v → Sends (means w) wire f r (means v) };

    ghost take_meant: { (w v : Self) (wire : ℕ) (r : Result (Option (List ℕ)) Refusal) → takes w wire r v → Takes (means w) wire r (means v) };
}
