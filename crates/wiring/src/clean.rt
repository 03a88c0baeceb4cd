// The wiring that carries every frame exactly once.
ghost use Rattle.std.specs.Prelude.{◌≡◌, ℕ, ◌≤◌, [], ◌∷◌, ◌++◌, map, length, slice_index_or};
ghost use Rattle.std.proofs.Common.{arith, rules};
ghost use Rattle.wiring.specs.Wires.{flying_on};
ghost use Rattle.wiring.specs.Clean.{clean_depth, flights_of, clean_means, CleanSends, CleanTakes};
ghost use Rattle.wiring.specs.Meaning.{keeps_copies, send_meant_so};
ghost use Rattle.cable.proofs.Tables.{of_every};

use crate::wire::Wire;
use crate::wiring::Wiring;
use cable::number::{WIRES, WireNo};
use cable::refusal::Refusal;

// As many frames as may fly on one wire. With `<Clean as Wiring>::DEPTH` in the struct in its place the checker says: "this array
// length depends on itself".
const CLEAN_DEPTH: usize = 4;

// No frame is lost.
const MISSES: u8 = 0;

#[derive(Clone, Copy)]
pub struct Clean {
    flights: [Wire<CLEAN_DEPTH>; WIRES],
}

impl Clean {
    // Nothing flies on any wire.
    pub fn new() -> Clean
        ensures value { (k : ℕ) → flights_of result k ≡ [] }
    {
        Clean {
            flights: new_flights(),
        }
    }
}

// Beside `new`: that sixty alike are blank is proved by hand, and the rest of `new` is not. A generic function of this form is
// `[x; N]` itself: what differs from kind to kind is what the elements mean, and that is the contract.
fn new_flights() -> [Wire<CLEAN_DEPTH>; WIRES]
    ensures value { (k : ℕ) → slice_index_or (map flying_on result) k [] ≡ [] }
{
    [Wire::new(); WIRES]
}

impl Wiring for Clean {
    const DEPTH: usize = CLEAN_DEPTH;

    ghost DEPTH = { clean_depth };

    ghost means = { clean_means };

    ghost sends = { CleanSends };

    ghost takes = { CleanTakes };

    ghost sound = { λ w.
        record {
          few = omega arith;
          some_depth = omega arith;
          small_depth = omega arith;
          spares = λ k. omega arith;
          flights = of_every flying_on [] (λ fs. length fs ≤ clean_depth) (omega arith) (λ f. f.few) w.flights;
        } };

    ghost bounded = { Prim.search rules };

    ghost send_meant = { λ w v wire f r.
        send_meant_so clean_depth 0 (λ l. l) (λ l. 0) f (λ l. l ++ f ∷ []) (flights_of w) (flights_of v) wire r
        (λ l e. keeps_copies clean_depth 0 (λ l. l) (λ l. 0) f wire (flights_of w) (flights_of v) 1 (omega arith) e (omega arith) (omega arith)) };

    ghost take_meant = { Prim.search rules };

    fn misses(&self) -> u8 {
        MISSES
    }

    #[tactic(auto, using(cable::proofs::Tables::one_written))]
    fn send(&mut self, wire: WireNo, frame: [u8; 3]) -> Result<(), Refusal> {
        self.flights[wire.index()?].add(frame)
    }

    #[tactic(auto, using(cable::proofs::Tables::one_written))]
    fn take(&mut self, wire: WireNo) -> Result<Option<[u8; 3]>, Refusal> {
        Ok(self.flights[wire.index()?].leave())
    }
}
