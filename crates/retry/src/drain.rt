// Taking what flies on a wire.
ghost use Rattle.std.specs.Prelude.{◌≡◌, ℕ, List};
ghost use Rattle.std.specs.List.{FoldsTo};
ghost use Rattle.alternating.specs.Rounds.{Drains};

use crate::link::ValidWire;
use wiring::wiring::Wiring;

// Takes frame after frame until nothing flies, and makes something of each and of what was made before. No wiring refuses a take
// from a wire that there is.
pub(crate) fn drain<W: Wiring, S, F: Fn(S, [u8; 3]) -> S>(
    wiring: &mut W,
    wire: ValidWire,
    start: S,
    make: F,
) -> S
    requires callable { F.IsAlwaysCallable make }
    ensures drains { (frames : List (List ℕ)) × (Drains W.takes wire.number.0 wiring.old frames wiring.new × FoldsTo (F.post make) start frames result) }
{
    let mut made = start;
    while let Ok(Some(frame)) = wiring.take(wire.number) {
        made = make(made, frame);
    }
    made
}
