// A lane as it stands between calls. One that receives bytes that nobody sent need not stay so: hence a type of its own.
mod calls;

ghost use Rattle.std.specs.Prelude.{◌≡◌, ◌≤◌, true, length, None};
ghost use Rattle.alternating.specs.Lanes.{lane_model, same, waiting_in};

use alternating::lane::Lane;

#[derive(Clone, Copy)]
pub struct KeptLane {
    lane: Lane,
    // with nothing outstanding the row is empty
    ghost idle: { (lane_model lane).outstanding ≡ None → length (lane_model lane).behind ≡ 0 },
    // and the bits are the same
    ghost level: { (lane_model lane).outstanding ≡ None → same (lane_model lane).sending (lane_model lane).expected ≡ true },
    ghost few: { length (waiting_in (lane_model lane)) ≤ 4 },
}
