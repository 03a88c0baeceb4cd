// A wire of a fixed depth: no more frames ever fly on it.
mod fly;

ghost use Rattle.std.specs.Prelude.{◌≤◌, length};
ghost use Rattle.cable.specs.Rows.{contents};

use cable::row::Row;

// No wiring lets more frames fly on a wire.
pub const DEEPEST: usize = 8;

// A wire, as a wiring keeps it: the frames that fly on it, the oldest first.
#[derive(Clone, Copy)]
pub struct Wire<const DEPTH: usize> {
    // Sent, and not yet taken. DEEPEST places, not DEPTH: by the contract a depth above the deepest counts as the deepest.
    flying: Row<[u8; 3], DEEPEST>,
    ghost few: { length (contents flying) ≤ DEPTH },
}
