// A planted tree, as its list of parents.
ghost use Rattle.std.specs.Prelude.{◌≡◌, ◌≤◌, true, length};
ghost use Rattle.cable.specs.Rows.{contents};
ghost use Rattle.tree.specs.Trees.{ordered};

use cable::number::CabinetNo;
use cable::row::Row;

mod lanes;
pub mod neighbours;
mod parents;
pub mod plant;

// As many cabinets as a bank may have.
pub const CABINETS: usize = 16;

// Entry k is the parent of cabinet k.
#[derive(Clone, Copy)]
pub struct Tree {
    parents: Row<CabinetNo, CABINETS>,
    ghost some: { 1 ≤ length (contents parents) },
    ghost grown: { ordered 0 (contents parents) ≡ true },
}
