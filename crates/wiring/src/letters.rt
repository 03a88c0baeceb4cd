// The letters of one wire, one to sixteen.
mod parse;
mod turn;

ghost use Rattle.std.specs.Prelude.{◌≤◌, length};
ghost use Rattle.cable.specs.Rows.{contents};

use crate::letter::Letter;
use cable::row::Row;

const MOST: usize = 16;

#[derive(Clone, Copy)]
pub struct Letters {
    row: Row<Letter, MOST>,
    ghost some: { 1 ≤ length (contents row) },
}
