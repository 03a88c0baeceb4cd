// First-in first-out rows, for every kind of element. What a row does is written once, over places that are lent to it; a `Row` has N
// places of its own, which it lends to the row in it.
mod fifo;
pub mod lent;

ghost use Rattle.std.specs.Prelude.{◌≡◌, ◌≤◌, length};

use crate::row::lent::LentRow;
use std::alloc::AllocError;

#[derive(Debug)]
pub struct Row<T, const N: usize> {
    places: [T; N],
    // says how many of them are taken; the others are free
    row: LentRow,
    ghost few: { row.taken ≤ N },
    ghost whole: { length places ≡ N },
}

// By hand: `Clone` cannot be derived for a struct with a ghost field and a type parameter.
impl<T: Copy, const N: usize> Clone for Row<T, N> {
    ghost is_clone = { λ x y. y ≡ x };

    ghost is_infallible = { λ _. Unit {0} };

    fn clone(&self) -> Result<Row<T, N>, AllocError> {
        Ok(*self)
    }
}

impl<T: Copy, const N: usize> Copy for Row<T, N> {}

// No place is free, or not enough are.
#[derive(Clone, Copy, PartialEq, Eq, Debug)]
pub struct Full;
