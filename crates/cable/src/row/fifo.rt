// The calls of a row with places of its own.
ghost use Rattle.std.specs.Prelude.{◌≡◌, ◌+◌, ◌==◌, ◌<◌, ◌≤◌, [], ◌++◌, length, MatchResult};
ghost use Rattle.std.specs.List.{IsAnyAnswer, slice_get};
ghost use Rattle.cable.specs.Rows.{contents, joined, joins, oldest, rest};

use crate::row::lent::LentRow;
use crate::row::{Full, Row};

impl<T, const N: usize> Row<T, N> {
    // How many stand in the row.
    pub fn len(&self) -> usize
        ensures value { result ≡ length (contents self.now) }
        ensures few { result ≤ N }
    {
        self.row.len(&self.places)
    }

    pub fn is_empty(&self) -> bool
        ensures value { result ≡ (length (contents self.now) == 0) }
    {
        self.as_slice().is_empty()
    }

    // All that stand in the row, the oldest first.
    pub fn as_slice(&self) -> &[T]
        ensures value { result.now ≡ contents self.now }
        ensures few { length result.now ≤ N }
    {
        self.row.as_slice(&self.places)
    }
}

impl<T: Copy, const N: usize> Row<T, N> {
    // A row in which nothing stands. The blank fills the free places, and is in no answer.
    pub fn new(blank: T) -> Row<T, N>
        ensures value { contents result ≡ [] }
    {
        Row {
            places: [blank; N],
            row: LentRow::new(),
        }
    }

    // Nothing stands in the row any more.
    pub fn clear(&mut self)
        ensures after { contents self.new ≡ [] }
    {
        self.row = LentRow::new();
    }

    // The row in which these stand, if they are not more than N.
    pub fn from_slice(blank: T, xs: &[T]) -> Result<Row<T, N>, Full>
        ensures cases { MatchResult result (λ row. contents row ≡ xs.now × (length xs.now ≤ N)) (λ _. N < length xs.now) }
    {
        let mut row = Row::new(blank);
        row.extend_from_slice(xs)?;
        Ok(row)
    }

    // The one that has i others before it.
    pub fn get(&self, i: usize) -> Option<T>
        ensures value { result ≡ slice_get (contents self.now) i }
    {
        self.row.get(&self.places, i)
    }

    // Whether x stands in the row.
    pub fn contains(&self, x: T) -> bool
    where
        T: PartialEq,
        ensures cases { IsAnyAnswer (λ y. (λ r'. r' ≡ T.PartialEq.eq y x)) (contents self.now) result }
    {
        self.row.contains(&self.places, x)
    }

    // Puts x behind all others, if a place is free.
    pub fn join(&mut self, x: T) -> Result<(), Full>
        ensures value { result ≡ joins (contents self.old) N }
        ensures after { contents self.new ≡ joined (contents self.old) N x }
    {
        self.row.join(&mut self.places, x)
    }

    // Puts these behind all others, in their order, if places are free for all of them.
    pub fn extend_from_slice(&mut self, xs: &[T]) -> Result<(), Full>
        ensures cases { MatchResult result (λ _. (contents self.new ≡ contents self.old ++ xs.now) × (length (contents self.old) + length xs.now ≤ N)) (λ _. (contents self.new ≡ contents self.old) × (N < length (contents self.old) + length xs.now)) }
    {
        self.row.extend_from_slice(&mut self.places, xs)
    }

    // Takes the oldest out, if there is one.
    pub fn leave(&mut self) -> Option<T>
        ensures value { result ≡ oldest (contents self.old) }
        ensures after { contents self.new ≡ rest (contents self.old) }
    {
        self.row.leave(&mut self.places)
    }
}
