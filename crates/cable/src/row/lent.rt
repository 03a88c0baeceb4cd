// First in, first out, over places that are lent: their owner keeps them, as a slice of any length, and hands them to each call.
ghost use Rattle.std.specs.Prelude.{◌≡◌, ◌+◌, ◌<◌, ◌≤◌, ◌++◌, length, MatchResult};
ghost use Rattle.std.specs.List.{IsAnyAnswer, slice_get};
ghost use Rattle.cable.specs.Rows.{contents_over, joined, joins, oldest, rest};

use crate::row::Full;

// How many of the places are taken, from the first on. Where fewer are lent than are taken, the row holds what there is; a row that keeps
// within what is lent goes on to (`room`), so that it holds no more when more are lent.
#[derive(Clone, Copy, Debug)]
pub struct LentRow {
    taken: usize,
}

impl LentRow {
    // A row in which nothing stands, whatever the places hold.
    pub fn new() -> LentRow
        ensures value { result.taken ≡ 0 }
    {
        LentRow { taken: 0 }
    }

    // How many stand in the row.
    pub fn len<T>(&self, places: &[T]) -> usize
        ensures value { result ≡ length (contents_over self.now places.now) }
    {
        self.as_slice(places).len()
    }

    // All that stand in the row, the oldest first.
    pub fn as_slice<'a, T>(&self, places: &'a [T]) -> &'a [T]
        ensures value { result.now ≡ contents_over self.now places.now }
    {
        &places[..self.taken.min(places.len())]
    }

    // The one that has i others before it.
    pub fn get<T: Copy>(&self, places: &[T], i: usize) -> Option<T>
        ensures value { result ≡ slice_get (contents_over self.now places.now) i }
    {
        self.as_slice(places).get(i).copied()
    }

    // Whether x stands in the row.
    pub fn contains<T: Copy + PartialEq>(&self, places: &[T], x: T) -> bool
        ensures cases { IsAnyAnswer (λ y. (λ r'. r' ≡ T.PartialEq.eq y x)) (contents_over self.now places.now) result }
    {
        self.as_slice(places).contains(&x)
    }

    // Puts x behind all others, if a place is free.
    pub fn join<T: Copy>(&mut self, places: &mut [T], x: T) -> Result<(), Full>
        ensures value { result ≡ joins (contents_over self.old places.old) (length places.old) }
        ensures after { contents_over self.new places.new ≡ joined (contents_over self.old places.old) (length places.old) x }
        ensures room { self.old.taken ≤ length places.old → self.new.taken ≤ length places.new }
    {
        let n = self.len(places);
        if n >= places.len() {
            return Err(Full);
        }
        places[n] = x;
        self.taken = n + 1;
        Ok(())
    }

    // Puts these behind all others, in their order, if places are free for all of them.
    pub fn extend_from_slice<T: Copy>(&mut self, places: &mut [T], xs: &[T]) -> Result<(), Full>
        ensures cases { MatchResult result (λ _. (contents_over self.new places.new ≡ contents_over self.old places.old ++ xs.now) × (length (contents_over self.old places.old) + length xs.now ≤ length places.old)) (λ _. (contents_over self.new places.new ≡ contents_over self.old places.old) × (length places.old < length (contents_over self.old places.old) + length xs.now)) }
        ensures room { self.old.taken ≤ length places.old → self.new.taken ≤ length places.new }
    {
        let n = self.len(places);
        if xs.len() > places.len() - n {
            return Err(Full);
        }
        let end = n + xs.len();
        places[n..end].copy_from_slice(xs);
        self.taken = end;
        Ok(())
    }

    // Takes the oldest out, if there is one.
    pub fn leave<T: Copy>(&mut self, places: &mut [T]) -> Option<T>
        ensures value { result ≡ oldest (contents_over self.old places.old) }
        ensures after { contents_over self.new places.new ≡ rest (contents_over self.old places.old) }
        ensures room { self.old.taken ≤ length places.old → self.new.taken ≤ length places.new }
    {
        let n = self.len(places);
        let first = *places[..n].first()?;
        places[..n].rotate_left(1);
        self.taken = n - 1;
        Some(first)
    }
}
