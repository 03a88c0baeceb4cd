// How many frames in a row a wire may lose. The bound stands in a type of its own: a struct with a bound lends no
// element of an array in it.
mod limit;

ghost use Rattle.std.specs.Prelude.{◌≤◌};

#[derive(Clone, Copy)]
pub struct Misses {
    pub(crate) most: u8,
    ghost few: { most ≤ 15 },
}
