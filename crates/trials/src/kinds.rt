// The kinds of posts that are tried, and the trees.
use cable::number::{CabinetNo, WIRES, WireNo};
use cable::refusal::Refusal;
use retry::retry::Retry;
use std::array;
use wiring::clean::Clean;
use wiring::letters::Letters;
use wiring::patterned::Patterned;

// Three cabinets in a line.
pub(crate) const LINE: [CabinetNo; 3] = [CabinetNo(0), CabinetNo(0), CabinetNo(1)];

pub(crate) fn over_clean() -> Retry<Clean> {
    Retry::new(Clean::new())
}

// Every wire has these letters, and loses at most so many frames in a row.
pub(crate) fn over_pattern(misses: u8, text: &[u8]) -> Result<Retry<Patterned>, Refusal> {
    let mut wires = Patterned::new(misses)?;
    let letters = Letters::parse(text).ok_or(Refusal::Malformed)?;
    for w in 0..WIRES as u32 {
        wires.set_pattern(WireNo(w), letters)?;
    }
    Ok(Retry::new(wires))
}

// All sixteen in a line.
pub(crate) fn line() -> [CabinetNo; 16] {
    array::from_fn(|k| CabinetNo(k.saturating_sub(1) as u32))
}

// Fifteen around one.
pub(crate) fn star() -> [CabinetNo; 16] {
    [CabinetNo(0); 16]
}
