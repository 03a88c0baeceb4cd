// How long each cabinet has waited, in sweeps.
ghost use Rattle.std.specs.Prelude.{◌≡◌, ◌+◌, ◌≤◌, min, map, length, replicate, if◌then◌else◌, slice_index, slice_set};
ghost use Rattle.cabinet.specs.Cabinets.{model_of};
ghost use Rattle.cabinet.specs.Models.{waits};
ghost use Rattle.cabinet.specs.Tables.{view_of};
ghost use Rattle.promise.specs.Sweeps.{counted};
ghost use Rattle.bank.specs.Banks.{counts_of};

use cabinet::cabinet::Cabinet;
use cabinet::cabinet::phase::Phase;
use cable::number::CabinetNo;
use tree::tree::CABINETS;

#[derive(Clone, Copy)]
pub struct Waits {
    // beside the table and not in it: a record is the cabinet's, and how long it has waited is the bank's
    counts: [u32; CABINETS],
}

impl Waits {
    // Nobody has waited yet.
    pub(crate) fn new() -> Waits
        ensures value { counts_of result ≡ replicate 16 0 }
    {
        Waits {
            counts: [0; CABINETS],
        }
    }

    // A sweep begins: one more for each cabinet that waits.
    pub(crate) fn grow(&mut self, cabinets: &[Cabinet; CABINETS])
        ensures after { counts_of self.new ≡ counted (map view_of cabinets.now) (counts_of self.old) }
    {
        lengthen(&mut self.counts, cabinets);
    }

    pub(crate) fn at(&self, n: CabinetNo) -> u32
        ensures value { result ≡ slice_index (counts_of self.now) n.0 }
    {
        n.index(CABINETS).map_or(0, |k| self.counts[k])
    }

    // A want is done: the count begins again.
    pub(crate) fn restart(&mut self, n: CabinetNo)
        ensures after { counts_of self.new ≡ slice_set (counts_of self.old) n.0 0 }
    {
        if let Ok(k) = n.index(CABINETS) {
            self.counts[k] = 0;
        }
    }
}

// Each cabinet's count has the place of its number, which the loop brings along.
fn lengthen(counts: &mut [u32; CABINETS], cabinets: &[Cabinet; CABINETS])
    ensures after { counts.new ≡ counted (map view_of cabinets.now) counts.old }
{
    for (k, cabinet) in cabinets.iter().enumerate() {
        counts[k] = longer(counts[k], cabinet);
    }
}

// One more if the cabinet waits, as long as the number can grow.
fn longer(count: u32, cabinet: &Cabinet) -> u32
    ensures value { result ≡ (if waits (model_of cabinet.now) then min (count + 1) 4294967295 else count) }
{
    match cabinet.phase() {
        Phase::Waits => count.saturating_add(1),
        _ => count,
    }
}
