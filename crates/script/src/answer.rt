// What came of a line that was done.
use bank::calls::Wanted;
use bank::sweep::Entered;
use cable::number::CabinetNo;

#[derive(Clone, Copy, PartialEq, Eq, Debug)]
pub enum Answer {
    // it is kept for later, and nothing is printed
    Noted,
    // so many cabinets
    Planted(u32),
    Wanted(CabinetNo, Wanted),
    Left(CabinetNo),
    // in so many sweeps, who went in last
    Swept(u32, Option<Entered>),
    // for stays of so many sweeps, the limit
    Bound(u32, u32),
}
