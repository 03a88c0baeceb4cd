// Who holds the privilege, or asks for it, as one cabinet sees it. No `Option`: the cabinet itself is somebody.
ghost use Rattle.std.specs.Prelude.{◌≡◌};
ghost use Rattle.cabinet.specs.Models.{neighbour};

use cable::number::CabinetNo;

#[derive(Clone, Copy, PartialEq, Eq)]
pub enum Party {
    // the cabinet itself
    Own,
    Neighbour(CabinetNo),
}

impl Party {
    // The neighbour that it is, if it is one.
    pub(crate) fn neighbour(self) -> Option<CabinetNo>
        ensures value { result ≡ neighbour self }
    {
        match self {
            Party::Own => None,
            Party::Neighbour(n) => Some(n),
        }
    }
}
