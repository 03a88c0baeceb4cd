// What happens to a cabinet, and what it then does.
use cable::number::CabinetNo;

#[derive(Clone, Copy)]
pub enum Event {
    // its buyer wants the terminal
    Want,
    // its buyer is done with the terminal
    Leave,
    // a neighbour asks for the privilege
    Request(CabinetNo),
    // a neighbour hands the privilege over
    Privilege(CabinetNo),
}

// What comes of an event that is done. The privilege is to be sent before the request.
#[derive(Clone, Copy)]
pub struct Reaction {
    // the cabinet went in: a fact of its own, and no flag for what stands beside it
    pub entered: bool,
    // whom PRIVILEGE is to be sent
    pub privilege: Option<CabinetNo>,
    // whom REQUEST is to be sent then
    pub request: Option<CabinetNo>,
}
