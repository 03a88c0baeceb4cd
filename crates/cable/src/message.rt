// What cabinets say to their neighbours.
#[derive(Clone, Copy, PartialEq, Eq, Debug)]
pub enum Message {
    // asks for the privilege
    Request,
    // hands the privilege over: a bank has one, and only the cabinet that has it may let its buyer use the terminal
    Privilege,
}
