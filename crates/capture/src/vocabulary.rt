// The words of a frame: its kind and its bit.
ghost use Rattle.std.specs.Prelude.{◌≡◌};
ghost use Rattle.capture.specs.Vocabulary.{kind_name, kind_named, kinds, bit_named};

use cable::frame::{Bit, Kind};
use cable::message::Message;

// The name of the kind: `kind_named` gives the kind back.
pub fn kind_name(kind: Kind) -> &'static str
    ensures value { result.now ≡ kind_name kind }
{
    match kind {
        Kind::Carry(Message::Request) => "REQUEST",
        Kind::Carry(Message::Privilege) => "PRIVILEGE",
        Kind::Answer => "ANSWER",
    }
}

// The kind of this name, if there is one.
pub fn kind_named(field: &[u8]) -> Option<Kind>
    ensures value { result ≡ kind_named field.now kinds }
{
    match field {
        b"REQUEST" => Some(Kind::Carry(Message::Request)),
        b"PRIVILEGE" => Some(Kind::Carry(Message::Privilege)),
        b"ANSWER" => Some(Kind::Answer),
        _ => None,
    }
}

// The bit that the field is, if it is one.
pub fn bit_named(field: &[u8]) -> Option<Bit>
    ensures value { result ≡ bit_named field.now }
{
    match field {
        b"0" => Some(Bit::Zero),
        b"1" => Some(Bit::One),
        _ => None,
    }
}
