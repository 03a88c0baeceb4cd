// One line of a capture, and what becomes of it.
ghost use Rattle.std.specs.Prelude.{◌≡◌};
ghost use Rattle.text.specs.Fields.{others};
ghost use Rattle.capture.specs.Translations.{translated, from_words};

use crate::hexadecimal::byte;
use crate::packet::Packet;
use crate::vocabulary::{bit_named, kind_named};
use cable::frame::{Frame, Kind};
use cable::number::LaneNo;
use cable::refusal::Refusal;
use text::field::{cut, two_fields};
use text::line::LONGEST;
use text::numeral::number;

// A frame in the form that the line did not have. No `Result`: neither is a failure.
#[derive(Clone, Copy)]
pub enum Translation {
    // the bytes were this frame
    Read(Frame),
    // the words are written so
    Written([u8; 3]),
}

// What the line says: bytes are read as a frame, and words are written as one.
pub fn translate(line: &[u8]) -> Result<Translation, Refusal>
    ensures value { result ≡ translated line.now }
{
    if line.len() > LONGEST {
        return Err(Refusal::LineTooLong);
    }
    let (first, rest) = cut(line, b' ');
    if let Some(kind) = kind_named(first) {
        return write(kind, rest);
    }
    // what begins with neither a word nor a byte is an unknown word, whatever follows
    byte(first).ok_or(Refusal::UnknownWord)?;
    let packet = Packet::parse(line)?;
    Frame::decode(packet.bytes()).map(Translation::Read)
}

#[tactic(auto, using(crate::proofs::Counts::not_two))]
fn write(kind: Kind, rest: Option<&[u8]>) -> Result<Translation, Refusal>
    ensures value { result ≡ from_words kind (others 32 rest.entry) }
{
    let (bit, lane) = two_fields(rest, b' ').ok_or(Refusal::WrongFieldCount)?;
    let bit = bit_named(bit).ok_or(Refusal::Malformed)?;
    let lane = LaneNo(number(lane).ok_or(Refusal::Malformed)?);
    Frame { kind, bit, lane }.encode().map(Translation::Written)
}
