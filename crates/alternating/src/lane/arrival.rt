// What arriving bytes are to a lane: a message for its receiver, or an acknowledgement for its sender.
ghost use Rattle.std.specs.Prelude.{◌≡◌};
ghost use Rattle.alternating.specs.Arrivals.{frame_in, message_in, answer_in};

use cable::frame::{Bit, Frame, Kind};
use cable::message::Message;
use cable::number::LaneNo;

// The frame that these bytes are, if they are one of this lane. The two stay apart: the bytes come from a wire, and the lane's
// number from the caller, since a lane does not know its own.
fn frame_in(lane: LaneNo, bytes: &[u8]) -> Option<Frame>
    ensures value { result ≡ frame_in lane.0 bytes.now }
{
    Frame::decode(bytes).ok().filter(|frame| frame.lane == lane)
}

// The message that it carries, with its bit.
pub(crate) fn message_in(lane: LaneNo, bytes: &[u8]) -> Option<(Message, Bit)>
    ensures value { result ≡ message_in lane.0 bytes.now }
{
    let frame = frame_in(lane, bytes)?;
    match frame.kind {
        Kind::Carry(message) => Some((message, frame.bit)),
        Kind::Answer => None,
    }
}

// The bit that it acknowledges. Not one function with the other: what they give is of two types.
pub(crate) fn answer_in(lane: LaneNo, bytes: &[u8]) -> Option<Bit>
    ensures value { result ≡ answer_in lane.0 bytes.now }
{
    let frame = frame_in(lane, bytes)?;
    match frame.kind {
        Kind::Carry(_) => None,
        Kind::Answer => Some(frame.bit),
    }
}
