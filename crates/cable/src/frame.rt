// Frames: a message, or the acknowledgement of one, as three bytes on a wire: head, lane, check.
ghost use Rattle.std.specs.Prelude.{◌≡◌, [], ◌∷◌, IfOk, Ok};
ghost use Rattle.cable.specs.Laws.{WhatIsWrittenReadsBack, WhatReadsIsWhatIsWritten};
ghost use Rattle.cable.specs.Worked.{TheWorkedFramesHold};
ghost use Rattle.cable.specs.Frames.{head_of, check_of, written, heads, named, frame_of, read};

mod alternating;

use crate::message::Message;
use crate::number::LaneNo;
use crate::refusal::Refusal;

// The alternating bit.
#[derive(Clone, Copy, PartialEq, Eq, Debug)]
pub enum Bit {
    Zero,
    One,
}

// What a frame carries: a message, or the answer that acknowledges one. No `Option`: an answer is not a missing message.
#[derive(Clone, Copy, PartialEq, Eq, Debug)]
pub enum Kind {
    Carry(Message),
    Answer,
}

#[derive(Clone, Copy, PartialEq, Eq, Debug)]
pub struct Frame {
    pub kind: Kind,
    pub bit: Bit,
    pub lane: LaneNo,
}

// `encode` and `decode`, and no `TryFrom`: these are the field's words, and writing can be refused like reading.
impl Frame {
    // The three bytes of this frame.
    pub fn encode(self) -> Result<[u8; 3], Refusal>
        ensures value { result ≡ written self }
        ensures reads_back { WhatIsWrittenReadsBack self result }
        ensures worked { TheWorkedFramesHold }
    {
        let lane = self.lane.index()? as u8;
        let head = head(self.kind, self.bit);
        Ok([head, lane, check(head, lane)])
    }

    // The frame that these bytes are.
    pub fn decode(bytes: &[u8]) -> Result<Frame, Refusal>
        ensures value { result ≡ read bytes.now }
        ensures written_so { WhatReadsIsWhatIsWritten bytes.now result }
    {
        // by its shape, which says how many bytes there are and names them
        let [head, lane, check] = bytes else {
            return Err(Refusal::WrongLength);
        };
        sound_frame(*head, *lane, *check)
    }
}

fn sound_frame(head: u8, lane: u8, sum: u8) -> Result<Frame, Refusal>
    ensures value { result ≡ frame_of head lane sum }
    ensures written_so { IfOk result (λ f. written f ≡ Ok (head ∷ lane ∷ sum ∷ [])) }
{
    let (kind, bit) = kind_and_bit(head)?;
    let lane_no = LaneNo(u32::from(lane));
    lane_no.index().or(Err(Refusal::LaneByteTooLarge))?;
    if sum != check(head, lane) {
        return Err(Refusal::WrongCheck);
    }
    Ok(Frame {
        kind,
        bit,
        lane: lane_no,
    })
}

fn head(kind: Kind, bit: Bit) -> u8
    ensures value { result ≡ head_of kind bit }
    ensures named_so { named result heads ≡ Ok (kind, bit) }
{
    let high = match kind {
        Kind::Carry(Message::Request) => 0x10,
        Kind::Carry(Message::Privilege) => 0x20,
        Kind::Answer => 0x30,
    };
    high + u8::from(bit)
}

// All six written out, as the rules list them, and not worked out from `head`.
fn kind_and_bit(head: u8) -> Result<(Kind, Bit), Refusal>
    ensures value { result ≡ named head heads }
    ensures head_of { IfOk result (λ k. head_of k.0 k.1 ≡ head) }
{
    match head {
        0x10 => Ok((Kind::Carry(Message::Request), Bit::Zero)),
        0x11 => Ok((Kind::Carry(Message::Request), Bit::One)),
        0x20 => Ok((Kind::Carry(Message::Privilege), Bit::Zero)),
        0x21 => Ok((Kind::Carry(Message::Privilege), Bit::One)),
        0x30 => Ok((Kind::Answer, Bit::Zero)),
        0x31 => Ok((Kind::Answer, Bit::One)),
        _ => Err(Refusal::UnknownHead),
    }
}

fn check(head: u8, lane: u8) -> u8
    ensures value { result ≡ check_of head lane }
{
    let sum = (u32::from(head) + u32::from(lane)) % 256;
    (255 - sum) as u8
}
