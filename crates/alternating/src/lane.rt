// One lane of the alternating bit, without its wires: its sender keeps a message outstanding until the acknowledgement comes, with others
// in a row behind it, and its receiver accepts what comes with the expected bit. The layer above carries the frames and the
// acknowledgements.
mod arrival;

ghost use Rattle.std.specs.Prelude.{◌≡◌, length};
ghost use Rattle.alternating.specs.Arrivals.{nothing_received, and_then, received_of, after_receiving, answered_by};
ghost use Rattle.alternating.specs.Lanes.{lane_model, fresh, waiting_in, adds, added_if_room, sent_on};

use crate::lane::arrival::{answer_in, message_in};
use cable::frame::{Bit, Frame, Kind};
use cable::message::Message;
use cable::number::LaneNo;
use cable::refusal::Refusal;
use cable::row::Row;
use post::post::WAITING;

#[derive(Clone, Copy)]
pub struct Lane {
    // the sender's: what it repeats, what stands behind that, and the bit it sends with
    outstanding: Option<Message>,
    behind: Row<Message, WAITING>,
    sending: Bit,
    // the receiver's: the bit that it accepts next
    expected: Bit,
}

// What the receiver received: the message, if it was accepted, and the bit to acknowledge, if a message came.
#[derive(Clone, Copy, Default)]
pub struct Received {
    pub accepted: Option<Message>,
    pub come: Option<Bit>,
}

impl Received {
    // Nothing came yet.
    pub fn nothing() -> Received
        ensures value { result ≡ nothing_received }
    {
        Received::default()
    }

    // Of what came before and what came next, the later counts.
    pub fn and_then(self, next: Received) -> Received
        ensures value { result ≡ and_then self next }
    {
        Received {
            accepted: next.accepted.or(self.accepted),
            come: next.come.or(self.come),
        }
    }
}

impl Lane {
    // Nothing is outstanding, and both bits are 0.
    pub fn new() -> Lane
        ensures value { lane_model result ≡ fresh }
    {
        Lane {
            outstanding: None,
            behind: Row::new(Message::Request),
            sending: Bit::Zero,
            expected: Bit::Zero,
        }
    }

    // How many messages wait. One that is accepted and not yet acknowledged no longer does.
    pub fn waits(&self) -> usize
        ensures value { result ≡ length (waiting_in (lane_model self.now)) }
    {
        if self.outstanding.is_none() {
            return 0;
        }
        self.behind.len() + usize::from(self.sending == self.expected)
    }

    // Adds a message behind all others, if fewer than four wait. It is outstanding if nothing else is, and else joins the row.
    pub fn add(&mut self, message: Message) -> Result<(), Refusal>
        ensures value { result ≡ adds (lane_model self.old) }
        ensures after { lane_model self.new ≡ added_if_room message (lane_model self.old) }
    {
        if self.waits() >= WAITING {
            return Err(Refusal::LaneFull);
        }
        if self.outstanding.is_some() {
            // never full: fewer than four wait
            return self.behind.join(message).map_err(|_| Refusal::LaneFull);
        }
        self.outstanding = Some(message);
        Ok(())
    }

    // The frame that carries the outstanding message.
    pub fn to_send(&self, lane: LaneNo) -> Option<Frame>
        ensures value { result ≡ sent_on lane.0 (lane_model self.now) }
    {
        self.outstanding.map(|message| Frame {
            kind: Kind::Carry(message),
            bit: self.sending,
            lane,
        })
    }

    // Receives what came on the wire of the frames: a message with the expected bit is accepted, one with the other bit is not, and both
    // are to be acknowledged.
    pub fn receive(&mut self, lane: LaneNo, bytes: &[u8]) -> Received
        ensures value { result ≡ received_of lane.0 bytes.now (lane_model self.old) }
        ensures after { lane_model self.new ≡ after_receiving lane.0 bytes.now (lane_model self.old) }
    {
        let Some((message, bit)) = message_in(lane, bytes) else {
            return Received::nothing();
        };
        let expected = bit == self.expected;
        if expected {
            self.expected = !self.expected;
        }
        Received {
            accepted: expected.then_some(message),
            come: Some(bit),
        }
    }

    // What came on the wire of the acknowledgements: one with the sending bit finishes the outstanding message, and the next comes up.
    pub fn answered(&mut self, lane: LaneNo, bytes: &[u8])
        ensures after { lane_model self.new ≡ answered_by lane.0 bytes.now (lane_model self.old) }
    {
        if self.outstanding.is_some() && answer_in(lane, bytes) == Some(self.sending) {
            self.sending = !self.sending;
            self.outstanding = self.behind.leave();
        }
    }
}
