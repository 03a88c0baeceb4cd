// One round of a lane over a wiring: what flew before is cleared away, the sender sends its outstanding message, the receiver accepts and
// acknowledges what comes, and the sender takes the acknowledgements.
ghost use Rattle.std.specs.Prelude.{◌≡◌, ℕ, ◌<◌, List, Some, None, Ok};
ghost use Rattle.cable.specs.Frames.{bytes_of};
ghost use Rattle.cable.specs.declared.message.Message.{Message};
ghost use Rattle.alternating.specs.Arrivals.{receive_next, receive_all, answered_by, answered_by_all};
ghost use Rattle.alternating.specs.Lanes.{lane_model, sent_on};
ghost use Rattle.alternating.specs.Rounds.{Drains, Clears, Answers, Receives, Round, frame_wire, answer_wire};

use crate::drain::drain;
use crate::link::{Link, ValidWire};
use alternating::lane::{Lane, Received};
use cable::frame::{Bit, Frame, Kind};
use cable::message::Message;
use cable::refusal::Refusal;
use wiring::wiring::Wiring;

// Repeats what is outstanding on a lane. A refused send is handed up. The wiring, the link and the lane stay parameters of each
// step: as fields of one struct, every step would have to promise which of them it leaves alone.
pub(crate) fn repeat<W: Wiring>(
    wiring: &mut W,
    link: Link,
    lane: &mut Lane,
) -> Result<Option<Message>, Refusal>
    ensures idle { (lane_model lane.old).outstanding ≡ None → (result ≡ Ok None) × (lane_model lane.new ≡ lane_model lane.old) × (wiring.new ≡ wiring.old) }
    ensures round { (x : Message) → (lane_model lane.old).outstanding ≡ Some x → Round W.sends W.takes link.lane.0 x (lane_model lane.old) wiring.old result (lane_model lane.new) wiring.new }
{
    let Some(frame) = lane.to_send(link.lane) else {
        return Ok(None);
    };
    round(wiring, link, lane, frame)
}

// The round. Not inlined: most lanes are idle, and reading those should not clear room for a frame.
#[inline(never)]
fn round<W: Wiring>(
    wiring: &mut W,
    link: Link,
    lane: &mut Lane,
    frame: Frame,
) -> Result<Option<Message>, Refusal>
    requires sent { Some frame ≡ sent_on link.lane.0 (lane_model lane.old) }
    ensures round { (x : Message) → (lane_model lane.old).outstanding ≡ Some x → Round W.sends W.takes link.lane.0 x (lane_model lane.old) wiring.old result (lane_model lane.new) wiring.new }
{
    clear(wiring, link);
    send(wiring, link.frames(), frame)?;
    exchange(wiring, link, lane)
}

// What is left to do once the message is sent.
fn exchange<W: Wiring>(
    wiring: &mut W,
    link: Link,
    lane: &mut Lane,
) -> Result<Option<Message>, Refusal>
    ensures receives { Receives W.sends W.takes link.lane.0 (lane_model lane.old) wiring.old result (lane_model lane.new) wiring.new }
{
    let received = receive(wiring, link, lane);
    answer(wiring, link, received.come)?;
    take_answers(wiring, link, lane);
    Ok(received.accepted)
}

fn clear<W: Wiring>(wiring: &mut W, link: Link)
    ensures clears { Clears W.takes link.lane.0 wiring.old wiring.new }
{
    drain(wiring, link.frames(), (), |(), _| ());
    drain(wiring, link.answers(), (), |(), _| ());
}

// Sends a frame of a lane that there is, which is why it can be written.
fn send<W: Wiring>(wiring: &mut W, wire: ValidWire, frame: Frame) -> Result<(), Refusal>
    requires { frame.lane.0 < 30 }
    ensures sends { W.sends wiring.old wire.number.0 (bytes_of frame) result wiring.new }
{
    wiring.send(wire.number, frame.encode()?)
}

// Takes every frame, and has the lane receive it.
fn receive<W: Wiring>(wiring: &mut W, link: Link, lane: &mut Lane) -> Received
    ensures receives { (frames : List (List ℕ)) × (Drains W.takes (frame_wire link.lane.0) wiring.old frames wiring.new × ((lane_model lane.new, result) ≡ receive_all link.lane.0 (lane_model lane.old) frames)) }
{
    let start = (*lane, Received::nothing());
    let (after, received) = drain(
        wiring,
        link.frames(),
        start,
        |(mut lane, received), frame|
            ensures { (lane_model result.0, result.1) ≡ receive_next link.lane.0 (lane_model lane, received) frame }
        {
            let now = lane.receive(link.lane, &frame);
            (lane, received.and_then(now))
        },
    );
    *lane = after;
    received
}

// The receiver acknowledges: sends one answer with this bit, if a message came.
fn answer<W: Wiring>(wiring: &mut W, link: Link, come: Option<Bit>) -> Result<(), Refusal>
    ensures answers { Answers W.sends link.lane.0 come wiring.old result wiring.new }
{
    let Some(bit) = come else {
        return Ok(());
    };
    let frame = Frame {
        kind: Kind::Answer,
        bit,
        lane: link.lane,
    };
    send(wiring, link.answers(), frame)
}

// Takes every acknowledgement, and gives it to the lane, whose sender then may go on.
fn take_answers<W: Wiring>(wiring: &mut W, link: Link, lane: &mut Lane)
    ensures drains { (answers : List (List ℕ)) × (Drains W.takes (answer_wire link.lane.0) wiring.old answers wiring.new × (lane_model lane.new ≡ answered_by_all link.lane.0 (lane_model lane.old) answers)) }
{
    *lane = drain(
        wiring,
        link.answers(),
        *lane,
        |mut lane, frame|
            ensures { lane_model result ≡ answered_by link.lane.0 frame (lane_model lane) }
        {
            lane.answered(link.lane, &frame);
            lane
        },
    );
}
