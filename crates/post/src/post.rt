// What every kind of post can do. A kind says what it means, as lists of waiting messages and allowances, and by what rules of its
// own its calls go; laws tie those rules to what a put and a pull of any post may do.
ghost use Rattle.std.specs.Prelude.{◌≡◌, ℕ, Option, Result};
ghost use Rattle.cable.specs.declared.message.Message.{Message};
ghost use Rattle.cable.specs.declared.refusal.Refusal.{Refusal};
ghost use Rattle.post.specs.Posts.{PostModel, PostSound, Puts, Pulls, count_of};

use cable::message::Message;
use cable::number::LaneNo;
use cable::refusal::Refusal;

// How many messages may wait on a lane.
pub const WAITING: usize = 4;

// A post: the transport between the cabinets of a bank. What is put on a lane comes off it in that order, at once or some pulls later.
pub trait Post {
    // the waiting messages and the allowance of each lane, and the patience
    ghost means: { Self → PostModel };

    // what this kind's own put and pull do: the post before, the lane (and the message), the answer, the post after
    ghost puts: { Self → ℕ → Message → Result (Unit {0}) Refusal → Self → Type 0 };

    ghost pulls: { Self → ℕ → Result (Option Message) Refusal → Self → Type 0 };

    // Puts a message on a lane, behind those that wait there.
    fn put(&mut self, lane: LaneNo, message: Message) -> Result<(), Refusal>
        ensures own { puts self.old lane.0 message result self.new };

    // Asks a lane for its oldest message.
    fn pull(&mut self, lane: LaneNo) -> Result<Option<Message>, Refusal>
        ensures own { pulls self.old lane.0 result self.new };

    // How many messages wait on a lane.
    fn count(&self, lane: LaneNo) -> Result<usize, Refusal>
        ensures value { result ≡ count_of (means self.now) lane.0 };

    // The patience: how often in a row a lane may be pulled in vain though a message waits on it.
    fn patience(&self) -> u32
        ensures value { result ≡ (means self.now).patience };

    // laws: what a value means is always a post's, and a put and a pull by the own rules are what a post may do
    ghost sound: { (p : Self) → PostSound (means p) };

    ghost put_meant: { (p q : Self) (l : ℕ) (m : Message) (r : Result (Unit {0}) Refusal) → puts p l m r q → Puts (means p) l m r (means q) };

    ghost pull_meant: { (p q : Self) (l : ℕ) (r : Result (Option Message) Refusal) → pulls p l r q → Pulls (means p) l r (means q) };
}
