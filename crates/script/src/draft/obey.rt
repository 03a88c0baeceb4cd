// The lines between the post and the planting.
ghost use Rattle.script.specs.Preparing.{Prepares};
ghost use Rattle.script.specs.Orders.{order_of};
ghost use Rattle.script.specs.Stages.{draft_of};

use crate::ask::in_range;
use crate::command::Command;
use crate::draft::Draft;
use bank::bound::LONGEST_STAY;
use cable::refusal::Refusal;

// What comes next: more is said of the site, or its cabinets are planted.
#[derive(Clone, Copy, PartialEq, Eq, Debug)]
pub(crate) enum Next {
    Line,
    Plant,
}

impl Draft {
    // Keeps what the line says of the site, or says that the cabinets are to be planted.
    pub(crate) fn obey(&mut self, command: Command) -> Result<Next, Refusal>
        ensures prepares { Prepares (draft_of self.old) (order_of command) result (draft_of self.new) }
    {
        match command {
            Command::Misses(most) => self.set_misses(most).map(|()| Next::Line),
            Command::Pattern(wire, letters) => {
                self.set_pattern(wire, letters).map(|()| Next::Line)
            }
            Command::Cabinet(k, parent) => self.add(k, parent).map(|()| Next::Line),
            Command::Plant => Ok(Next::Plant),
            Command::Post(_) => Err(Refusal::OutOfPlace),
            // a number out of range is told before the bank that is not there
            Command::Sweep(count) if !in_range(count) => Err(Refusal::OutOfRange),
            Command::Bound(stay) if stay > LONGEST_STAY => Err(Refusal::OutOfRange),
            Command::Want(_) | Command::Leave(_) | Command::Sweep(_) | Command::Bound(_) => {
                Err(Refusal::Bare)
            }
        }
    }
}
