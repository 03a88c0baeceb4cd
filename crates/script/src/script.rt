// A script, line by line.
ghost use Rattle.std.specs.Prelude.{◌≡◌};
ghost use Rattle.script.specs.Laws.{Comes, NotFromInside};
ghost use Rattle.script.specs.Obeying.{Obeys};
ghost use Rattle.script.specs.Orders.{order_of, plant};
ghost use Rattle.script.specs.Runs.{Runs};
ghost use Rattle.script.specs.Scripts.{Told, held_by};
ghost use Rattle.script.specs.Stages.{unnamed};

use crate::answer::Answer;
use crate::ask::ask;
use crate::command::Command;
use crate::draft::Draft;
use crate::draft::obey::Next;
use crate::printed::{Printed, ROOM};
use crate::stage::Stage;
use cable::refusal::Refusal;

#[derive(Drop)]
pub struct Script {
    stage: Stage,
}

impl Script {
    // Nothing was said yet.
    pub fn new() -> Script
        ensures value { held_by result ≡ unnamed }
    {
        Script {
            stage: Stage::Unnamed,
        }
    }

    // Does what the line asks for, and writes what is printed of it to the front of the buffer. The answer is how many bytes it
    // wrote; only a buffer that is too small is refused without a word.
    pub fn run(&mut self, line: &[u8], out: &mut [u8]) -> Result<usize, Refusal>
        ensures runs { Runs (held_by self.old) line.now out.old result (held_by self.new) out.new }
    {
        if out.len() < ROOM {
            return Err(Refusal::BufferTooSmall);
        }
        let mut printed = Printed::new();
        printed.said(self.tell(line));
        let text = printed.text();
        out[..text.len()].copy_from_slice(text);
        Ok(text.len())
    }

    // Does what the line asks for, and says what came of it.
    pub fn tell(&mut self, line: &[u8]) -> Result<Answer, Refusal>
        ensures told { Told (held_by self.old) line.now result (held_by self.new) }
        ensures outside { Comes (held_by self.old) → NotFromInside result }
    {
        self.obey(Command::parse(line)?)
    }

    fn obey(&mut self, command: Command) -> Result<Answer, Refusal>
        ensures obeys { Obeys (held_by self.old) (order_of command) result (held_by self.new) }
        ensures outside { Comes (held_by self.old) → NotFromInside result }
    {
        match &mut self.stage {
            Stage::Unnamed => self.begin(command),
            Stage::Drafted(draft) => match draft.obey(command)? {
                Next::Line => Ok(Answer::Noted),
                Next::Plant => self.plant(),
            },
            Stage::Straight(bank) => ask(bank, command),
            Stage::Clean(bank) => ask(bank, command),
            Stage::Retry(bank) => ask(bank, command),
        }
    }

    // The first line names the post. Not inlined, as the next: no other line should clear room for a stage.
    #[inline(never)]
    fn begin(&mut self, command: Command) -> Result<Answer, Refusal>
        ensures begins { held_by self.old ≡ unnamed → Obeys (held_by self.old) (order_of command) result (held_by self.new) }
    {
        let Command::Post(kind) = command else {
            return Err(Refusal::OutOfPlace);
        };
        self.stage = Stage::Drafted(Draft::new(kind));
        Ok(Answer::Noted)
    }

    // The cabinets that were named are planted.
    #[inline(never)]
    fn plant(&mut self) -> Result<Answer, Refusal>
        ensures obeys { Obeys (held_by self.old) plant result (held_by self.new) }
    {
        match &self.stage {
            Stage::Unnamed => Err(Refusal::OutOfPlace),
            Stage::Drafted(draft) => {
                let cabinets = draft.parents.len() as u32;
                self.stage = draft.plant()?;
                Ok(Answer::Planted(cabinets))
            }
            Stage::Straight(_) | Stage::Clean(_) | Stage::Retry(_) => Err(Refusal::AlreadyPlanted),
        }
    }
}
