// The line that is printed of an answer.
ghost use Rattle.std.specs.Prelude.{◌≡◌, ℕ, ◌+◌, ◌≤◌, [], ◌∷◌, ◌++◌, length, decimal};
ghost use Rattle.script.specs.Printing.{held, printed};

use crate::answer::Answer;
use bank::calls::Wanted;
use bank::sweep::Entered;
use cable::number::CabinetNo;
use cable::refusal::Refusal;
use cable::row::Row;
use itoa::Buffer;

// As many bytes as an output buffer has at least.
pub const ROOM: usize = 64;

#[derive(Drop)]
pub(crate) struct Printed {
    row: Row<u8, ROOM>,
}

impl Printed {
    // Nothing is printed yet.
    pub(crate) fn new() -> Printed
        ensures value { held result ≡ [] }
    {
        Printed { row: Row::new(0) }
    }

    // Prints what a line came to.
    pub(crate) fn said(&mut self, said: Result<Answer, Refusal>)
        requires empty { held self.old ≡ [] }
        ensures after { held self.new ≡ printed said }
    {
        match said {
            Ok(answer) => self.answer(answer),
            Err(why) => {
                self.push(b"no");
                self.number(u32::from(why.number()));
                self.end();
            }
        }
    }

    pub(crate) fn text(&self) -> &[u8]
        ensures value { result.now ≡ held self.now }
        ensures few { length result.now ≤ 64 }
    {
        self.row.as_slice()
    }

    fn answer(&mut self, answer: Answer)
        requires empty { held self.old ≡ [] }
        ensures after { held self.new ≡ printed (Ok answer) }
    {
        match answer {
            Answer::Noted => {}
            Answer::Planted(cabinets) => {
                self.push(b"plant");
                self.number(cabinets);
                self.end();
            }
            Answer::Wanted(n, wanted) => self.wanted(n, wanted),
            Answer::Left(n) => {
                self.push(b"leave");
                self.number(n.0);
                self.field(b"done");
                self.end();
            }
            Answer::Swept(sweeps, last) => self.swept(sweeps, last),
            Answer::Bound(stay, limit) => {
                self.push(b"bound");
                self.number(stay);
                self.number(limit);
                self.end();
            }
        }
    }

    fn wanted(&mut self, n: CabinetNo, wanted: Wanted)
        requires empty { held self.old ≡ [] }
        ensures after { held self.new ≡ printed (Ok (Answer.Wanted n wanted)) }
    {
        self.push(b"want");
        self.number(n.0);
        match wanted {
            Wanted::In => self.field(b"in"),
            Wanted::Waits => self.field(b"waits"),
        }
        self.end();
    }

    fn swept(&mut self, sweeps: u32, last: Option<Entered>)
        requires empty { held self.old ≡ [] }
        ensures after { held self.new ≡ printed (Ok (Answer.Swept sweeps last)) }
    {
        self.push(b"sweep");
        self.number(sweeps);
        match last {
            Some(entered) => {
                self.number(entered.cabinet.0);
                self.number(entered.wait);
            }
            None => self.field(b"-"),
        }
        self.end();
    }

    // One field more, behind a tab.
    fn field(&mut self, field: &[u8])
        requires room { length (held self.old) + (1 + length field.now) ≤ 64 }
        ensures after { held self.new ≡ held self.old ++ 9 ∷ field.now }
    {
        self.push(b"\t");
        self.push(field);
    }

    fn number(&mut self, n: u32)
        requires room { length (held self.old) ≤ 53 }
        ensures after { held self.new ≡ held self.old ++ 9 ∷ decimal n }
        ensures long { length (decimal n) ≤ 10 }
    {
        let mut digits = Buffer::new();
        self.field(digits.format(n).as_bytes());
    }

    fn end(&mut self)
        requires room { length (held self.old) + 1 ≤ 64 }
        ensures after { held self.new ≡ held self.old ++ 10 ∷ [] }
    {
        self.push(b"\n");
    }

    fn push(&mut self, bytes: &[u8])
        requires room { length (held self.old) + length bytes.now ≤ 64 }
        ensures after { held self.new ≡ held self.old ++ bytes.now }
    {
        // there is room
        let _ = self.row.extend_from_slice(bytes);
    }
}
