// Lines as commands: the line's form is looked at, and nothing else.
ghost use Rattle.std.specs.Prelude.{◌≡◌};
ghost use Rattle.text.specs.Fields.{others};
ghost use Rattle.text.specs.Numerals.{numeral};
ghost use Rattle.script.specs.Orders.{ordered};
ghost use Rattle.script.specs.Lines.{read_line, asked, one};

use crate::command::{Command, PostKind};
use crate::word::Word;
use cable::number::{CabinetNo, WireNo};
use cable::refusal::Refusal;
use text::field::{cut, one_field, two_fields};
use text::line::LONGEST;
use text::numeral::number;
use wiring::letters::Letters;

const TAB: u8 = b'\t';

impl Command {
    // The command that the line is.
    pub fn parse(line: &[u8]) -> Result<Command, Refusal>
        ensures value { ordered result ≡ read_line line.now }
    {
        if line.len() > LONGEST {
            return Err(Refusal::LineTooLong);
        }
        let (first, rest) = cut(line, TAB);
        let word = Word::read(first).ok_or(Refusal::UnknownWord)?;
        word.command(rest)
    }
}

impl Word {
    // The command that the word is, with the fields behind it.
    fn command(self, rest: Option<&[u8]>) -> Result<Command, Refusal>
        ensures value { ordered result ≡ asked self (others 9 rest.entry) }
    {
        match self {
            Word::Post => post(rest),
            Word::Misses => one_number(rest).map(Command::Misses),
            Word::Pattern => pattern(rest),
            Word::Cabinet => cabinet(rest),
            Word::Plant => plant(rest),
            Word::Want => Ok(Command::Want(CabinetNo(one_number(rest)?))),
            Word::Leave => Ok(Command::Leave(CabinetNo(one_number(rest)?))),
            Word::Sweep => one_number(rest).map(Command::Sweep),
            Word::Bound => one_number(rest).map(Command::Bound),
        }
    }
}

#[tactic(auto, using(crate::proofs::Counts::not_one))]
fn post(rest: Option<&[u8]>) -> Result<Command, Refusal>
    ensures value { ordered result ≡ asked Word.Post (others 9 rest.entry) }
{
    let kind = one_field(rest, TAB).ok_or(Refusal::WrongFieldCount)?;
    let kind = PostKind::read(kind).ok_or(Refusal::Malformed)?;
    Ok(Command::Post(kind))
}

#[tactic(auto, using(crate::proofs::Counts::not_two))]
fn pattern(rest: Option<&[u8]>) -> Result<Command, Refusal>
    ensures value { ordered result ≡ asked Word.Pattern (others 9 rest.entry) }
{
    let (wire, text) = two_fields(rest, TAB).ok_or(Refusal::WrongFieldCount)?;
    let wire = number(wire).ok_or(Refusal::Malformed)?;
    let letters = Letters::parse(text).ok_or(Refusal::Malformed)?;
    Ok(Command::Pattern(WireNo(wire), letters))
}

#[tactic(auto, using(crate::proofs::Counts::not_two))]
fn cabinet(rest: Option<&[u8]>) -> Result<Command, Refusal>
    ensures value { ordered result ≡ asked Word.Cabinet (others 9 rest.entry) }
{
    let (cabinet, parent) = two_fields(rest, TAB).ok_or(Refusal::WrongFieldCount)?;
    let cabinet = number(cabinet).ok_or(Refusal::Malformed)?;
    let parent = number(parent).ok_or(Refusal::Malformed)?;
    Ok(Command::Cabinet(CabinetNo(cabinet), CabinetNo(parent)))
}

#[tactic(auto, using(crate::proofs::Counts::more_than_none))]
fn plant(rest: Option<&[u8]>) -> Result<Command, Refusal>
    ensures value { ordered result ≡ asked Word.Plant (others 9 rest.entry) }
{
    match rest {
        None => Ok(Command::Plant),
        Some(_) => Err(Refusal::WrongFieldCount),
    }
}

#[tactic(auto, using(crate::proofs::Counts::not_one))]
fn one_number(rest: Option<&[u8]>) -> Result<u32, Refusal>
    ensures value { result ≡ one numeral (others 9 rest.entry) }
{
    let field = one_field(rest, TAB).ok_or(Refusal::WrongFieldCount)?;
    number(field).ok_or(Refusal::Malformed)
}
