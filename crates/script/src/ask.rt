// The lines that a planted bank answers.
ghost use Rattle.std.specs.Prelude.{◌≡◌, ◌&&◌, nat_le};
ghost use Rattle.bank.specs.Banks.{own_rules, bank_of};
ghost use Rattle.bank.specs.Promised.{Promised};
ghost use Rattle.script.specs.Calls.{Asked, SweepsFor};
ghost use Rattle.script.specs.Orders.{order_of};

use crate::answer::Answer;
use crate::command::Command;
use bank::bank::Bank;
use bank::sweep::Entered;
use cable::refusal::Refusal;
use post::post::Post;

// The most sweeps that one line asks for.
const MOST_SWEEPS: u32 = 1_000;

// Asks a planted bank what the line asks it.
pub(crate) fn ask<P: Post>(bank: &mut Bank<P>, command: Command) -> Result<Answer, Refusal>
    ensures asked { Asked P.means (own_rules P.means P.puts P.pulls) (bank_of bank.old) (order_of command) result (bank_of bank.new) }
    ensures promised { Promised P.means (own_rules P.means P.puts P.pulls) }
{
    match command {
        Command::Want(n) => bank.want(n).map(|wanted| Answer::Wanted(n, wanted)),
        Command::Leave(n) => bank.leave(n).map(|()| Answer::Left(n)),
        Command::Sweep(count) if !in_range(count) => Err(Refusal::OutOfRange),
        Command::Sweep(count) => sweeps(bank, count).map(|last| Answer::Swept(count, last)),
        Command::Bound(stay) => bank.bound(stay).map(|limit| Answer::Bound(stay, limit)),
        Command::Plant => Err(Refusal::AlreadyPlanted),
        Command::Post(_) | Command::Misses(_) | Command::Pattern(..) | Command::Cabinet(..) => {
            Err(Refusal::OutOfPlace)
        }
    }
}

// Whether a line may ask for so many sweeps.
pub(crate) fn in_range(count: u32) -> bool
    ensures value { result ≡ (nat_le 1 count && nat_le count 1000) }
{
    (1..=MOST_SWEEPS).contains(&count)
}

// So many sweeps, one after the other, and who went in last.
fn sweeps<P: Post>(bank: &mut Bank<P>, count: u32) -> Result<Option<Entered>, Refusal>
    ensures sweeps { SweepsFor (own_rules P.means P.puts P.pulls) (bank_of bank.old) count result (bank_of bank.new) }
{
    let mut last = None;
    for _ in 0..count {
        last = bank.sweep()?.or(last);
    }
    Ok(last)
}
