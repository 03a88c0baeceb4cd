// A script is read from an input, and what its lines print goes to an output.
#![tactic(auto)]

ghost use Rattle.std.specs.Prelude.{◌≡◌, ℕ, List, IfOk, OnOk, Result};
ghost use Rattle.std.specs.Io.KnownBytes.{Appends, Consumes, IsAtEnd};
ghost use Rattle.cable.specs.declared.refusal.Refusal.{Refusal};
ghost use Rattle.lines.specs.Inputs.{lines_of};
ghost use Rattle.script.specs.Printing.{printed};
ghost use Rattle.script.specs.Scripts.{Told, held_by};
ghost use Rattle.script.specs.Stages.{Stage, unnamed};
ghost use Rattle.script.specs.declared.answer.Answer.{Answer};
ghost use Rattle.player.specs.Plays.{Plays};

use lines::{Listener, each_line};
use script::printed::ROOM;
use script::script::Script;
use std::io;
use std::io::{Read, Write};

// A script that is being read, and where its answers are printed.
#[derive(Drop)]
struct Player<W> {
    script: Script,
    out: W,
}

impl<W: Write> Listener for Player<W> {
    ghost handles = { λ p line q. (a : Result Answer Refusal) × Told (held_by p.script) line a (held_by q.script) × Appends (W.Write.contents p.out) (W.Write.contents q.out) (printed a) };

    fn handle(&mut self, line: &[u8]) -> io::Result<()> {
        let mut buffer = [0; ROOM];
        match self.script.run(line, &mut buffer) {
            Ok(n) => self.out.write_all(&buffer[..n]),
            // never: the buffer has ROOM, and only one that is too small is refused without a word
            Err(_) => Ok(()),
        }
    }
}

// Plays a whole script, with a bank of its own, and gives the output back, which its owner has to flush.
pub fn play<R: Read, W: Write + Drop>(input: &mut R, out: W) -> io::Result<W>
    ensures plays { IfOk result (λ printed. (bytes : List ℕ) × Consumes (R.remaining input.old) (R.remaining input.new) bytes × (text : List ℕ) × (s : Stage) × Plays unnamed (lines_of bytes) text s × Appends (W.contents out) (W.contents printed) text) }
    ensures end { OnOk result (IsAtEnd (R.remaining input.new)) }
{
    let mut player = Player {
        script: Script::new(),
        out,
    };
    each_line(input, &mut player)?;
    Ok(player.out)
}
