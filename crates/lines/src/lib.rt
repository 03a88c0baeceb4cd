// An input, line by line, however long its lines are.
#![tactic(auto)]

ghost use Rattle.std.specs.Prelude.{◌≡◌, ℕ, List, [], ◌∷◌, ◌++◌, OnOk};
ghost use Rattle.std.specs.Io.KnownBytes.{Consumes, IsAtEnd};
ghost use Rattle.text.specs.Lines.{line_in};
ghost use Rattle.lines.specs.Inputs.{Handles, lines_of, lines_from, last_line};

use std::io;
use std::io::{ErrorKind, Read};
use text::line::LineBuffer;

const CHUNK: usize = 4096;

// Whoever is told each line, without its line feed. Of a line that is too long, one byte more is told than a line may have.
pub trait Listener {
    // what a line does to the listener: the listener before, the line, the listener after
    ghost handles: { Self → List ℕ → Self → Type 0 };

    fn handle(&mut self, line: &[u8]) -> io::Result<()>
        ensures handled { OnOk result (handles self.old line.now self.new) };
}

// Tells every line of the input, the last one also where no line feed ends it.
pub fn each_line<R: Read, L: Listener>(input: &mut R, listener: &mut L) -> io::Result<()>
    ensures handles { OnOk result ((bytes : List ℕ) × Consumes (R.remaining input.old) (R.remaining input.new) bytes × Handles L.handles listener.old (lines_of bytes) listener.new) }
    ensures end { OnOk result (IsAtEnd (R.remaining input.new)) }
{
    let mut line = LineBuffer::new();
    let mut chunk = [0; CHUNK];
    for _ in 0..u64::MAX {
        let n = input.read(&mut chunk)?;
        if n == 0 {
            return tell_last(&line, listener);
        }
        tell_bytes(&mut line, &chunk[..n], listener)?;
    }
    // a loop has to end
    Err(io::Error::from(ErrorKind::Other))
}

fn tell_last<L: Listener>(line: &LineBuffer, listener: &mut L) -> io::Result<()>
    ensures handles { OnOk result (Handles L.handles listener.old (last_line (line_in line.now)) listener.new) }
{
    if line.line().is_empty() {
        return Ok(());
    }
    listener.handle(line.line())
}

fn tell_bytes<L: Listener>(line: &mut LineBuffer, bytes: &[u8], listener: &mut L) -> io::Result<()>
    ensures handles { OnOk result ((rest : List ℕ) (end : L) → Handles L.handles listener.new (lines_from (line_in line.new) rest) end → Handles L.handles listener.old (lines_from (line_in line.old) (bytes.now ++ rest)) end) }
{
    for b in bytes {
        if *b == b'\n' {
            listener.handle(line.line())?;
            line.clear();
        } else {
            line.push(*b);
        }
    }
    Ok(())
}
