// Reads a capture from standard input and prints what each line says: bytes as a frame, words as bytes.
#![tactic(auto)]

ghost use Rattle.std.specs.Prelude.{[], ◌∷◌, ◌++◌};
ghost use Rattle.std.specs.Io.KnownBytes.{Appends};
ghost use Rattle.capture.specs.Shown.{shown_as};
ghost use Rattle.capture.specs.Translations.{translated};

use cable::refusal::Refusal;
use capture::shown::Shown;
use capture::translation::{Translation, translate};
use lines::{Listener, each_line};
use std::io;
use std::io::{BufWriter, Write};

// How many lines came to what.
#[derive(Clone, Copy, Default)]
struct Tally {
    read: u64,
    written: u64,
    refused: u64,
}

impl Tally {
    fn count(&mut self, said: Result<Translation, Refusal>) {
        let lines = match said {
            Ok(Translation::Read(_)) => &mut self.read,
            Ok(Translation::Written(_)) => &mut self.written,
            Err(_) => &mut self.refused,
        };
        *lines = lines.saturating_add(1);
    }
}

// A capture that is being read, and where its lines are printed.
#[derive(Drop)]
struct CaptureReader<W> {
    tally: Tally,
    out: W,
}

impl<W: Write> Listener for CaptureReader<W> {
    ghost handles = { λ r line s. Appends (W.Write.contents r.out) (W.Write.contents s.out) (shown_as (translated line) ++ 10 ∷ []) };

    fn handle(&mut self, line: &[u8]) -> io::Result<()> {
        let said = translate(line);
        self.tally.count(said);
        writeln!(self.out, "{}", Shown(said))
    }
}

impl<W: Write + Drop> CaptureReader<W> {
    // The input has ended.
    fn finish(mut self) -> io::Result<()> {
        let Tally {
            read,
            written,
            refused,
        } = self.tally;
        writeln!(
            self.out,
            "{read} read, {written} written, {refused} refused"
        )?;
        self.out.flush()
    }
}

fn main(rt: HostRuntime) -> io::Result<()> {
    let mut reader = CaptureReader {
        tally: Tally::default(),
        out: BufWriter::new(rt.alloc(), rt.stdout())?,
    };
    each_line(&mut rt.stdin(), &mut reader)?;
    reader.finish()
}
