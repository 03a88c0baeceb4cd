// Replays scripts: those in the files that are named, each with a bank of its own, or else the one on standard input.
#![tactic(auto)]

use player::play;
use std::fs::File;
use std::io::{BufWriter, Write};
use std::{env, io};

fn main(rt: HostRuntime) -> io::Result<()> {
    let mut out = BufWriter::new(rt.alloc(), rt.stdout())?;
    let mut named = false;
    for path in env::args(&rt)?.skip(1) {
        named = true;
        out = play(&mut File::open(&rt, &path)?, out)?;
    }
    if !named {
        out = play(&mut rt.stdin(), out)?;
    }
    out.flush()
}
