// Plays the example scripts that are named, and compares what each prints with the file beside it.
#![tactic(auto)]

use player::play;
use std::fs::File;
use std::{env, fs, io};

fn main(rt: HostRuntime) -> io::Result<()> {
    for name in env::args(&rt)?.skip(1) {
        let script = format!(in rt.alloc(); "{name}.script")?;
        let printed = play(&mut File::open(&rt, &script)?, Vec::new(rt.alloc()))?;
        let wanted = format!(in rt.alloc(); "{name}.out")?;
        let same = fs::read(&rt, &wanted)?.as_slice() == printed.as_slice();
        println!(rt; "{name}: {}", if same { "as written" } else { "differs" })?;
    }
    Ok(())
}
