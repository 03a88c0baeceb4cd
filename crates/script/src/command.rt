// What a line asks for.
ghost use Rattle.std.specs.Prelude.{◌≡◌};
ghost use Rattle.script.specs.Words.{kind_named, kinds};

use cable::number::{CabinetNo, WireNo};
use wiring::letters::Letters;

// The kinds of posts that a script can name.
#[derive(Clone, Copy, PartialEq, Eq, Debug)]
pub enum PostKind {
    Straight,
    // a retry post over the clean wiring
    Clean,
    // a retry post over the patterned wiring
    Retry,
}

#[derive(Clone, Copy)]
pub enum Command {
    Post(PostKind),
    Misses(u32),
    Pattern(WireNo, Letters),
    // a cabinet and its parent
    Cabinet(CabinetNo, CabinetNo),
    Plant,
    Want(CabinetNo),
    Leave(CabinetNo),
    // so many sweeps
    Sweep(u32),
    // the limit for stays of so many sweeps
    Bound(u32),
}

impl PostKind {
    // The kind that the field names, if it names one.
    pub(crate) fn read(field: &[u8]) -> Option<PostKind>
        ensures value { result ≡ kind_named field.now kinds }
    {
        match field {
            b"straight" => Some(PostKind::Straight),
            b"clean" => Some(PostKind::Clean),
            b"retry" => Some(PostKind::Retry),
            _ => None,
        }
    }
}
