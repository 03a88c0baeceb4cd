// What was said of a site so far: its post, and its cabinets one after the other.
mod note;
pub(crate) mod obey;
mod plant;

ghost use Rattle.std.specs.Prelude.{◌≡◌};
ghost use Rattle.script.specs.Stages.{draft_of, drafted_with};

use crate::command::PostKind;
use cable::number::{CabinetNo, WIRES};
use cable::row::Row;
use tree::tree::CABINETS;
use wiring::letters::Letters;
use wiring::misses::Misses;

// Wires that may be bad.
#[derive(Clone, Copy)]
pub(crate) struct Setting {
    pub(crate) misses: Misses,
    pub(crate) patterns: [Letters; WIRES],
}

#[derive(Clone, Copy)]
pub(crate) enum Choice {
    Straight,
    Clean,
    Retry(Setting),
}

#[derive(Clone, Copy)]
pub(crate) struct Draft {
    pub(crate) post: Choice,
    pub(crate) parents: Row<CabinetNo, CABINETS>,
}

impl Draft {
    // The post is named, and nothing else.
    pub(crate) fn new(kind: PostKind) -> Draft
        ensures value { draft_of result ≡ drafted_with kind }
    {
        let post = match kind {
            PostKind::Straight => Choice::Straight,
            PostKind::Clean => Choice::Clean,
            PostKind::Retry => Choice::Retry(Setting {
                misses: Misses::none(),
                patterns: [Letters::keep(); WIRES],
            }),
        };
        Draft {
            post,
            parents: Row::new(CabinetNo(0)),
        }
    }
}
