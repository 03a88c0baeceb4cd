// What is printed of a line's translation: the line that would give it back, or the refusal's number.
ghost use Rattle.std.specs.Prelude.{◌≡◌, Some};
ghost use Rattle.capture.specs.Shown.{shown_as};

use crate::translation::Translation;
use crate::vocabulary::kind_name;
use cable::refusal::Refusal;
use std::fmt;

#[derive(Clone, Copy)]
pub struct Shown(pub Result<Translation, Refusal>);

impl fmt::Display for Shown {
    ghost output = { λ s. Some (shown_as s.0) };

    #[tactic(auto, using(std::proofs::lemmas::Fmt::hex_byte))]
    fn fmt<W: fmt::Write>(&self, f: &mut fmt::Formatter<W>) -> fmt::Result {
        match self.0 {
            Ok(Translation::Read(frame)) => {
                let name = kind_name(frame.kind);
                let bit = u8::from(frame.bit);
                let lane = frame.lane.0;
                write!(f, "{name} {bit} {lane}")
            }
            Ok(Translation::Written(bytes)) => {
                // not in the arm: there the elements could only be borrowed
                let [head, lane, check] = bytes;
                write!(f, "{head:02X} {lane:02X} {check:02X}")
            }
            Err(why) => write!(f, "no {why}"),
        }
    }
}
