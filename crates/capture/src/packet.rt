// The bytes of one line of a capture.
ghost use Rattle.std.specs.Prelude.{◌≡◌, ◌≤◌, length};
ghost use Rattle.text.specs.Fields.{fields};
ghost use Rattle.capture.specs.Packets.{packet, Same, held};

use crate::hexadecimal::byte;
use cable::refusal::Refusal;
use cable::row::Row;

// As many bytes as the longest line has room for.
const MOST: usize = 27;

#[derive(Drop)]
pub(crate) struct Packet {
    row: Row<u8, MOST>,
}

impl Packet {
    // The bytes of a line, each field one of them.
    pub(crate) fn parse(line: &[u8]) -> Result<Packet, Refusal>
        requires { length line.now ≤ 80 }
        ensures value { Same result (packet (fields 32 line.now)) }
    {
        let mut row = Row::new(0);
        for field in line.split(|b| *b == b' ') {
            let b = byte(field).ok_or(Refusal::Malformed)?;
            // two digits and a space take three places of the line, so that the row has room
            let _ = row.join(b);
        }
        Ok(Packet { row })
    }

    pub(crate) fn bytes(&self) -> &[u8]
        ensures value { result.now ≡ held self.now }
    {
        self.row.as_slice()
    }
}
