// Bytes in hexadecimal: two digits, of either case.
ghost use Rattle.std.specs.Prelude.{◌≡◌};
ghost use Rattle.capture.specs.Hexadecimal.{hex_byte};

use hex::FromHex;

// The byte that the field is, if it is one.
pub fn byte(field: &[u8]) -> Option<u8>
    ensures value { result ≡ hex_byte field.now }
{
    let [byte] = <[u8; 1] as FromHex>::from_hex(field).ok()?;
    Some(byte)
}
