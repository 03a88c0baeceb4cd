// Numbers as lines have them: one to five digits, and no needless 0 in front.
ghost use Rattle.std.specs.Prelude.{◌≡◌};
ghost use Rattle.text.specs.Numerals.{numeral};

const MOST_DIGITS: usize = 5;

// The number that the field is, if it is one.
pub fn number(field: &[u8]) -> Option<u32>
    ensures value { result ≡ numeral field.now }
{
    if field.len() > MOST_DIGITS || matches!(field, [] | [b'0', _, ..]) {
        return None;
    }
    // a loop and no fold: that n fits hangs on how many digits were read, which the closure of a `try_fold` is not told
    let mut n = 0;
    for c in field {
        if !c.is_ascii_digit() {
            return None;
        }
        n = 10 * n + u32::from(*c - b'0');
    }
    Some(n)
}
