// Words, byte by byte.
ghost use Rattle.std.specs.Prelude.{◌≡◌};
ghost use Rattle.std.specs.Str.{bytes_eq};

// Whether the field is this word.
pub fn is_word(field: &[u8], word: &[u8]) -> bool
    ensures value { result ≡ bytes_eq field.now word.now }
{
    field == word
}
