// The nine words that a line may begin with.
ghost use Rattle.std.specs.Prelude.{◌≡◌};
ghost use Rattle.script.specs.Words.{word_named, words};

#[derive(Clone, Copy)]
pub(crate) enum Word {
    Post,
    Misses,
    Pattern,
    Cabinet,
    Plant,
    Want,
    Leave,
    Sweep,
    Bound,
}

impl Word {
    // The word that the field is, if it is one.
    pub(crate) fn read(field: &[u8]) -> Option<Word>
        ensures value { result ≡ word_named field.now words }
    {
        match field {
            b"post" => Some(Word::Post),
            b"misses" => Some(Word::Misses),
            b"pattern" => Some(Word::Pattern),
            b"cabinet" => Some(Word::Cabinet),
            b"plant" => Some(Word::Plant),
            b"want" => Some(Word::Want),
            b"leave" => Some(Word::Leave),
            b"sweep" => Some(Word::Sweep),
            b"bound" => Some(Word::Bound),
            _ => None,
        }
    }
}
