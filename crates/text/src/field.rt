// The fields of a line, one after the other.
ghost use Rattle.std.specs.Prelude.{◌≡◌, ◌≢◌, [], ◌∷◌, length, MatchOption};
ghost use Rattle.text.specs.Fields.{Cut, others};

// The first field, and what follows the separator behind it, if there is one.
#[tactic(auto, using(crate::proofs::Cuts::clear_end))]
pub fn cut(line: &[u8], separator: u8) -> (&[u8], Option<&[u8]>)
    ensures value { Cut separator line.now result }
{
    match line.iter().position(|b| *b == separator) {
        Some(end) => (&line[..end], Some(&line[end + 1..])),
        None => (line, None),
    }
}

// The field behind the first, if there is just one.
#[tactic(auto, using(crate::proofs::Cuts::many_fields))]
pub fn one_field(rest: Option<&[u8]>, separator: u8) -> Option<&[u8]>
    ensures cases { MatchOption result (length (others separator rest.entry) ≢ 1) (λ only. others separator rest.entry ≡ only.now ∷ []) }
{
    let (only, more) = cut(rest?, separator);
    more.is_none().then_some(only)
}

// The fields behind the first, if there are just two.
#[tactic(auto, using(crate::proofs::Cuts::many_fields))]
pub fn two_fields(rest: Option<&[u8]>, separator: u8) -> Option<(&[u8], &[u8])>
    ensures cases { MatchOption result (length (others separator rest.entry) ≢ 2) (λ both. others separator rest.entry ≡ both.0.now ∷ both.1.now ∷ []) }
{
    let (first, rest) = cut(rest?, separator);
    let second = one_field(rest, separator)?;
    Some((first, second))
}
