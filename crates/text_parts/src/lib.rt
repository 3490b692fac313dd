//! Text split at separators, and decimal numbers.
#![tactic(auto)]

ghost use Rattle.std.specs.Prelude.{◌≡◌, ◌≢◌, ◌<◌, ◌∷◌, [], length, IfSome, MatchOption, ◌==◌, position};
ghost use Rattle.text_parts.specs.Parts.{parts, parts_of};

mod numbers;

pub use numbers::read_number;

// Where the first separator stands, if there is one.
fn first_at(text: &[u8], separator: u8) -> Option<usize>
    ensures { result ≡ position (λ b. b == separator) text.now }
{
    text.iter().position(|b| *b == separator)
}

/// Cuts the text at its first separator: the part before it, and the text behind it. The second is
/// `None` if there is no separator.
pub fn cut_at(text: &[u8], separator: u8) -> (&[u8], Option<&[u8]>)
    ensures first { parts separator text.now ≡ result.0.now ∷ parts_of separator result.1 }
    ensures shorter { IfSome result.1 (λ rest. length rest.now < length text.now) }
{
    match first_at(text, separator) {
        Some(at) => {
            let (first, _) = text.split_at(at);
            let (_, rest) = text.split_at(at + 1);
            (first, Some(rest))
        }
        None => (text, None),
    }
}

/// The only part that is left; `None` if there is no part or more than one.
pub fn one_part(rest: Option<&[u8]>, separator: u8) -> Option<&[u8]>
    ensures { MatchOption result (length (parts_of separator rest.entry) ≢ 1)
        (λ part. parts_of separator rest.entry ≡ part.now ∷ []) }
{
    let Some(text) = rest else {
        return None;
    };
    let (part, more) = cut_at(text, separator);
    match more {
        None => Some(part),
        Some(_) => None,
    }
}
