// The words of an item, with slashes between them.
ghost use Rattle.std.specs.Prelude.{◌≡◌, ◌≢◌, ◌∷◌, [], length, MatchOption};
ghost use Rattle.text_parts.specs.Parts.{parts, parts_of};

use text_parts::{cut_at, one_part};

// The next word between slashes, and what follows it.
fn next_word(rest: Option<&[u8]>) -> Option<(&[u8], Option<&[u8]>)>
    ensures { MatchOption result (parts_of 47 rest.entry ≡ [])
        (λ cut. parts_of 47 rest.entry ≡ cut.0.now ∷ parts_of 47 cut.1) }
{
    let text = rest?;
    Some(cut_at(text, b'/'))
}

/// The four words of an item; `None` if it has more or fewer.
pub fn four_words(item: &[u8]) -> Option<(&[u8], &[u8], &[u8], &[u8])>
    ensures { MatchOption result (length (parts 47 item.now) ≢ 4)
        (λ words. parts 47 item.now ≡ words.0.now ∷ words.1.now ∷ words.2.now ∷ words.3.now ∷ []) }
{
    let (first, rest) = cut_at(item, b'/');
    let (second, third, fourth) = three_words(rest)?;
    Some((first, second, third, fourth))
}

/// The five words of an item; `None` if it has more or fewer.
pub fn five_words(item: &[u8]) -> Option<(&[u8], &[u8], &[u8], &[u8], &[u8])>
    ensures { MatchOption result (length (parts 47 item.now) ≢ 5)
        (λ words. parts 47 item.now
        ≡ words.0.now ∷ words.1.now ∷ words.2.now ∷ words.3.now ∷ words.4.now ∷ []) }
{
    let (first, rest) = cut_at(item, b'/');
    let (second, rest) = next_word(rest)?;
    let (third, fourth, fifth) = three_words(rest)?;
    Some((first, second, third, fourth, fifth))
}

// The three words that are left.
fn three_words(rest: Option<&[u8]>) -> Option<(&[u8], &[u8], &[u8])>
    ensures { MatchOption result (length (parts_of 47 rest.entry) ≢ 3)
        (λ words. parts_of 47 rest.entry ≡ words.0.now ∷ words.1.now ∷ words.2.now ∷ []) }
{
    let (first, rest) = next_word(rest)?;
    let (second, rest) = next_word(rest)?;
    let third = one_part(rest, b'/')?;
    Some((first, second, third))
}
