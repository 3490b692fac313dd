// Operands that are more than text: kinds of stores and numbers of lines.
ghost use Rattle.std.specs.Prelude.{◌≡◌, MatchOption};
ghost use Rattle.command_words.specs.Commands.{store_word};
ghost use Rattle.command_words.specs.Operands.{IsLineCount, IsNoLineCount, IsNoStoreWord};

use crate::commands::{MOST_LINES, StoreKind};
use text_parts::read_number;

// Numbers of lines are below this.
const LINES_END: u64 = MOST_LINES as u64 + 1;

/// The kind of store that the word names; `None` if it names none.
pub fn store_kind(word: &str) -> Option<StoreKind>
    ensures { MatchOption result (IsNoStoreWord word.now) (λ kind. word.now ≡ store_word kind) }
{
    match word {
        "nvs" => Some(StoreKind::Nvs),
        "zms" => Some(StoreKind::Zms),
        "fcb" => Some(StoreKind::Fcb),
        _ => None,
    }
}

/// Reads the word as a number of lines, in decimal without a sign or leading zeros; `None` if it is
/// not 1 to `MOST_LINES`.
pub fn line_count(word: &str) -> Option<u32>
    ensures { MatchOption result (IsNoLineCount word.now) (IsLineCount word.now) }
{
    match read_number(word.as_bytes(), LINES_END) {
        Some(0) | None => None,
        Some(n) => Some(n as u32),
    }
}
