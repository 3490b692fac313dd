// Answers and their texts.
ghost use Rattle.std.specs.Prelude.{◌≡◌, IfOk};
ghost use Rattle.std.specs.String.{string_bytes};
ghost use Rattle.item_session.specs.Answer.{text_of};

use flash_sim::NoMemory;
use script_lines::{Bytes, ListOf};
use std::alloc::{AllocError, Global};

/// The answer to a line.
#[derive(Drop)]
pub enum Answer {
    /// The line was carried out. `units` counts units and erases.
    Done { units: u64 },
    /// The bytes of an item, or of a version of it.
    Value { value: Bytes },
    /// There is no such item.
    Absent,
    /// This version is a delete.
    Deleted,
    /// The area does not have this version: it was collected, or there never was one.
    Gone,
    /// In bytes: what the items cost, what the other entries cost, and what is free
    /// beside the items.
    Space { live: u64, stale: u64, free: u64 },
    /// There is no room for the item. `units` counts the units and erases that were spent; `need`
    /// is what the item costs, `live` what all items cost, both in bytes.
    NoSpace { units: u64, need: u64, live: u64 },
    /// Power was lost after `units` units and erases.
    Lost { units: u64 },
    /// Power is off.
    Off,
}

/// The answers to lines.
pub type Answers = ListOf<Answer>;

fn space_text(alloc: Global, live: u64, stale: u64, free: u64) -> Result<String, AllocError>
    ensures { IfOk result (λ text. string_bytes text ≡ text_of (Answer.Space live stale free)) }
{
    format!(in alloc; "space {live} {stale} {free}\n")
}

fn written(alloc: Global, answer: &Answer) -> Result<String, AllocError>
    ensures { IfOk result (λ text. string_bytes text ≡ text_of answer.now) }
{
    match answer {
        Answer::Done { units } => format!(in alloc; "ok {units}\n"),
        Answer::Value { value } => {
            let digits = hex::encode(alloc, value.as_slice())?;
            format!(in alloc; "value {digits}\n")
        }
        Answer::Absent => String::from_str(alloc, "none\n"),
        Answer::Deleted => String::from_str(alloc, "deleted\n"),
        Answer::Gone => String::from_str(alloc, "gone\n"),
        Answer::Space { live, stale, free } => space_text(alloc, *live, *stale, *free),
        Answer::NoSpace { units, .. } => format!(in alloc; "nospace {units}\n"),
        Answer::Lost { units } => format!(in alloc; "lost {units}\n"),
        Answer::Off => String::from_str(alloc, "off\n"),
    }
}

/// The text of an answer: one line with its LF, numbers in decimal, bytes in lower-case hexadecimal
/// digits. A refusal for want of room shows its units alone.
///
/// # Errors
/// `NoMemory`.
pub fn answer_text(alloc: Global, answer: &Answer) -> Result<Vec<u8>, NoMemory>
    ensures { IfOk result (λ text. text.items ≡ text_of answer.now) }
{
    let text = written(alloc, answer)?;
    Ok(text.into_bytes())
}
