// The reader of one line.
ghost use Rattle.std.specs.Prelude.{◌≡◌, ℕ, ◌^◌, ◌≤◌};
ghost use Rattle.text_parts.specs.Parts.{parts};
ghost use Rattle.script_lines.specs.Forms.{ReadsField, ReadsOne, ReadsTwo};
ghost use Rattle.script_lines.specs.Forms.Field.{some_bytes, below};
ghost use Rattle.script_lines.specs.Forms.Said.{bytes, number};
ghost use Rattle.item_session.specs.declared.line.TheConstants.{VERSIONS_END as versions_end};
ghost use Rattle.item_session.specs.Line.{FindsCommand, ReadsLine};

use crate::line::{Line, VERSIONS_END};
use script_lines::LineFault::Refused;
use script_lines::{
    Bytes, LineFault, LineWhy, UNITS_END, nothing, number_alone, one_word, read_bytes,
    read_number_below, two_words,
};
use std::alloc::Global;
use text_parts::cut_at;

// The first words.
#[derive(Clone, Copy)]
enum Command {
    Set,
    Get,
    Delete,
    Older,
    Space,
    Cut,
    Uncut,
    Mount,
}

fn command_of(word: &[u8]) -> Option<Command>
    ensures { FindsCommand word.now result }
{
    if word == b"set".as_slice() {
        Some(Command::Set)
    } else if word == b"get".as_slice() {
        Some(Command::Get)
    } else if word == b"del".as_slice() {
        Some(Command::Delete)
    } else if word == b"older".as_slice() {
        Some(Command::Older)
    } else if word == b"space".as_slice() {
        Some(Command::Space)
    } else if word == b"cut".as_slice() {
        Some(Command::Cut)
    } else if word == b"uncut".as_slice() {
        Some(Command::Uncut)
    } else if word == b"mount".as_slice() {
        Some(Command::Mount)
    } else {
        None
    }
}

// Reads a number below `end`, which has at most 32 bits.
fn read_small(word: &[u8], end: u64) -> Result<u32, LineFault>
    requires { end ≤ 2 ^ 32 }
    ensures { (limit : ℕ) → ReadsField limit (below end) number word.now result }
{
    match read_number_below(word, end) {
        Ok(found) => Ok(found as u32),
        Err(fault) => Err(fault),
    }
}

fn id_alone(rest: Option<&[u8]>, ids: u64) -> Result<u32, LineFault>
    requires { ids ≤ 2 ^ 32 }
    ensures { (limit : ℕ) → ReadsOne limit (below ids) number rest.entry result }
{
    read_small(one_word(rest)?, ids)
}

// The bytes are read before the id, since their causes come first.
fn id_and_bytes(
    alloc: Global,
    rest: Option<&[u8]>,
    ids: u64,
    limit: usize,
) -> Result<(u32, Bytes), LineFault>
    requires { ids ≤ 2 ^ 32 }
    ensures { ReadsTwo limit (below ids) some_bytes number bytes rest.entry result }
{
    let (first, second) = two_words(rest)?;
    let value = read_bytes(alloc, second, limit)?;
    let id = read_small(first, ids)?;
    Ok((id, value))
}

fn id_and_number(rest: Option<&[u8]>, ids: u64) -> Result<(u32, u32), LineFault>
    requires { ids ≤ 2 ^ 32 }
    ensures { (limit : ℕ)
        → ReadsTwo limit (below ids) (below versions_end) number number rest.entry result }
{
    let (first, second) = two_words(rest)?;
    let id = read_small(first, ids)?;
    let n = read_small(second, VERSIONS_END)?;
    Ok((id, n))
}

/// Reads a text as a line on items. Ids are below `ids`, and no value has more than `limit` bytes.
///
/// # Errors
/// `Refused` with the first cause of `LineWhy` if it is none; `NoMemory`.
pub fn read_line(alloc: Global, text: &[u8], ids: u64, limit: usize) -> Result<Line, LineFault>
    requires { ids ≤ 2 ^ 32 }
    ensures { ReadsLine ids limit (parts 32 text.now) result }
{
    let (first, rest) = cut_at(text, b' ');
    let Some(command) = command_of(first) else {
        return Err(Refused(LineWhy::Unknown));
    };
    match command {
        Command::Set => {
            let (id, value) = id_and_bytes(alloc, rest, ids, limit)?;
            Ok(Line::Set { id, value })
        }
        Command::Get => {
            let id = id_alone(rest, ids)?;
            Ok(Line::Get { id })
        }
        Command::Delete => {
            let id = id_alone(rest, ids)?;
            Ok(Line::Delete { id })
        }
        Command::Older => {
            let (id, n) = id_and_number(rest, ids)?;
            Ok(Line::Older { id, n })
        }
        Command::Space => {
            nothing(rest)?;
            Ok(Line::Space)
        }
        Command::Cut => {
            let units = number_alone(rest, UNITS_END)?;
            Ok(Line::Cut { units })
        }
        Command::Uncut => {
            nothing(rest)?;
            Ok(Line::Uncut)
        }
        Command::Mount => {
            nothing(rest)?;
            Ok(Line::Mount)
        }
    }
}
