// The reader of one line.
ghost use Rattle.std.specs.Prelude.{◌≡◌, ℕ};
ghost use Rattle.text_parts.specs.Parts.{parts};
ghost use Rattle.script_lines.specs.Forms.{ReadsOne};
ghost use Rattle.script_lines.specs.Forms.Field.{a_label};
ghost use Rattle.script_lines.specs.Forms.Said.{label};
ghost use Rattle.mirror_session.specs.Line.{FindsCommand, ReadsLine};

use crate::line::Line;
use script_lines::LineFault::Refused;
use script_lines::{
    Label, LineFault, LineWhy, UNITS_END, name_alone, name_and_bytes_or_dash, nothing,
    number_alone, one_word, read_label,
};
use std::alloc::Global;
use text_parts::cut_at;

// The first words.
#[derive(Clone, Copy)]
enum Command {
    Set,
    Get,
    Del,
    Names,
    Mount,
    Cut,
    Uncut,
    Blank,
}

fn command_of(word: &[u8]) -> Option<Command>
    ensures { FindsCommand word.now result }
{
    if word == b"set".as_slice() {
        Some(Command::Set)
    } else if word == b"get".as_slice() {
        Some(Command::Get)
    } else if word == b"del".as_slice() {
        Some(Command::Del)
    } else if word == b"names".as_slice() {
        Some(Command::Names)
    } else if word == b"mount".as_slice() {
        Some(Command::Mount)
    } else if word == b"cut".as_slice() {
        Some(Command::Cut)
    } else if word == b"uncut".as_slice() {
        Some(Command::Uncut)
    } else if word == b"blank".as_slice() {
        Some(Command::Blank)
    } else {
        None
    }
}

fn label_alone(alloc: Global, rest: Option<&[u8]>) -> Result<Label, LineFault>
    ensures { (limit : ℕ) → ReadsOne limit a_label label rest.entry result }
{
    read_label(alloc, one_word(rest)?)
}

/// Reads a text as a line on a mirror. No value has more than `limit` bytes.
///
/// # Errors
/// `Refused` with the first cause of `LineWhy` if it is none; `NoMemory`.
pub fn read_line(alloc: Global, text: &[u8], limit: usize) -> Result<Line, LineFault>
    ensures { ReadsLine limit (parts 32 text.now) result }
{
    let (first, rest) = cut_at(text, b' ');
    let Some(command) = command_of(first) else {
        return Err(Refused(LineWhy::Unknown));
    };
    match command {
        Command::Set => {
            let (name, value) = name_and_bytes_or_dash(alloc, rest, limit)?;
            Ok(Line::Set { name, value })
        }
        Command::Get => {
            let name = name_alone(rest)?;
            Ok(Line::Get { name })
        }
        Command::Del => {
            let name = name_alone(rest)?;
            Ok(Line::Del { name })
        }
        Command::Names => {
            nothing(rest)?;
            Ok(Line::Names)
        }
        Command::Mount => {
            nothing(rest)?;
            Ok(Line::Mount)
        }
        Command::Cut => {
            let units = number_alone(rest, UNITS_END)?;
            Ok(Line::Cut { units })
        }
        Command::Uncut => {
            nothing(rest)?;
            Ok(Line::Uncut)
        }
        Command::Blank => {
            let label = label_alone(alloc, rest)?;
            Ok(Line::Blank { label })
        }
    }
}
