// The reader of one line.
ghost use Rattle.std.specs.Prelude.{◌≡◌};
ghost use Rattle.text_parts.specs.Parts.{parts};
ghost use Rattle.script_lines.specs.Forms.{ReadsOne};
ghost use Rattle.script_lines.specs.Forms.Field.{some_bytes};
ghost use Rattle.script_lines.specs.Forms.Said.{bytes};
ghost use Rattle.log_session.specs.Line.{FindsCommand, ReadsLine};

use crate::line::Line;
use script_lines::LineFault::Refused;
use script_lines::{
    Bytes, LineFault, LineWhy, UNITS_END, nothing, number_alone, one_word, read_bytes,
};
use std::alloc::Global;
use text_parts::cut_at;

// The first words.
#[derive(Clone, Copy)]
enum Command {
    Put,
    Records,
    Cut,
    Uncut,
    Mount,
}

fn command_of(word: &[u8]) -> Option<Command>
    ensures { FindsCommand word.now result }
{
    if word == b"put".as_slice() {
        Some(Command::Put)
    } else if word == b"all".as_slice() {
        Some(Command::Records)
    } else if word == b"cut".as_slice() {
        Some(Command::Cut)
    } else if word == b"uncut".as_slice() {
        Some(Command::Uncut)
    } else if word == b"mount".as_slice() {
        Some(Command::Mount)
    } else {
        None
    }
}

fn bytes_alone(alloc: Global, rest: Option<&[u8]>, limit: usize) -> Result<Bytes, LineFault>
    ensures { ReadsOne limit some_bytes bytes rest.entry result }
{
    read_bytes(alloc, one_word(rest)?, limit)
}

/// Reads a text as a line on a log. No body has more than `limit` bytes.
///
/// # Errors
/// `Refused` with the first cause of `LineWhy` if it is none; `NoMemory`.
pub fn read_line(alloc: Global, text: &[u8], limit: usize) -> Result<Line, LineFault>
    ensures { ReadsLine limit (parts 32 text.now) result }
{
    let (first, rest) = cut_at(text, b' ');
    let Some(command) = command_of(first) else {
        return Err(Refused(LineWhy::Unknown));
    };
    match command {
        Command::Put => {
            let body = bytes_alone(alloc, rest, limit)?;
            Ok(Line::Put { body })
        }
        Command::Records => {
            nothing(rest)?;
            Ok(Line::Records)
        }
        Command::Cut => {
            let units = number_alone(rest, UNITS_END)?;
            Ok(Line::Cut { units })
        }
        Command::Uncut => {
            nothing(rest)?;
            Ok(Line::Uncut)
        }
        Command::Mount => {
            nothing(rest)?;
            Ok(Line::Mount)
        }
    }
}
