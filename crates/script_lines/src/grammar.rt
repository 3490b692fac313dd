// Scripts of lines by a table of forms, for any type of lines.
ghost use Rattle.std.specs.Prelude.{◌≡◌};
ghost use Rattle.script_lines.specs.Script.{is_skipped, TakesText, ReadsLines};

use crate::why::{LineFault, LineWhy};
use std::alloc::Global;
use text_parts::cut_at;
use thiserror::Error;

/// Why a script was not read.
#[derive(Clone, Copy, Debug, PartialEq, Eq, Error)]
pub enum ScriptFault {
    /// The number of the first refused line, from 1, with skipped lines counted too, and
    /// its first cause.
    #[error("line {line} is refused")]
    BadLine { line: u64, why: LineWhy },
    /// There was not enough memory.
    #[error("out of memory")]
    NoMemory,
}

/// The lines of a grammar. Each line says a row of the grammar's table.
pub trait ScriptLine: Sized + Drop {
    ghost use Rattle.std.specs.Prelude.{List};
    ghost use Rattle.text_parts.specs.Parts.{parts};
    ghost use Rattle.script_lines.specs.Forms.{Form, Row, ReadsRow};

    /// The table of forms.
    ghost forms: { List Form };

    /// What a line says: its first word, and what the others say.
    ghost says: { Self → Row };

    /// Reads a text as a line. No value has more than `limit` bytes.
    ///
    /// # Errors
    /// `Refused` with the first cause of `LineWhy` if it is none; `NoMemory`.
    fn read(alloc: Global, text: &[u8], limit: usize) -> Result<Self, LineFault>
        ensures { ReadsRow forms says limit (parts 32 text.now) result };
}

fn is_skipped(text: &[u8]) -> bool
    ensures { result ≡ is_skipped text.now }
{
    match text {
        [] => true,
        [first, ..] => *first == b'#',
    }
}

// Takes one text of a script, the line of this number.
fn take_text<L: ScriptLine>(
    alloc: Global,
    text: &[u8],
    limit: usize,
    line: u64,
    lines: &mut Vec<L>,
) -> Result<(), ScriptFault>
    ensures { TakesText L.forms L.says limit text.now line lines.old.items lines.new.items result }
{
    if is_skipped(text) {
        return Ok(());
    }
    match L::read(alloc, text, limit) {
        Ok(said) => lines.push(said).map_err(|_| ScriptFault::NoMemory),
        Err(LineFault::Refused(why)) => Err(ScriptFault::BadLine { line, why }),
        Err(LineFault::NoMemory) => Err(ScriptFault::NoMemory),
    }
}

/// Reads the lines of a script.
///
/// Each line ends with LF; the last may lack it. An empty line and one that begins with `#` are
/// skipped, but counted. One space separates the words of a line. No value has more than
/// `limit` bytes.
///
/// # Errors
/// `BadLine` if a line is no line of the table: the first such line, with its first
/// cause. `NoMemory`.
pub fn read_lines<L: ScriptLine>(
    alloc: Global,
    bytes: &[u8],
    limit: usize,
) -> Result<Vec<L>, ScriptFault>
    ensures { ReadsLines L.forms L.says limit bytes.now result }
{
    let mut lines = Vec::new(alloc);
    let mut rest = Some(bytes);
    let mut number = 0u64;
    while let Some(texts) = rest {
        let (text, after) = cut_at(texts, b'\n');
        number += 1;
        match take_text(alloc, text, limit, number, &mut lines) {
            Ok(()) => rest = after,
            Err(fault) => return Err(fault),
        }
    }
    Ok(lines)
}
