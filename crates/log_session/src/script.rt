// Scripts on a log.
ghost use Rattle.std.specs.Prelude.{◌≡◌};
ghost use Rattle.script_lines.specs.Laws.{TableFits};
ghost use Rattle.log_session.specs.LineLaws.{EachIsRead, OneMeaning};
ghost use Rattle.log_session.specs.Line.{ReadsScript, log_forms};

use crate::line::Line;
use crate::reading::read_line;
use script_lines::{LineFault, ScriptFault, ScriptLine, read_lines};
use std::alloc::Global;

impl ScriptLine for Line {
    ghost use Rattle.log_session.specs.Line.{log_forms, row_of};

    ghost forms = { log_forms };

    ghost says = { row_of };

    fn read(alloc: Global, text: &[u8], limit: usize) -> Result<Line, LineFault> {
        read_line(alloc, text, limit)
    }
}

/// Reads the lines of a script on a log.
///
/// Each line ends with LF; the last may lack it. An empty line and one that begins with `#` are
/// skipped, but counted. One space separates the words of a line. The lines are `put HEX`, `all`,
/// `cut N`, `uncut` and `mount`. HEX is at least one byte and at most `limit`, in digits of either
/// case. N is below 2^32, in decimal without a sign or leading zeros.
///
/// # Errors
/// `BadLine` if a line is no such line: the first one, with its first cause. `NoMemory`.
pub fn read_script(alloc: Global, bytes: &[u8], limit: usize) -> Result<Vec<Line>, ScriptFault>
    ensures { ReadsScript limit bytes.now result }
{
    read_lines(alloc, bytes, limit)
}

/// No two lines say the same. By `script_lines::one_reading`, no text has two readings, or both a
/// reading and a refusal.
pub fn one_meaning()
    ensures { OneMeaning }
{}

/// Words are a line or are refused for some cause.
pub fn each_is_read()
    ensures { EachIsRead }
{}
