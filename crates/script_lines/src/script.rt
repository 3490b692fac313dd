// Scripts on settings.
ghost use Rattle.script_lines.specs.Laws.{OneLine, OneCause, OneScript, OneRefusal, OneMeaning, TableFits, EachIsRead};
ghost use Rattle.script_lines.specs.Line.{settings_forms};
ghost use Rattle.script_lines.specs.Script.{ReadsScript};

use crate::grammar::{ScriptFault, ScriptLine, read_lines};
use crate::line::Line;
use crate::reading::read_line;
use crate::why::LineFault;
use std::alloc::Global;

impl ScriptLine for Line {
    ghost use Rattle.script_lines.specs.Line.{settings_forms, row_of};

    ghost forms = { settings_forms };

    ghost says = { row_of };

    fn read(alloc: Global, text: &[u8], limit: usize) -> Result<Line, LineFault> {
        read_line(alloc, text, limit)
    }
}

/// Reads the lines of a script on settings, as `read_lines` does.
///
/// The lines are `set NAME HEX`, where HEX may be `-` for no bytes; `get NAME`; `del NAME`;
/// `register NAME KIND`; `load`, `direct` and `save`, each alone or with a NAME; `rset NAME
/// HEX`; `rget NAME`; `cut N` with N below `UNITS_END`; and `commit`, `names`, `mount`, `uncut`
/// and `migrate`.
///
/// # Errors
/// Those of `read_lines`.
pub fn read_script(alloc: Global, bytes: &[u8], limit: u32) -> Result<Vec<Line>, ScriptFault>
    ensures { ReadsScript limit bytes.now result }
{
    read_lines(alloc, bytes, limit as usize)
}

/// For any table: words are at most one line, and are then not refused. They are refused for at
/// most one cause. A text is at most one script, and then none of its lines is refused. It has at
/// most one first refused line, with one cause. No two lines on settings say the same.
pub fn one_reading()
    ensures line { OneLine }
    ensures cause { OneCause }
    ensures script { OneScript }
    ensures refusal { OneRefusal }
    ensures meaning { OneMeaning }
{}

/// For any table whose numbers have at most 64 bits, words are a line or are refused for some
/// cause. The table of the lines on settings is such a table.
pub fn each_is_read()
    ensures read { EachIsRead }
    ensures settings { TableFits settings_forms }
{}
