// Scripts on numbered items.
ghost use Rattle.std.specs.Prelude.{◌≡◌, IfOk, map};
ghost use Rattle.script_lines.specs.Script.{ReadsLines};
ghost use Rattle.item_session.specs.LineLaws.{EachIsRead, OneMeaning};
ghost use Rattle.item_session.specs.Line.{ReadsScript, item_forms, row_of};

use crate::ids::{Ids, IdsEnd, LongIds, ShortIds};
use crate::line::Line;
use crate::reading::read_line;
use flash_sim::NoMemory;
use script_lines::{LineFault, ScriptFault, ScriptLine, read_lines};
use std::alloc::Global;
use std::marker::PhantomData;

// A line whose ids are below the end that its type gives.
#[derive(Drop)]
struct LineBelow<I> {
    line: Line,
    ids: PhantomData<I>,
}

impl<I: IdsEnd> ScriptLine for LineBelow<I> {
    ghost use Rattle.item_session.specs.Line.{item_forms, row_of};

    ghost forms = { item_forms I.below };

    ghost says = { λ reported. row_of reported.line };

    fn read(alloc: Global, text: &[u8], limit: usize) -> Result<LineBelow<I>, LineFault> {
        match read_line(alloc, text, I::end(), limit) {
            Ok(line) => Ok(LineBelow {
                line,
                ids: PhantomData,
            }),
            Err(fault) => Err(fault),
        }
    }
}

// The lines alone.
fn lines_of<I>(alloc: Global, reported: Vec<LineBelow<I>>) -> Result<Vec<Line>, NoMemory>
    ensures { IfOk result
        (λ lines. map row_of lines.items ≡ map (λ below. row_of below.line) reported.items) }
{
    let mut lines = Vec::new(alloc);
    for below in reported {
        lines.push(below.line)?;
    }
    Ok(lines)
}

fn read_below<I: IdsEnd>(
    alloc: Global,
    bytes: &[u8],
    limit: usize,
) -> Result<Vec<Line>, ScriptFault>
    ensures { ReadsLines (item_forms I.below) row_of limit bytes.now result }
{
    let reported = read_lines::<LineBelow<I>>(alloc, bytes, limit)?;
    lines_of(alloc, reported).map_err(|_| ScriptFault::NoMemory)
}

/// Reads the lines of a script on numbered items.
///
/// Each line ends with LF; the last may lack it. An empty line and one that begins with `#` are
/// skipped, but counted. One space separates the words of a line. The lines are `set ID HEX`, `get
/// ID`, `del ID`, `older ID N`, `space`, `cut N`, `uncut` and `mount`. ID is one of `ids`. The N of
/// `older` is below `VERSIONS_END`, that of `cut` below `UNITS_END`. Numbers are in decimal without
/// a sign or leading zeros. HEX is at least one byte and at most `limit`, in digits of either case.
///
/// # Errors
/// `BadLine` if a line is no such line: the first one, with its first cause. `NoMemory`.
pub fn read_script(
    alloc: Global,
    bytes: &[u8],
    ids: Ids,
    limit: usize,
) -> Result<Vec<Line>, ScriptFault>
    ensures { ReadsScript ids limit bytes.now result }
{
    match ids {
        Ids::Short => read_below::<ShortIds>(alloc, bytes, limit),
        Ids::Long => read_below::<LongIds>(alloc, bytes, limit),
    }
}

/// No two lines say the same. By `script_lines::one_reading`, no text has two readings, or both a
/// reading and a refusal.
pub fn one_meaning()
    ensures { OneMeaning }
{}

/// Words are a line or are refused for some cause.
pub fn each_is_read()
    ensures { EachIsRead }
{}
