// The reader of one line.
ghost use Rattle.std.specs.Prelude.{◌≡◌, ℕ};
ghost use Rattle.text_parts.specs.Parts.{parts};
ghost use Rattle.script_lines.specs.Line.{alone_word, name_word, subtree_word, IsAlone, IsOfName, IsOfSubtree, ReadsLine, ReadsBehind};

use crate::fields::{
    name_alone, name_and_bytes, name_and_bytes_or_dash, name_and_kind, name_or_nothing, nothing,
    number_alone,
};
use crate::line::{Line, UNITS_END};
use crate::why::LineFault::Refused;
use crate::why::{LineFault, LineWhy};
use setting_name::Name;
use std::alloc::Global;
use text_parts::cut_at;

// The first words that stand alone.
#[derive(Clone, Copy)]
enum Alone {
    Commit,
    Names,
    Mount,
    Uncut,
    Migrate,
}

// The first words before one name.
#[derive(Clone, Copy)]
enum OfName {
    Get,
    Del,
    RunGet,
}

// The first words before the name of a subtree, which may lack.
#[derive(Clone, Copy)]
enum OfSubtree {
    Load,
    Direct,
    Save,
}

fn line_alone(word: Alone) -> Line
    ensures { IsAlone word result }
{
    match word {
        Alone::Commit => Line::Commit,
        Alone::Names => Line::Names,
        Alone::Mount => Line::Mount,
        Alone::Uncut => Line::Uncut,
        Alone::Migrate => Line::Migrate,
    }
}

fn line_of_name(word: OfName, name: Name) -> Line
    ensures { IsOfName word name result }
{
    match word {
        OfName::Get => Line::Get { name },
        OfName::Del => Line::Del { name },
        OfName::RunGet => Line::RunGet { name },
    }
}

fn line_of_subtree(word: OfSubtree, subtree: Option<Name>) -> Line
    ensures { IsOfSubtree word subtree result }
{
    match word {
        OfSubtree::Load => Line::Load { subtree },
        OfSubtree::Direct => Line::Direct { subtree },
        OfSubtree::Save => Line::Save { subtree },
    }
}

fn read_alone(word: Alone, rest: Option<&[u8]>) -> Result<Line, LineFault>
    ensures { (limit : ℕ) → ReadsBehind limit (alone_word word) rest.entry result }
{
    match nothing(rest) {
        Ok(()) => Ok(line_alone(word)),
        Err(fault) => Err(fault),
    }
}

fn read_of_name(word: OfName, rest: Option<&[u8]>) -> Result<Line, LineFault>
    ensures { (limit : ℕ) → ReadsBehind limit (name_word word) rest.entry result }
{
    match name_alone(rest) {
        Ok(name) => Ok(line_of_name(word, name)),
        Err(fault) => Err(fault),
    }
}

fn read_of_subtree(word: OfSubtree, rest: Option<&[u8]>) -> Result<Line, LineFault>
    ensures { (limit : ℕ) → ReadsBehind limit (subtree_word word) rest.entry result }
{
    match name_or_nothing(rest) {
        Ok(subtree) => Ok(line_of_subtree(word, subtree)),
        Err(fault) => Err(fault),
    }
}

/// Reads a text as a line on settings. No value has more than `limit` bytes.
///
/// # Errors
/// `Refused` with the first cause of `LineWhy` if it is none; `NoMemory`.
pub fn read_line(alloc: Global, text: &[u8], limit: usize) -> Result<Line, LineFault>
    ensures { ReadsLine limit (parts 32 text.now) result }
{
    let (first, rest) = cut_at(text, b' ');
    let Ok(word) = str::from_utf8(first) else {
        return Err(Refused(LineWhy::Unknown));
    };
    match word {
        "set" => match name_and_bytes_or_dash(alloc, rest, limit) {
            Ok((name, value)) => Ok(Line::Set { name, value }),
            Err(fault) => Err(fault),
        },
        "get" => read_of_name(OfName::Get, rest),
        "del" => read_of_name(OfName::Del, rest),
        "register" => match name_and_kind(rest) {
            Ok((subtree, kind)) => Ok(Line::Register { subtree, kind }),
            Err(fault) => Err(fault),
        },
        "load" => read_of_subtree(OfSubtree::Load, rest),
        "direct" => read_of_subtree(OfSubtree::Direct, rest),
        "save" => read_of_subtree(OfSubtree::Save, rest),
        "commit" => read_alone(Alone::Commit, rest),
        "rset" => match name_and_bytes(alloc, rest, limit) {
            Ok((name, value)) => Ok(Line::RunSet { name, value }),
            Err(fault) => Err(fault),
        },
        "rget" => read_of_name(OfName::RunGet, rest),
        "names" => read_alone(Alone::Names, rest),
        "mount" => read_alone(Alone::Mount, rest),
        "cut" => match number_alone(rest, UNITS_END) {
            Ok(units) => Ok(Line::Cut { units }),
            Err(fault) => Err(fault),
        },
        "uncut" => read_alone(Alone::Uncut, rest),
        "migrate" => read_alone(Alone::Migrate, rest),
        _ => Err(Refused(LineWhy::Unknown)),
    }
}
