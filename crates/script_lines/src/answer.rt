// Answers and their texts.
ghost use Rattle.std.specs.Prelude.{◌≡◌, ◌∷◌, ◌++◌, [], false, map, IfOk, OnOk};
ghost use Rattle.std.specs.String.{string_bytes};
ghost use Rattle.std.specs.Fmt.{decimal};
ghost use Rattle.hex.specs.Hex.{encode_lower};
ghost use Rattle.serde_json.specs.Data.{string, put};
ghost use Rattle.serde_json.specs.View.{members_view};
ghost use Rattle.image_file.specs.Lawful.{IsLabel};
ghost use Rattle.script_lines.specs.Answer.{lines_text, lines_of, give_line, have_line, names_members, names_json, IsObjectText, AreBytesOf, dashed, taken_word, one, text_of, Rise, CanReport};
ghost use Rattle.script_lines.specs.Transcript.{OneListOfLines, OneTranscript};

use crate::lists::{Bytes, Give, Gives, Label, Pair, Pairs};
use flash_sim::NoMemory;
use serde_json::{Map, Value};
use std::alloc::{AllocError, Global};

/// How a `save` ended.
#[derive(Clone, Copy)]
pub enum SaveEnd {
    /// All pairs were stored.
    Whole,
    /// There was no room for a pair. `need` is what it needs, `live` what all settings cost,
    /// both in bytes.
    NoSpace { need: u64, live: u64 },
    /// A name was one too many.
    TooMany,
}

/// The answer to a line.
#[derive(Drop)]
pub enum Answer {
    /// The line was carried out. `units` counts units and erases.
    Done {
        units: u64,
    },
    /// A value.
    Value {
        value: Bytes,
    },
    /// There is no value.
    Absent,
    /// Power was lost after `units` units and erases. `chance`: a record that was cut passes its
    /// CRC by chance.
    Lost {
        units: u64,
        chance: bool,
    },
    /// Power is off.
    Off,
    /// There is no room for the setting. `units` counts the units and erases that were spent;
    /// `need` is what the setting needs, `live` what all settings cost, both in bytes.
    NoSpace {
        units: u64,
        need: u64,
        live: u64,
    },
    /// The name is one too many. `units` counts the units and erases that were spent.
    TooMany {
        units: u64,
    },
    /// The subtree has a handler already.
    Exists,
    /// No handler of the kind is left.
    NoKind,
    /// There is no other store area.
    NoTarget,
    /// The handler does not accept the value.
    Rejected,
    /// No handler is registered for the name.
    NoHandler,
    /// What a load gave to handlers. `taken` and `rejected` count these values; `passed` counts
    /// those without a handler.
    Loaded {
        gives: Gives,
        taken: u32,
        rejected: u32,
        passed: u32,
    },
    /// The stored settings, in byte order of the names.
    Direct {
        pairs: Pairs,
    },
    /// `pairs` pairs were stored, with `units` units and erases.
    Saved {
        pairs: u32,
        units: u64,
        end: SaveEnd,
    },
    /// The label of the active area, and all settings.
    Names {
        active: Label,
        pairs: Pairs,
    },
}

// Appends a byte string.
fn add(text: &mut Vec<u8>, bytes: &[u8]) -> Result<(), AllocError>
    ensures { OnOk result (text.new.items ≡ text.old.items ++ bytes.now) }
{
    text.extend_from_slice(bytes)
}

// Appends a word and a space.
fn add_word(text: &mut Vec<u8>, word: &[u8]) -> Result<(), AllocError>
    ensures { OnOk result (text.new.items ≡ text.old.items ++ word.now ++ 32 ∷ []) }
{
    add(text, word)?;
    add(text, b" ")
}

// Appends the last word of a line.
fn add_last(text: &mut Vec<u8>, word: &[u8]) -> Result<(), AllocError>
    ensures { OnOk result (text.new.items ≡ text.old.items ++ word.now ++ 10 ∷ []) }
{
    add(text, word)?;
    add(text, b"\n")
}

// Appends bytes in lower-case hexadecimal digits.
fn add_digits(alloc: Global, text: &mut Vec<u8>, bytes: &[u8]) -> Result<(), AllocError>
    ensures { OnOk result (text.new.items ≡ text.old.items ++ encode_lower bytes.now) }
{
    let digits = hex::encode(alloc, bytes)?;
    add(text, digits.as_bytes())
}

fn rest_or_dash(rest: &[u8]) -> &[u8]
    ensures { result.now ≡ dashed rest.now }
{
    if rest.is_empty() { b"-" } else { rest }
}

fn taken_or_rejected(taken: bool) -> &'static [u8]
    ensures { result.now ≡ taken_word taken }
{
    if taken { b"taken" } else { b"rejected" }
}

fn add_give(alloc: Global, text: &mut Vec<u8>, give: &Give) -> Result<(), AllocError>
    ensures { OnOk result
        (text.new.items ≡ text.old.items ++ lines_text (give_line give.now ∷ [])) }
{
    add_word(text, b"give")?;
    add_word(text, give.subtree.bytes())?;
    add_word(text, rest_or_dash(give.rest.as_slice()))?;
    add_digits(alloc, text, give.value.as_slice())?;
    add(text, b" ")?;
    add_last(text, taken_or_rejected(give.taken))
}

fn add_have(alloc: Global, text: &mut Vec<u8>, pair: &Pair) -> Result<(), AllocError>
    ensures { OnOk result
        (text.new.items ≡ text.old.items ++ lines_text (have_line pair.now ∷ [])) }
{
    add_word(text, b"have")?;
    add_word(text, pair.name.bytes())?;
    add_digits(alloc, text, pair.value.as_slice())?;
    add(text, b"\n")
}

fn give_lines(alloc: Global, gives: &[Give]) -> Result<Vec<u8>, AllocError>
    ensures { IfOk result (λ text. text.items ≡ lines_text (map give_line gives.now)) }
{
    let mut text = Vec::new(alloc);
    for give in gives {
        add_give(alloc, &mut text, give)?;
    }
    Ok(text)
}

fn have_lines(alloc: Global, pairs: &[Pair]) -> Result<Vec<u8>, AllocError>
    ensures { IfOk result (λ text. text.items ≡ lines_text (map have_line pairs.now)) }
{
    let mut text = Vec::new(alloc);
    for pair in pairs {
        add_have(alloc, &mut text, pair)?;
    }
    Ok(text)
}

// Puts the value of a name, in hexadecimal digits, into an object.
fn put_name(alloc: Global, names: &mut Map<String, Value>, pair: &Pair) -> Result<(), AllocError>
    ensures { OnOk result (members_view names.new.entries
        ≡ put pair.now.name (string (encode_lower pair.now.value)) (members_view names.old.entries)) }
{
    let name = String::from_utf8_lossy(alloc, pair.name.bytes())?;
    let digits = hex::encode(alloc, pair.value.as_slice())?;
    serde_json::put(names, alloc, name.as_str(), Value::String(digits))
}

fn names_of(alloc: Global, pairs: &[Pair]) -> Result<Map<String, Value>, AllocError>
    requires { Rise pairs.now }
    ensures { IfOk result (λ names. members_view names.entries ≡ names_members pairs.now) }
{
    let mut names = Map::new(alloc);
    for pair in pairs {
        put_name(alloc, &mut names, pair)?;
    }
    Ok(names)
}

fn object_text(alloc: Global, members: Map<String, Value>) -> Result<String, AllocError>
    ensures { IfOk result
        (λ text. IsObjectText (members_view members.entries) (string_bytes text)) }
{
    let object = Value::Object(members);
    object.to_string(alloc)
}

fn names_text(alloc: Global, active: &[u8], pairs: &[Pair]) -> Result<String, AllocError>
    requires label { IsLabel active.now }
    requires rise { Rise pairs.now }
    ensures { IfOk result (λ text. string_bytes text ≡ names_json active.now pairs.now) }
{
    let names = names_of(alloc, pairs)?;
    let label = String::from_utf8_lossy(alloc, active)?;
    let mut members = Map::new(alloc);
    serde_json::put(&mut members, alloc, "active", Value::String(label))?;
    serde_json::put(&mut members, alloc, "names", Value::Object(names))?;
    object_text(alloc, members)
}

fn saved_text(alloc: Global, pairs: u32, units: u64, end: SaveEnd) -> Result<String, AllocError>
    ensures { IfOk result (λ text. string_bytes text ≡ text_of (Answer.Saved pairs units end)) }
{
    match end {
        SaveEnd::Whole => format!(in alloc; "saved {pairs} {units}\n"),
        SaveEnd::NoSpace { .. } => format!(in alloc; "saved {pairs} nospace {units}\n"),
        SaveEnd::TooMany => format!(in alloc; "saved {pairs} toomany {units}\n"),
    }
}

fn lost_text(alloc: Global, units: u64, chance: bool) -> Result<String, AllocError>
    ensures { IfOk result (λ text. string_bytes text ≡ text_of (Answer.Lost units chance)) }
{
    if chance {
        format!(in alloc; "lost {units} chance\n")
    } else {
        number_text(alloc, "lost", units)
    }
}

fn loaded_text(
    alloc: Global,
    gives: &[Give],
    taken: u32,
    rejected: u32,
    passed: u32,
) -> Result<Vec<u8>, AllocError>
    ensures { IfOk result
        (λ text. text.items ≡ text_of (Answer.Loaded gives.now taken rejected passed)) }
{
    let mut text = give_lines(alloc, gives)?;
    let last = format!(in alloc; "loaded {taken} {rejected} {passed}\n")?;
    add(&mut text, last.as_bytes())?;
    Ok(text)
}

fn direct_text(alloc: Global, pairs: &[Pair]) -> Result<Vec<u8>, AllocError>
    ensures { IfOk result (λ text. text.items ≡ text_of (Answer.Direct pairs.now)) }
{
    let mut text = have_lines(alloc, pairs)?;
    let count = pairs.len();
    let last = format!(in alloc; "direct {count}\n")?;
    add(&mut text, last.as_bytes())?;
    Ok(text)
}

fn names_line(alloc: Global, active: &[u8], pairs: &[Pair]) -> Result<Vec<u8>, AllocError>
    requires label { IsLabel active.now }
    requires rise { Rise pairs.now }
    ensures { IfOk result (λ text. text.items ≡ text_of (Answer.Names active.now pairs.now)) }
{
    let object = names_text(alloc, active, pairs)?;
    let mut text = object.into_bytes();
    add(&mut text, b"\n")?;
    Ok(text)
}

fn value_text(alloc: Global, value: &[u8]) -> Result<String, AllocError>
    ensures { IfOk result (λ text. string_bytes text ≡ text_of (Answer.Value value.now)) }
{
    let digits = hex::encode(alloc, value)?;
    format!(in alloc; "value {digits}\n")
}

// A word and a number.
fn number_text(alloc: Global, word: &str, number: u64) -> Result<String, AllocError>
    ensures { IfOk result
        (λ text. string_bytes text ≡ lines_text (one (word.now ∷ decimal number ∷ []))) }
{
    format!(in alloc; "{word} {number}\n")
}

fn bytes_of(text: Result<String, AllocError>) -> Result<Vec<u8>, AllocError>
    ensures { AreBytesOf text result }
{
    match text {
        Ok(text) => Ok(text.into_bytes()),
        Err(error) => Err(error),
    }
}

fn written(alloc: Global, answer: &Answer) -> Result<Vec<u8>, AllocError>
    requires { CanReport answer.now }
    ensures { IfOk result (λ text. text.items ≡ text_of answer.now) }
{
    match answer {
        Answer::Done { units } => bytes_of(number_text(alloc, "ok", *units)),
        Answer::Value { value } => bytes_of(value_text(alloc, value.as_slice())),
        Answer::Absent => Vec::from_slice(alloc, b"none\n"),
        Answer::Lost { units, chance } => bytes_of(lost_text(alloc, *units, *chance)),
        Answer::Off => Vec::from_slice(alloc, b"off\n"),
        Answer::NoSpace { units, .. } => bytes_of(number_text(alloc, "nospace", *units)),
        Answer::TooMany { units } => bytes_of(number_text(alloc, "toomany", *units)),
        Answer::Exists => Vec::from_slice(alloc, b"exists\n"),
        Answer::NoKind => Vec::from_slice(alloc, b"nokind\n"),
        Answer::NoTarget => Vec::from_slice(alloc, b"notarget\n"),
        Answer::Rejected => Vec::from_slice(alloc, b"rejected\n"),
        Answer::NoHandler => Vec::from_slice(alloc, b"nohandler\n"),
        Answer::Loaded {
            gives,
            taken,
            rejected,
            passed,
        } => loaded_text(alloc, gives.as_slice(), *taken, *rejected, *passed),
        Answer::Direct { pairs } => direct_text(alloc, pairs.as_slice()),
        Answer::Saved { pairs, units, end } => bytes_of(saved_text(alloc, *pairs, *units, *end)),
        Answer::Names { active, pairs } => {
            names_line(alloc, active.as_slice(), pairs.as_slice())
        }
    }
}

/// The text of an answer: each line with its LF, numbers in decimal, bytes in lower-case
/// hexadecimal digits. The label of a `Names` answer must have 1 to 8 bytes of `a` to `z` and `0`
/// to `9`, and its names must be in rising byte order.
///
/// # Errors
/// `NoMemory`.
pub fn answer_text(alloc: Global, answer: &Answer) -> Result<Vec<u8>, NoMemory>
    requires { CanReport answer.now }
    ensures { IfOk result (λ text. text.items ≡ text_of answer.now) }
{
    Ok(written(alloc, answer)?)
}

/// A transcript, the texts of answers in a row, splits into lines for each answer in one way only.
/// It also reads as one list of answers, except for what they do not show: the bytes that were
/// needed and used, and whether an empty rest was `-`.
pub fn one_transcript()
    ensures lines { OneListOfLines }
    ensures answers { OneTranscript }
{}
