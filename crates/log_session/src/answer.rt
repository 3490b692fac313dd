// Answers and their texts.
ghost use Rattle.std.specs.Prelude.{◌≡◌, ◌∷◌, ◌++◌, [], map, IfOk, OnOk};
ghost use Rattle.std.specs.String.{string_bytes};
ghost use Rattle.hex.specs.Hex.{encode_lower};
ghost use Rattle.script_lines.specs.Answer.{dashed, lines_text};
ghost use Rattle.log_session.specs.Answer.{record_line, text_of};

use flash_sim::NoMemory;
use script_lines::{Bytes, ListOf};
use std::alloc::{AllocError, Global};

/// The bodies of records, in order.
pub type Bodies = ListOf<Bytes>;

/// The answer to a line.
#[derive(Drop)]
pub enum Answer {
    /// The line was carried out. `units` counts units and erases.
    Done { units: u64 },
    /// A record was appended, with `units` units and erases. `dropped` records that pass their CRC
    /// were dropped for it.
    Appended { units: u64, dropped: u32 },
    /// The bodies of all records, the oldest first.
    Log { bodies: Bodies },
    /// Power was lost after `units` units and erases. `chance`: a record that was cut passes its
    /// CRC by chance.
    Lost { units: u64, chance: bool },
    /// Power is off.
    Off,
}

/// The answers to lines.
pub type Answers = ListOf<Answer>;

// Appends a byte string.
fn add(text: &mut Vec<u8>, bytes: &[u8]) -> Result<(), AllocError>
    ensures { OnOk result (text.new.items ≡ text.old.items ++ bytes.now) }
{
    text.extend_from_slice(bytes)
}

// The digits of a body, or `-` if it is empty.
fn digits_or_dash(digits: &[u8]) -> &[u8]
    ensures { result.now ≡ dashed digits.now }
{
    if digits.is_empty() { b"-" } else { digits }
}

fn add_record(alloc: Global, text: &mut Vec<u8>, body: &Bytes) -> Result<(), AllocError>
    ensures { OnOk result
        (text.new.items ≡ text.old.items ++ lines_text (record_line body.now ∷ [])) }
{
    let digits = hex::encode(alloc, body.as_slice())?;
    add(text, b"record ")?;
    add(text, digits_or_dash(digits.as_bytes()))?;
    add(text, b"\n")
}

fn record_lines(alloc: Global, bodies: &[Bytes]) -> Result<Vec<u8>, AllocError>
    ensures { IfOk result (λ text. text.items ≡ lines_text (map record_line bodies.now)) }
{
    let mut text = Vec::new(alloc);
    for body in bodies {
        add_record(alloc, &mut text, body)?;
    }
    Ok(text)
}

fn log_text(alloc: Global, bodies: &[Bytes]) -> Result<Vec<u8>, AllocError>
    ensures { IfOk result (λ text. text.items ≡ text_of (Answer.Log bodies.now)) }
{
    let mut text = record_lines(alloc, bodies)?;
    let count = bodies.len();
    let last = format!(in alloc; "log {count}\n")?;
    add(&mut text, last.as_bytes())?;
    Ok(text)
}

fn lost_text(alloc: Global, units: u64, chance: bool) -> Result<String, AllocError>
    ensures { IfOk result (λ text. string_bytes text ≡ text_of (Answer.Lost units chance)) }
{
    if chance {
        format!(in alloc; "lost {units} chance\n")
    } else {
        format!(in alloc; "lost {units}\n")
    }
}

fn written(alloc: Global, answer: &Answer) -> Result<Vec<u8>, AllocError>
    ensures { IfOk result (λ text. text.items ≡ text_of answer.now) }
{
    let text = match answer {
        Answer::Done { units } => format!(in alloc; "ok {units}\n")?,
        Answer::Appended { units, dropped } => format!(in alloc; "ok {units} {dropped}\n")?,
        Answer::Log { bodies } => return log_text(alloc, bodies.as_slice()),
        Answer::Lost { units, chance } => lost_text(alloc, *units, *chance)?,
        Answer::Off => String::from_str(alloc, "off\n")?,
    };
    Ok(text.into_bytes())
}

/// The text of an answer: each line with its LF, numbers in decimal, bytes in lower-case
/// hexadecimal digits, an empty body as `-`.
///
/// # Errors
/// `NoMemory`.
pub fn answer_text(alloc: Global, answer: &Answer) -> Result<Vec<u8>, NoMemory>
    ensures { IfOk result (λ text. text.items ≡ text_of answer.now) }
{
    Ok(written(alloc, answer)?)
}
