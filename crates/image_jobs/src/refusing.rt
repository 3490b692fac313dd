// The lines that refusals print.
ghost use Rattle.std.specs.Prelude.{◌≡◌, ◌++◌, ◌∷◌, [], codes, IfOk};
ghost use Rattle.std.specs.Fmt.{decimal};
ghost use Rattle.std.specs.String.{string_bytes};
ghost use Rattle.image_jobs.specs.Refusals.{file_why, area_why, script_why, line_of};

use crate::stops::Refusal;
use arrayvec::ArrayString;
use flash_map::{Damaged, Why};
use image_file::ImageWhy;
use script_lines::LineWhy;
use std::alloc::{AllocError, Global};

fn file_why(why: ImageWhy) -> &'static str
    ensures { result.now ≡ file_why why }
{
    match why {
        ImageWhy::BadMagic => "BadMagic",
        ImageWhy::BadVersion => "BadVersion",
        ImageWhy::BadBank => "BadBank",
        ImageWhy::BadArea => "BadArea",
        ImageWhy::Short => "Short",
        ImageWhy::Long => "Long",
    }
}

fn area_why(why: Why) -> &'static str
    ensures { result.now ≡ area_why why }
{
    match why {
        Why::AllClosed => "AllClosed",
        Why::TwoOpen => "TwoOpen",
        Why::Dirty => "Dirty",
        Why::NoFence => "NoFence",
        Why::Overfull => "Overfull",
        Why::BadHeader => "BadHeader",
        Why::BadSequence => "BadSequence",
    }
}

fn script_why(why: LineWhy) -> &'static str
    ensures { result.now ≡ script_why why }
{
    match why {
        LineWhy::Unknown => "Unknown",
        LineWhy::Words => "Words",
        LineWhy::Name => "Name",
        LineWhy::Kind => "Kind",
        LineWhy::Hex => "Hex",
        LineWhy::Long => "Long",
        LineWhy::Number => "Number",
    }
}

fn file_line(alloc: Global, at: u64, why: &str) -> Result<String, AllocError>
    ensures { IfOk result
        (λ text. string_bytes text
        ≡ codes "bad image: at " ++ decimal at ++ codes ": " ++ why.now ++ 10 ∷ []) }
{
    let mut text = format!(in alloc; "bad image: at {at}: ")?;
    text.push_str(why)?;
    text.push('\n')?;
    Ok(text)
}

fn script_line(alloc: Global, line: u64, why: &str) -> Result<String, AllocError>
    ensures { IfOk result
        (λ text. string_bytes text
        ≡ codes "bad script: line " ++ decimal line ++ codes ": " ++ why.now ++ 10 ∷ []) }
{
    let mut text = format!(in alloc; "bad script: line {line}: ")?;
    text.push_str(why)?;
    text.push('\n')?;
    Ok(text)
}

fn area_line(alloc: Global, label: &str, sector: u32, why: &str) -> Result<String, AllocError>
    ensures { IfOk result
        (λ text. string_bytes text
        ≡ codes "bad image: area " ++ label.now ++ codes " sector " ++ decimal sector ++ codes ": "
        ++ why.now ++ 10 ∷ []) }
{
    let mut text = format!(in alloc; "bad image: area {label} sector ")?;
    let place = format!(in alloc; "{sector}: ")?;
    text.push_str(place.as_str())?;
    text.push_str(why)?;
    text.push('\n')?;
    Ok(text)
}

fn bad_area(alloc: Global, label: &ArrayString<8>, damage: &Damaged) -> Result<String, AllocError>
    ensures { IfOk result
        (λ text. string_bytes text
        ≡ codes "bad image: area " ++ label.now.bytes ++ codes " sector "
        ++ decimal damage.now.sector ++ codes ": " ++ area_why damage.now.why ++ codes "\n") }
{
    let why = area_why(damage.why);
    area_line(alloc, label.as_str(), damage.sector, why)
}

/// The usage line.
pub const USAGE: &str =
    "usage: image_tool build OUT SPEC | run IMAGE SCRIPT OUT | dump IMAGE | migrate IMAGE OUT | gen OUT BACKEND N | log IMAGE SCRIPT OUT | items IMAGE SCRIPT OUT | mirror IMAGE SCRIPT OUT\n";

/// The line that a refusal prints.
///
/// # Errors
/// `AllocError`.
pub fn refusal_line(alloc: Global, refusal: &Refusal<'_>) -> Result<String, AllocError>
    ensures { IfOk result (λ text. string_bytes text ≡ line_of refusal.now) }
{
    match refusal {
        Refusal::BadSpec => String::from_str(alloc, USAGE),
        Refusal::NoFile { word } => format!(in alloc; "no file: {word}\n"),
        Refusal::BadFile { at, why } => {
            let why = file_why(*why);
            file_line(alloc, *at, why)
        }
        Refusal::NoLog => String::from_str(alloc, "bad image: no log\n"),
        Refusal::NoItems => String::from_str(alloc, "bad image: no items\n"),
        Refusal::NoMirror => String::from_str(alloc, "bad image: no mirror\n"),
        Refusal::BadArea { label, damage } => bad_area(alloc, label, damage),
        Refusal::Unfit { label } => {
            let label = label.as_str();
            format!(in alloc; "bad image: area {label}: Unfit\n")
        }
        Refusal::BadScript { line, why } => {
            let why = script_why(*why);
            script_line(alloc, *line, why)
        }
    }
}
