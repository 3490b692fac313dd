// Answers and their texts.
ghost use Rattle.std.specs.Prelude.{◌≡◌, IfOk};
ghost use Rattle.mirror_session.specs.Answer.{CanReport, done, lost, off, text_of};

use flash_sim::NoMemory;
use script_lines::{Answer as SettingsAnswer, ListOf};
use std::alloc::Global;

/// The answer to a line.
#[derive(Drop)]
pub enum Answer {
    /// An answer that a line on settings gives too.
    Plain { answer: SettingsAnswer },
    /// Power is on; an area is replaced only with power off.
    On,
    /// No store area has this label.
    NoArea,
    /// The last mount was cut, or an area was replaced after it.
    NotYet,
}

/// The answers to lines.
pub type Answers = ListOf<Answer>;

impl Answer {
    /// `ok`, with `units` units and erases.
    pub fn done(units: u64) -> Answer
        ensures { result ≡ done units }
    {
        Answer::Plain {
            answer: SettingsAnswer::Done { units },
        }
    }

    /// Power was lost after `units` units and erases. No record passes its CRC by chance.
    pub fn lost(units: u64) -> Answer
        ensures { result ≡ lost units }
    {
        Answer::Plain {
            answer: SettingsAnswer::Lost {
                units,
                chance: false,
            },
        }
    }

    /// Power is off.
    pub fn off() -> Answer
        ensures { result ≡ off }
    {
        Answer::Plain {
            answer: SettingsAnswer::Off,
        }
    }
}

// The bytes of a text.
fn bytes_of(alloc: Global, text: &str) -> Result<Vec<u8>, NoMemory>
    ensures { IfOk result (λ bytes. bytes.items ≡ text.now) }
{
    match String::from_str(alloc, text) {
        Ok(owned) => Ok(owned.into_bytes()),
        Err(_) => Err(NoMemory),
    }
}

/// The text of an answer: each line with its LF, numbers in decimal, bytes in lower-case
/// hexadecimal digits. The label of a `Names` answer must have 1 to 8 bytes of `a` to `z` and `0`
/// to `9`, and its names must be in rising byte order.
///
/// # Errors
/// `NoMemory`.
pub fn answer_text(alloc: Global, answer: &Answer) -> Result<Vec<u8>, NoMemory>
    requires { CanReport answer.now }
    ensures { IfOk result (λ text. text.items ≡ text_of answer.now) }
{
    match answer {
        Answer::Plain { answer } => script_lines::answer_text(alloc, answer),
        Answer::On => bytes_of(alloc, "on\n"),
        Answer::NoArea => bytes_of(alloc, "noarea\n"),
        Answer::NotYet => bytes_of(alloc, "notyet\n"),
    }
}
