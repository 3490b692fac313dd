// What is printed of the answers to lines.
ghost use Rattle.std.specs.Prelude.{◌≡◌, ℕ, ⊤, All, IfOk, List, Some, flat_map};
ghost use Rattle.image_file.specs.Format.{image_on};
ghost use Rattle.image_file.specs.Lawful.{IsImage};
ghost use Rattle.image_jobs.specs.Jobs.{WritesLeft, file_of};
ghost use Rattle.item_session.specs.declared.answer.Answer.{Answer as item_answer};
ghost use Rattle.item_session.specs.Answer.{text_of as item_text};
ghost use Rattle.log_session.specs.declared.answer.Answer.{Answer as log_answer};
ghost use Rattle.log_session.specs.Answer.{text_of as log_text};
ghost use Rattle.mirror_session.specs.Answer.{CanReport, text_of as mirror_text};

use flash_map::FlashMap;
use flash_sim::{Bench, NoMemory};
use image_jobs::{Outcome, Output, file_left};
use std::alloc::Global;

// An answer to a line.
pub(crate) trait Answered {
    // What an answer must be to have a text.
    ghost can_report: { Self → Type 0 };

    ghost text_of: { Self → List ℕ };

    // Its text.
    fn text(&self, alloc: Global) -> Result<Vec<u8>, NoMemory>
        requires { can_report self.now }
        ensures { IfOk result (λ text. text.items ≡ text_of self.now) };
}

impl Answered for item_session::Answer {
    ghost can_report = { λ (answer : item_answer). ⊤ };

    ghost text_of = { item_text };

    fn text(&self, alloc: Global) -> Result<Vec<u8>, NoMemory> {
        item_session::answer_text(alloc, self)
    }
}

impl Answered for log_session::Answer {
    ghost can_report = { λ (answer : log_answer). ⊤ };

    ghost text_of = { log_text };

    fn text(&self, alloc: Global) -> Result<Vec<u8>, NoMemory> {
        log_session::answer_text(alloc, self)
    }
}

impl Answered for mirror_session::Answer {
    ghost can_report = { CanReport };

    ghost text_of = { mirror_text };

    fn text(&self, alloc: Global) -> Result<Vec<u8>, NoMemory> {
        mirror_session::answer_text(alloc, self)
    }
}

// The texts of all answers.
fn all_texts<A: Answered>(alloc: Global, answers: &[A]) -> Result<Vec<u8>, NoMemory>
    requires { All A.can_report answers.now }
    ensures { IfOk result (λ text. text.items ≡ flat_map A.text_of answers.now) }
{
    let mut all = Vec::new(alloc);
    for answer in answers {
        let text = answer.text(alloc)?;
        all.extend_from_slice(text.as_slice())?;
    }
    Ok(all)
}

// The texts of all answers, and the file of the image that is left.
pub(crate) fn outcome_of<'a, A: Answered, B: Bench>(
    alloc: Global,
    answers: &[A],
    out: &'a str,
    areas: &FlashMap,
    bench: &B,
) -> Result<Outcome<'a>, NoMemory>
    requires texts { All A.can_report answers.now }
    requires image { IsImage (image_on areas.now (B.device bench.now)) }
    ensures text { IfOk result
        (λ outcome. outcome.text.items ≡ flat_map A.text_of answers.now) }
    ensures file { IfOk result
        (λ outcome. WritesLeft (Some out.now) (image_on areas.now (B.device bench.now))
        (file_of outcome.file)) }
{
    let text = all_texts(alloc, answers)?;
    let file = file_left(alloc, &Output::Into { name: out }, areas, bench)?;
    Ok(Outcome { text, file })
}
