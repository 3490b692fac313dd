// Units and losses in answers.
ghost use Rattle.std.specs.Prelude.{◌≡◌};
ghost use Rattle.item_session.specs.Plan.{units_of, is_lost};

use crate::answer::Answer;

/// The units and erases that an answer reports; 0 if it reports none.
pub fn units_of(answer: &Answer) -> u64
    ensures { result ≡ units_of answer.now }
{
    match answer {
        Answer::Done { units } => *units,
        Answer::NoSpace { units, .. } => *units,
        Answer::Lost { units } => *units,
        _ => 0,
    }
}

/// Whether the answer reports a power loss.
pub fn is_lost(answer: &Answer) -> bool
    ensures { result ≡ is_lost answer.now }
{
    match answer {
        Answer::Lost { .. } => true,
        _ => false,
    }
}
