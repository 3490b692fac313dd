// Units and losses in answers, and the plan of a loss.
ghost use Rattle.std.specs.Prelude.{◌≡◌};
ghost use Rattle.script_lines.specs.Plan.{units_of, is_lost, PlannedInParts, NoLossUnplanned};

use crate::answer::Answer;

/// The units and erases that an answer reports; 0 if it reports none.
pub fn units_of(answer: &Answer) -> u64
    ensures { result ≡ units_of answer.now }
{
    match answer {
        Answer::Done { units } => *units,
        Answer::Lost { units, .. } => *units,
        Answer::NoSpace { units, .. } => *units,
        Answer::TooMany { units } => *units,
        Answer::Saved { units, .. } => *units,
        _ => 0,
    }
}

/// Whether the answer reports a power loss.
pub fn is_lost(answer: &Answer) -> bool
    ensures { result ≡ is_lost answer.now }
{
    match answer {
        Answer::Lost { .. } => true,
        _ => false,
    }
}

/// The plan after some lines is the plan before the next ones. With no plan at first, power is lost
/// only if a line plans it.
pub fn plans_of_lines()
    ensures parts { PlannedInParts }
    ensures unplanned { NoLossUnplanned }
{}
