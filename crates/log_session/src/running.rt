// The run of all lines of a script.
ghost use Rattle.std.specs.Prelude.{◌≡◌, ℕ, ◌≤◌, ◌∷◌, true, All, None, IfOk, OnOk};
ghost use Rattle.fcb_ring.specs.Standing.{IsRingArea, erases_on, ring_damage};
ghost use Rattle.flash_map.specs.Area.{value_limit};
ghost use Rattle.log_session.specs.declared.line.Line.TheVariants.{Mount};
ghost use Rattle.log_session.specs.LineDone.{IsServed};
ghost use Rattle.log_session.specs.Owing.{MountsWithin, OwesOn, boot_units};
ghost use Rattle.log_session.specs.Running.{RunEnds};

use crate::answer::Answers;
use crate::fault::SessionFault;
use crate::line::Line;
use crate::session::LogSession;
use flash_map::Area;
use flash_sim::{Bench, Flash, Steps};
use std::alloc::Global;
use std::sync::ledger::Ledger;

/// Mounts the log of an area and carries out lines one after another. It returns the answers to the
/// mount and to each line. If power is on after the last line, another mount of the area would have
/// nothing to do. An area without damage has none afterwards, whatever the result. Take a number of
/// erases, at least `boot_units` and at least what the area owes (`OwesOn`). No mount of the run
/// reports more, and the area owes no more after the lines, whatever the result.
///
/// # Errors
/// `Damaged` with the damage that the area shows; the bench is then as before, except that power is
/// on. `NoMemory`: the bench is as the mount and the first lines left it.
pub fn run_lines<B: Bench, L: Ledger>(
    alloc: Global,
    lines: &[Line],
    bench: &mut B,
    area: &Area,
    steps: &mut Steps<L>,
) -> Result<Answers, SessionFault>
    requires area { IsRingArea (B.device bench.old).banks area.now }
    requires lines { All (IsServed (value_limit area.now)) lines.now }

    ensures ends { RunEnds area.now (Mount ∷ lines.now) (B.device bench.old) (B.device bench.new)
        result }
    ensures undamaged { ring_damage (B.device bench.old) area.now ≡ None
        → ring_damage (B.device bench.new) area.now ≡ None }
    ensures rests { OnOk result ((B.device bench.new).is_on ≡ true
        → erases_on (B.device bench.new) area.now ≡ 0) }
    ensures boots { let d = B.device bench.old in let e = B.device bench.new in
        (most : ℕ) → boot_units ≤ most → OwesOn d area.now most
        → OwesOn e area.now most
        × IfOk result (λ answers. MountsWithin most (Mount ∷ lines.now) answers) }
{
    let (mut session, first) = match LogSession::open(bench, area, steps) {
        Ok(opened) => opened,
        Err(damaged) => return Err(SessionFault::Damaged(damaged)),
    };
    let mut answers = Answers::new(alloc);
    match answers.push(first) {
        Ok(()) => {}
        Err(_) => return Err(SessionFault::NoMemory),
    }
    for line in lines {
        let answer = match session.carry_out(alloc, line, bench, steps) {
            Ok(answer) => answer,
            Err(_) => return Err(SessionFault::NoMemory),
        };
        match answers.push(answer) {
            Ok(()) => {}
            Err(_) => return Err(SessionFault::NoMemory),
        }
    }
    Ok(answers)
}
