// The run of all lines of a script.
ghost use Rattle.std.specs.Prelude.{◌≡◌, ℕ, ◌≤◌, ◌∷◌, false, All, IfOk};
ghost use Rattle.mirror.specs.Trusted.{IsMirrorMap};
ghost use Rattle.mirror_session.specs.declared.line.Line.TheVariants.{Mount};
ghost use Rattle.mirror_session.specs.Answer.{CanReport};
ghost use Rattle.mirror_session.specs.Bench.{meanings, moment};
ghost use Rattle.mirror_session.specs.LineDone.{IsServed};
ghost use Rattle.mirror_session.specs.Owing.{BootsWithin, OwesAt};
ghost use Rattle.mirror_session.specs.Running.{RunEnds};
ghost use Rattle.session.specs.OnMap.{limit_of};
ghost use Rattle.session.specs.Owing.{greatest_boot};
ghost use Rattle.session.specs.Texts.{AreLabelled};

use crate::answer::Answers;
use crate::carrying::MirrorSession;
use crate::fault::SessionFault;
use crate::line::Line;
use flash_map::FlashMap;
use flash_sim::{Bench, Flash, Steps};
use mirror::Priced;
use std::alloc::Global;
use std::sync::ledger::Ledger;

/// Mounts the mirror of a map and carries out lines one after another. It returns the answers to
/// the mount and to each line. If the labels of the map are lawful, each answer has a text
/// (`answer_text`).
///
/// Let `due` be at least 1, and `most` at least what one cut command leaves (`greatest_boot`). If at
/// most `due` erases are due in the selector, and the area that is read owes at most `most` units
/// and erases (`OwesAt`), then the same holds after the lines, whatever the result. Each mount of
/// the run reports at most that, one choice if the selector names another area, and the mount and
/// the repair of the other area for the names that the settings have then. If both areas owe at
/// most `most` before a mount, the mount of the other area is within `most` too (`BootDone`). Both
/// do from a whole mount on until one is cut, and so at the end if the last mount was whole.
///
/// # Errors
/// `Damaged` if a mount, the opening one or a later one, finds damage. `Unfit` if it finds settings
/// that do not fit one of the areas; this never happens after a whole mount, nor if the first
/// settings fit both areas. `NoMemory`. The bench is as the first lines left it, except for what
/// the line that failed had begun.
pub fn run_lines<K: Priced, B: Bench, L: Ledger>(
    alloc: Global,
    lines: &[Line],
    bench: &mut B,
    map: &FlashMap,
    steps: &mut Steps<L>,
) -> Result<Answers, SessionFault>
    requires map { IsMirrorMap K.serves map.now (B.device bench.old) }
    requires lines { All (IsServed (limit_of map.now)) lines.now }
    ensures ends { let m = meanings K.damage K.contents K.rests K.room K.prices K.owes in
        RunEnds m map.now (Mount ∷ lines.now) (moment (B.device bench.old) false)
        (B.device bench.new) result }
    ensures texts { AreLabelled map.now → IfOk result (λ answers. All CanReport answers) }
    ensures boots { let m = meanings K.damage K.contents K.rests K.room K.prices K.owes in
        let d = B.device bench.old in let e = B.device bench.new in let areas = map.now in
        let limit = greatest_boot K.boot_units d.banks areas in
        (due most : ℕ) → 1 ≤ due → limit ≤ most
        → OwesAt K.owes areas (moment d false) due most
        → OwesAt K.owes areas (moment e false) due most
        × IfOk result
        (λ answers. BootsWithin K.owes m areas due most (Mount ∷ lines.now) answers
        (moment d false) e) }
{
    let (mut session, first) = match MirrorSession::<K>::open(alloc, bench, map, steps) {
        Ok(opened) => opened,
        Err(fault) => return Err(fault),
    };
    let mut answers = Answers::new(alloc);
    match answers.push(first) {
        Ok(()) => {}
        Err(_) => return Err(SessionFault::NoMemory),
    }
    for line in lines {
        let answer = match session.carry_out(alloc, line, bench, map, steps) {
            Ok(answer) => answer,
            Err(fault) => return Err(fault),
        };
        match answers.push(answer) {
            Ok(()) => {}
            Err(_) => return Err(SessionFault::NoMemory),
        }
    }
    Ok(answers)
}
