// The run of all lines of a script.
ghost use Rattle.std.specs.Prelude.{◌≡◌, ◌∷◌, true, All, None, IfOk, OnOk};
ghost use Rattle.flash_map.specs.Area.{geometry_of};
ghost use Rattle.item_store.specs.Standing.{IsStoreArea};
ghost use Rattle.item_session.specs.declared.line.Line.TheVariants.{Mount};
ghost use Rattle.item_session.specs.Device.{IsServedOn, RestsOn, TakesValues};
ghost use Rattle.item_session.specs.Owing.{MountsWithin, OwesOn, boot_units};
ghost use Rattle.item_session.specs.Running.{RunEnds};
ghost use Rattle.item_session.specs.Standing.{damage_on};

use crate::answer::Answers;
use crate::fault::SessionFault;
use crate::line::Line;
use crate::session::ItemSession;
use flash_map::Area;
use flash_sim::{Bench, Flash, Steps};
use item_store::SlotSectors;
use std::alloc::Global;
use std::sync::ledger::Ledger;

/// Mounts the store of an area and carries out lines one after another. It returns the answers to
/// the mount and to each line. If power is on after the last line, another mount of the area would
/// have nothing to do. An area without damage has none afterwards, whatever the result. No mount of
/// the run reports more than `boot_units`, and an area without damage owes at most that after the
/// lines, whatever the result.
///
/// # Errors
/// `Damaged` with the damage that the area shows; the bench is then as before, except that power
/// is on. `NoMemory`: the bench is as the first lines left it, except that power may be on if a
/// mount was next.
pub fn run_lines<T: SlotSectors, B: Bench, L: Ledger>(
    alloc: Global,
    lines: &[Line],
    bench: &mut B,
    area: &Area,
    steps: &mut Steps<L>,
) -> Result<Answers, SessionFault>
    requires area { IsStoreArea T.role (B.device bench.old).banks area.now }
    requires values { TakesValues T.format_of (B.device bench.old) area.now }
    requires lines { All (IsServedOn T.format_of (B.device bench.old) area.now) lines.now }

    ensures ends { RunEnds T.format_of area.now (Mount ∷ lines.now)
        (B.device bench.old) (B.device bench.new) result }
    ensures undamaged { damage_on T.format_of (B.device bench.old) area.now ≡ None
        → damage_on T.format_of (B.device bench.new) area.now ≡ None }
    ensures rests { OnOk result ((B.device bench.new).is_on ≡ true
        → RestsOn T.format_of (B.device bench.new) area.now) }
    ensures boots { let d = B.device bench.old in
        IfOk result
        (λ answers. MountsWithin (boot_units T.format_of (geometry_of d area.now))
        (Mount ∷ lines.now) answers) }
    ensures left { let d = B.device bench.old in let area = area.now in
        damage_on T.format_of d area ≡ None
        → OwesOn T.format_of (B.device bench.new) area
        (boot_units T.format_of (geometry_of d area)) }
{
    let (mut session, first) = ItemSession::<T>::open(alloc, bench, area, steps)?;
    let mut answers = Answers::new(alloc);
    match answers.push(first) {
        Ok(()) => {}
        Err(_) => return Err(SessionFault::NoMemory),
    }
    for line in lines {
        let answer = match session.carry_out(alloc, line, bench, steps) {
            Ok(answer) => answer,
            Err(_) => return Err(SessionFault::NoMemory),
        };
        match answers.push(answer) {
            Ok(()) => {}
            Err(_) => return Err(SessionFault::NoMemory),
        }
    }
    Ok(answers)
}
