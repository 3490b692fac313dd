// Lines on a bench that holds an image.
ghost use Rattle.std.specs.Prelude.{◌≡◌, ℕ, ◌≤◌, ◌∷◌, [], true, None, All, IfErr, IfOk, OnOk};
ghost use Rattle.handlers.specs.Registry.{registered};
ghost use Rattle.script_lines.specs.Answer.{CanReport};
ghost use Rattle.script_lines.specs.declared.line.Line.TheVariants.{Mount};
ghost use Rattle.session_table.specs.Bench.{area_at};
ghost use Rattle.session.specs.declared.fault.SessionFault.TheVariants.{NoMemory as WantsMemory};
ghost use Rattle.session.specs.OnMap.{IsAtRest, IsFresh, IsServed, IsServedMap, RunEnds, damage_in, kinds, limit_of, meanings, moment};
ghost use Rattle.session.specs.Owing.{MountsWithin, OwesOnMap, map_boot};
ghost use Rattle.session.specs.Texts.{AreLabelled};
ghost use Rattle.image_jobs.specs.Jobs.{IsStop};
ghost use Rattle.image_jobs.specs.Ledgers.{IsNewLedger};

use crate::stops::{Refusal, Stop};
use arrayvec::ArrayString;
use backend_api::Backend;
use flash_map::FlashMap;
use flash_sim::{Bench, Steps};
use handlers::{Handler, Registry};
use script_lines::Line;
use session::{Answers, SessionFault, run_lines};
use std::alloc::Global;
use std::sync::ledger::{Blank, Ledger};

/// The label of the area at this place; an empty one if there is no such area.
pub fn label_at(areas: &FlashMap, place: usize) -> ArrayString<8>
    ensures { result.bytes ≡ (area_at areas.now place).label.bytes }
{
    match areas.at(place) {
        Some(area) => area.label,
        None => ArrayString::new(),
    }
}

/// Why the lines stopped.
pub fn stop_of<'a>(areas: &FlashMap, fault: SessionFault) -> Stop<'a>
    ensures { IsStop areas.now fault result }
{
    match fault {
        SessionFault::Damaged { area, damage } => {
            let label = label_at(areas, area);
            Stop::Refused(Refusal::BadArea { label, damage })
        }
        SessionFault::NoMemory => Stop::NoMemory,
    }
}

/// Carries out the lines, and counts the steps.
///
/// # Errors
/// `Damaged` with the damage that a mount found; `NoMemory`.
pub fn run<K: Backend, B: Bench, L: Ledger>(
    alloc: Global,
    areas: &FlashMap,
    lines: &[Line],
    bench: &mut B,
    pool: Vec<Box<dyn Handler>>,
    registry: &mut Registry,
    blank: Blank,
) -> Result<Answers, SessionFault>
    requires map { IsServedMap K.serves areas.now (B.device bench.old) }
    requires lines { All (IsServed (limit_of areas.now)) lines.now }
    requires pool { All (IsFresh state) pool.items }
    requires registry { registered state registry.old ≡ [] }
    requires ledger { IsNewLedger blank L.name L.parts }
    ensures ends { let d = B.device bench.old in let e = B.device bench.new in
        RunEnds (meanings K.contents K.room K.chance K.tears) K.damage K.rests areas.now
        (Mount ∷ lines.now) (moment d (registered state registry.old) (kinds state pool.items)) e
        (registered state registry.new) result }
    ensures undamaged { damage_in K.damage areas.now (B.device bench.old) ≡ None
        → damage_in K.damage areas.now (B.device bench.new) ≡ None }
    ensures serves { damage_in K.damage areas.now (B.device bench.old) ≡ None
        → IfErr result (λ fault. fault ≡ WantsMemory) }
    ensures rests { OnOk result
        ((B.device bench.new).is_on ≡ true → IsAtRest K.rests areas.now (B.device bench.new)) }
    ensures boots { let d = B.device bench.old in let e = B.device bench.new in
        let limit = map_boot K.boot_units d.banks areas.now in
        (most : ℕ) → limit ≤ most → OwesOnMap K.owes areas.now d most
        → OwesOnMap K.owes areas.now e most
        × IfOk result (λ answers. MountsWithin most (Mount ∷ lines.now) answers) }
    ensures texts { AreLabelled areas.now → IfOk result (λ answers. All CanReport answers) }
{
    let mut steps = Steps::<L>::new(blank);
    run_lines::<K, B, L>(alloc, lines, bench, areas, pool, registry, &mut steps)
}
