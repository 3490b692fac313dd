// The move of all settings to the next area.
ghost use Rattle.std.specs.Prelude.{◌≡◌, true, false, None, Some, IfOk, OnErr, OnOk};
ghost use Rattle.script_lines.specs.declared.line.Line.TheVariants.{Migrate};
ghost use Rattle.session.specs.Moving.{answer_to};
ghost use Rattle.session.specs.Owing.{OwesUpTo, map_boot};
ghost use Rattle.session.specs.OnMap.{BeginsMove, ChoosesOnce, DoneBeside, IsReady, IsServedMap, SameSelector, StandsOnMap, damage_in, may_choose, meanings};

use backend_api::Backend;
use flash_map::FlashMap;
use flash_sim::{Bench, Flash, NoMemory, Steps};
use migrator::{MigrateFault, Selector, migrate};
use script_lines::Answer;
use settings_core::Settings;
use std::alloc::Global;
use std::sync::ledger::Ledger;

// Moves all settings to the next area. The map has a selector.
pub fn move_settings<K: Backend, B: Bench, L: Ledger>(
    alloc: Global,
    bench: &mut B,
    map: &FlashMap,
    selector: &mut Selector,
    active: &mut usize,
    settings: &mut Settings<K>,
    steps: &mut Steps<L>,
) -> Result<Answer, NoMemory>
    requires map { IsServedMap K.serves map.now (B.device bench.old) }
    requires on { (B.device bench.old).is_on ≡ true }
    requires ready { let d = B.device bench.old in
        StandsOnMap K.mounted_on K.stands K.runs map.now d (Some selector.old) active.old
        settings.old }

    ensures done { IfOk result
        (λ answer. let d = B.device bench.old in DoneBeside
        (meanings K.contents K.room K.chance K.tears) map.now Migrate answer d
        (B.device bench.new)) }
    ensures sound { damage_in K.damage map.now (B.device bench.new) ≡ None }
    ensures selector { let d = B.device bench.old in let e = B.device bench.new in
        IfOk result
        (λ answer. may_choose Migrate answer ≡ false → SameSelector map.now d e) }
    ensures chosen { let m = meanings K.contents K.room K.chance K.tears in
        IfOk result
        (λ answer. ChoosesOnce m map.now Migrate answer (B.device bench.old)
        (B.device bench.new)) }
    ensures stops { let m = meanings K.contents K.room K.chance K.tears in
        OnErr result (BeginsMove m map.now (B.device bench.old) (B.device bench.new)) }
    ensures ready { let e = B.device bench.new in
        OnOk result
        (IsReady K.mounted_on K.stands K.runs map.now e (Some selector.new) active.new
        (Some settings.new)) }
    ensures left { let d = B.device bench.old in let e = B.device bench.new in
        OwesUpTo K.owes (map_boot K.boot_units d.banks map.now) map.now d e }
{
    let before = bench.spent();
    let end = migrate(
        alloc,
        bench,
        map,
        selector,
        settings.backend(),
        *active,
        steps,
    );
    let units = bench.spent() - before;
    match end {
        Ok((backend, place)) => {
            *settings = Settings::of(backend);
            *active = place;
            Ok(Answer::Done { units })
        }
        Err(fault) => match answer_to(fault, units) {
            Some(answer) => Ok(answer),
            None => Err(NoMemory),
        },
    }
}

// The answer if the settings were not moved, with the units that were spent; `None` if
// memory ran out.
fn answer_to(fault: MigrateFault, units: u64) -> Option<Answer>
    ensures { result ≡ answer_to fault units }
{
    match fault {
        MigrateFault::NoTarget => Some(Answer::NoTarget),
        MigrateFault::NoSpace { need, live } => Some(Answer::NoSpace { units, need, live }),
        MigrateFault::TooManyNames => Some(Answer::TooMany { units }),
        MigrateFault::PowerLost => Some(Answer::Lost {
            units,
            chance: false,
        }),
        MigrateFault::NoMemory => None,
    }
}
