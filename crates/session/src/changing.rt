// Lines that change settings, with power on.
ghost use Rattle.std.specs.Prelude.{◌≡◌, ◌≤◌, false, None, Some, length};
ghost use Rattle.flash_sim.specs.declared.flash.Loss.{Loss as loss_type};
ghost use Rattle.flash_map.specs.Area.{geometry_of, value_limit};
ghost use Rattle.flash_map.specs.Lawful.{IsLawfulFor};
ghost use Rattle.flash_map.specs.On.{on};
ghost use Rattle.script_lines.specs.declared.line.Line.TheVariants.{Set, Del};
ghost use Rattle.settings_core.specs.Owing.{OwesBoot};
ghost use Rattle.session.specs.OnMap.{DoneBeside, IsServedMap, meanings, StandsOnActive, StaysOnArea};

use backend_api::Backend;
use flash_map::{Area, FlashMap};
use flash_sim::{Bench, Flash, Steps};
use script_lines::{Answer, Bytes};
use setting_name::Name;
use settings_core::{DeleteFault, SaveFault, Settings};
use std::sync::ledger::Ledger;

// Whether the units before the last loss spell, by chance, another record in the area.
pub fn spells_another<K: Backend, B: Bench, L: Ledger>(
    bench: &B,
    area: &Area,
    steps: &mut Steps<L>,
) -> bool
    requires lawful { IsLawfulFor (B.device bench.now).banks area.now }
    requires serves { K.serves area.now (geometry_of (B.device bench.now) area.now) }
    ensures { (loss : loss_type) → (B.device bench.now).last_loss ≡ Some loss
        → result ≡ on K.chance (B.device bench.now) area.now loss }
{
    match bench.last_loss() {
        Some(loss) => K::chance(bench, area, loss, steps),
        None => false,
    }
}

// Sets a setting; the empty value deletes it.
pub fn set_setting<K: Backend, B: Bench, L: Ledger>(
    bench: &mut B,
    settings: &mut Settings<K>,
    map: &FlashMap,
    area: &Area,
    name: &Name,
    value: &Bytes,
    steps: &mut Steps<L>,
) -> Answer
    requires map { IsServedMap K.serves map.now (B.device bench.old) }
    requires here { let d = B.device bench.old in
        StandsOnActive K.mounted_on K.stands K.runs map.now d area.now settings.old.backend }
    requires short { length value.now ≤ value_limit area.now }

    ensures done { let d = B.device bench.old in
        DoneBeside (meanings K.contents K.room K.chance K.tears) map.now (Set name.now value.now)
        result d (B.device bench.new) }
    ensures sound { on K.damage (B.device bench.new) area.now ≡ None }
    ensures stays { let e = B.device bench.new in
        StaysOnArea K.mounted_on K.stands K.runs e area.now settings.new.backend }
    ensures left { (B.device bench.new).is_on ≡ false
        → OwesBoot K.owes K.boot_units (B.device bench.new) area.now }
{
    let before = bench.spent();
    let end = settings.save_one(bench, name, value.as_slice(), steps);
    let units = bench.spent() - before;
    match end {
        Ok(()) => Answer::Done { units },
        Err(SaveFault::NoSpace { need, live }) => Answer::NoSpace { units, need, live },
        Err(SaveFault::TooManyNames) => Answer::TooMany { units },
        Err(SaveFault::PowerLost) => Answer::Lost {
            units,
            chance: spells_another::<K, B, L>(bench, area, steps),
        },
        Err(SaveFault::Off) => unreachable!(),
    }
}

// Deletes a setting.
pub fn delete_setting<K: Backend, B: Bench, L: Ledger>(
    bench: &mut B,
    settings: &mut Settings<K>,
    map: &FlashMap,
    area: &Area,
    name: &Name,
    steps: &mut Steps<L>,
) -> Answer
    requires map { IsServedMap K.serves map.now (B.device bench.old) }
    requires here { let d = B.device bench.old in
        StandsOnActive K.mounted_on K.stands K.runs map.now d area.now settings.old.backend }

    ensures done { let d = B.device bench.old in
        DoneBeside (meanings K.contents K.room K.chance K.tears) map.now (Del name.now) result d
        (B.device bench.new) }
    ensures sound { on K.damage (B.device bench.new) area.now ≡ None }
    ensures stays { let e = B.device bench.new in
        StaysOnArea K.mounted_on K.stands K.runs e area.now settings.new.backend }
    ensures left { (B.device bench.new).is_on ≡ false
        → OwesBoot K.owes K.boot_units (B.device bench.new) area.now }
{
    let before = bench.spent();
    let end = settings.delete(bench, name, steps);
    let units = bench.spent() - before;
    match end {
        Ok(()) => Answer::Done { units },
        Err(DeleteFault::PowerLost) => Answer::Lost {
            units,
            chance: spells_another::<K, B, L>(bench, area, steps),
        },
        Err(DeleteFault::Off) => unreachable!(),
    }
}
