// Lines that ask for settings, with power on.
ghost use Rattle.std.specs.Prelude.{◌≡◌, true, option_map, IfOk};
ghost use Rattle.flash_map.specs.Lawful.{IsLawfulFor};
ghost use Rattle.flash_map.specs.On.{on, StandsOn};
ghost use Rattle.script_lines.specs.declared.line.Line.TheVariants.{Get, Direct, Names};
ghost use Rattle.session.specs.Lists.{pairs_under};
ghost use Rattle.session.specs.OnMap.{DoneBeside, meanings, StandsOnActive};

use backend_api::Backend;
use flash_map::{Area, FlashMap};
use flash_sim::{Bench, Flash, NoMemory, Steps};
use handlers::ValueView;
use script_lines::{Answer, Pair, Pairs, copied};
use setting_name::Name;
use settings_core::{Each, Settings};
use std::alloc::Global;
use std::sync::ledger::Ledger;

// The pairs that have been reported so far.
#[derive(Drop)]
struct Reported {
    pairs: Pairs,
}

impl Each for Reported {
    ghost use Rattle.std.specs.Prelude.{Some, map};
    ghost use Rattle.session.specs.Lists.{as_setting};

    ghost had = { λ reported. Some (map as_setting reported.pairs) };

    fn have(&mut self, alloc: Global, name: &Name, value: ValueView<'_>) -> Result<(), NoMemory> {
        let value = copied(alloc, value.bytes())?;
        self.pairs.push(Pair {
            name: name.copy(),
            value,
        })
    }
}

// The value of a name.
pub fn get_setting<K: Backend, B: Bench, L: Ledger>(
    alloc: Global,
    bench: &B,
    settings: &Settings<K>,
    map: &FlashMap,
    area: &Area,
    name: &Name,
    steps: &mut Steps<L>,
) -> Result<Answer, NoMemory>
    requires here { let d = B.device bench.now in
        StandsOnActive K.mounted_on K.stands K.runs map.now d area.now settings.now.backend }
    requires lawful { IsLawfulFor (B.device bench.now).banks area.now }

    ensures { IfOk result
        (λ answer. let d = B.device bench.now in DoneBeside
        (meanings K.contents K.room K.chance K.tears) map.now (Get name.now) answer d d) }
{
    match settings.get(bench, name, steps) {
        Ok(Some(bytes)) => {
            let value = copied(alloc, bytes)?;
            Ok(Answer::Value { value })
        }
        Ok(None) => Ok(Answer::Absent),
        Err(_) => unreachable!(),
    }
}

// All settings that match a subtree.
fn settings_under<K: Backend, B: Bench, L: Ledger>(
    alloc: Global,
    bench: &B,
    settings: &Settings<K>,
    area: &Area,
    subtree: Option<&Name>,
    steps: &mut Steps<L>,
) -> Result<Pairs, NoMemory>
    requires area { K.mounted_on settings.now.backend ≡ area.now }
    requires lawful { IsLawfulFor (B.device bench.now).banks area.now }
    requires up { K.runs settings.now.backend ≡ true }
    requires stands { StandsOn K.mounted_on K.stands (B.device bench.now) settings.now.backend }

    ensures { IfOk result
        (λ pairs. pairs
        ≡ pairs_under (option_map (λ name. name.now) subtree.entry)
        (on K.contents (B.device bench.now) area.now)) }
{
    let mut reported = Reported {
        pairs: Pairs::new(alloc),
    };
    match settings.load_direct(alloc, bench, subtree, &mut reported, steps) {
        Ok(_) => Ok(reported.pairs),
        Err(_) => Err(NoMemory),
    }
}

// The settings of a subtree, or all of them.
pub fn report_settings<K: Backend, B: Bench, L: Ledger>(
    alloc: Global,
    bench: &B,
    settings: &Settings<K>,
    map: &FlashMap,
    area: &Area,
    subtree: &Option<Name>,
    steps: &mut Steps<L>,
) -> Result<Answer, NoMemory>
    requires here { let d = B.device bench.now in
        StandsOnActive K.mounted_on K.stands K.runs map.now d area.now settings.now.backend }
    requires lawful { IsLawfulFor (B.device bench.now).banks area.now }

    ensures { IfOk result
        (λ answer. let d = B.device bench.now in DoneBeside
        (meanings K.contents K.room K.chance K.tears) map.now (Direct subtree.now) answer d d) }
{
    let pairs = settings_under(alloc, bench, settings, area, subtree.as_ref(), steps)?;
    Ok(Answer::Direct { pairs })
}

// The label of the area and all settings.
pub fn report_all<K: Backend, B: Bench, L: Ledger>(
    alloc: Global,
    bench: &B,
    settings: &Settings<K>,
    map: &FlashMap,
    area: &Area,
    steps: &mut Steps<L>,
) -> Result<Answer, NoMemory>
    requires here { let d = B.device bench.now in
        StandsOnActive K.mounted_on K.stands K.runs map.now d area.now settings.now.backend }
    requires lawful { IsLawfulFor (B.device bench.now).banks area.now }

    ensures { IfOk result (λ answer. let d = B.device bench.now in
        DoneBeside (meanings K.contents K.room K.chance K.tears) map.now Names answer d d) }
{
    let active = copied(alloc, area.label.as_str().as_bytes())?;
    let pairs = settings_under(alloc, bench, settings, area, None, steps)?;
    Ok(Answer::Names { active, pairs })
}
