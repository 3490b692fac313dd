// Lines that ask for settings, with power on.
ghost use Rattle.std.specs.Prelude.{◌≡◌, true, map, IfOk};
ghost use Rattle.std.specs.FinMap.{entries};
ghost use Rattle.flash_map.specs.On.{on};
ghost use Rattle.mirror.specs.Mirrored.{IsMirror};
ghost use Rattle.mirror.specs.Trusted.{IsMirrorMap};
ghost use Rattle.session_table.specs.Step.{as_pair};
ghost use Rattle.mirror_session.specs.declared.line.Line.TheVariants.{Get, Names};
ghost use Rattle.mirror_session.specs.Bench.{meanings, moment};
ghost use Rattle.mirror_session.specs.LineDone.{LineDone};
ghost use Rattle.mirror_session.specs.Standing.{IsHeld};

use crate::answer::Answer;
use flash_map::FlashMap;
use flash_sim::{Bench, Flash, NoMemory, Steps};
use migrator::area_at;
use mirror::{Mirror, Priced};
use script_lines::{Answer as SettingsAnswer, Pair, Pairs, copied};
use setting_name::Name;
use std::alloc::Global;
use std::sync::ledger::Ledger;

// The value of a name.
pub fn get_setting<K: Priced, B: Bench, L: Ledger>(
    alloc: Global,
    bench: &B,
    mirror: &Mirror<K>,
    map: &FlashMap,
    name: &Name,
    steps: &mut Steps<L>,
) -> Result<Answer, NoMemory>
    requires map { IsMirrorMap K.serves map.now (B.device bench.now) }
    requires on { (B.device bench.now).is_on ≡ true }
    requires held { let m = meanings K.damage K.contents K.rests K.room K.prices K.owes in
        IsHeld K.mounted_on K.stands m map.now (B.device bench.now) mirror.now }
    ensures { let m = meanings K.damage K.contents K.rests K.room K.prices K.owes in
        let d = B.device bench.now in
        IfOk result
        (λ answer. LineDone m map.now (Get name.now) answer (moment d true) (moment d true)) }
{
    match mirror.get(bench, name, steps) {
        Some(bytes) => {
            let value = copied(alloc, bytes)?;
            Ok(Answer::Plain {
                answer: SettingsAnswer::Value { value },
            })
        }
        None => Ok(Answer::Plain {
            answer: SettingsAnswer::Absent,
        }),
    }
}

// A copy of a setting.
fn pair_of(alloc: Global, name: &Name, value: &[u8]) -> Result<Pair, NoMemory>
    ensures { IfOk result (λ pair. pair ≡ as_pair (name.now, value.now)) }
{
    let value = copied(alloc, value)?;
    Ok(Pair {
        name: name.copy(),
        value,
    })
}

// All settings, in the byte order of their names.
fn all_settings<K: Priced, B: Bench, L: Ledger>(
    alloc: Global,
    bench: &B,
    mirror: &Mirror<K>,
    steps: &mut Steps<L>,
) -> Result<Pairs, NoMemory>
    requires mirrors { let d = B.device bench.now in
        IsMirror K.mounted_on K.stands K.contents K.room K.prices d mirror.now.trusted
        mirror.now.other }
    ensures { let settings = on K.contents (B.device bench.now) mirror.now.trusted.area in
        IfOk result (λ pairs. pairs ≡ map as_pair (entries settings)) }
{
    let settings = mirror.settings(alloc, bench, steps)?;
    let mut pairs = Pairs::new(alloc);
    for (name, value) in &settings {
        let pair = pair_of(alloc, name, value)?;
        pairs.push(pair)?;
    }
    Ok(pairs)
}

// The label of the trusted area and all settings.
pub fn report_all<K: Priced, B: Bench, L: Ledger>(
    alloc: Global,
    bench: &B,
    mirror: &Mirror<K>,
    map: &FlashMap,
    steps: &mut Steps<L>,
) -> Result<Answer, NoMemory>
    requires map { IsMirrorMap K.serves map.now (B.device bench.now) }
    requires on { (B.device bench.now).is_on ≡ true }
    requires held { let m = meanings K.damage K.contents K.rests K.room K.prices K.owes in
        IsHeld K.mounted_on K.stands m map.now (B.device bench.now) mirror.now }
    ensures { let m = meanings K.damage K.contents K.rests K.room K.prices K.owes in
        let d = B.device bench.now in
        IfOk result (λ answer. LineDone m map.now Names answer (moment d true) (moment d true)) }
{
    let area = area_at(map, mirror.trusted());
    let active = copied(alloc, area.label.as_str().as_bytes())?;
    let pairs = all_settings(alloc, bench, mirror, steps)?;
    Ok(Answer::Plain {
        answer: SettingsAnswer::Names { active, pairs },
    })
}
