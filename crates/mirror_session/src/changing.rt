// Lines that change settings, with power on.
ghost use Rattle.std.specs.Prelude.{◌≡◌, ◌<◌, ◌≤◌, true, length};
ghost use Rattle.mirror.specs.Trusted.{IsMirrorMap};
ghost use Rattle.mirror_session.specs.declared.line.Line.TheVariants.{Set, Del};
ghost use Rattle.mirror_session.specs.Bench.{meanings, moment};
ghost use Rattle.mirror_session.specs.LineDone.{IsServed, LineDone};
ghost use Rattle.mirror_session.specs.Owing.{OwesUpTo};
ghost use Rattle.mirror_session.specs.Standing.{IsHeld};
ghost use Rattle.session.specs.OnMap.{limit_of};
ghost use Rattle.session.specs.Owing.{greatest_boot};

use crate::answer::Answer;
use backend_api::SetFault;
use flash_map::FlashMap;
use flash_sim::{Bench, Flash, Steps};
use mirror::{Mirror, Priced};
use script_lines::{Answer as SettingsAnswer, Bytes};
use setting_name::Name;
use std::sync::ledger::Ledger;

// Sets a setting to a value that is not empty.
pub fn set_setting<K: Priced, B: Bench, L: Ledger>(
    bench: &mut B,
    mirror: &mut Mirror<K>,
    map: &FlashMap,
    name: &Name,
    value: &Bytes,
    steps: &mut Steps<L>,
) -> Answer
    requires map { IsMirrorMap K.serves map.now (B.device bench.old) }
    requires on { (B.device bench.old).is_on ≡ true }
    requires held { let m = meanings K.damage K.contents K.rests K.room K.prices K.owes in
        IsHeld K.mounted_on K.stands m map.now (B.device bench.old) mirror.old }
    requires some { 0 < length value.now }
    requires short { length value.now ≤ limit_of map.now }

    ensures done { let m = meanings K.damage K.contents K.rests K.room K.prices K.owes in
        let d = B.device bench.old in let e = B.device bench.new in
        LineDone m map.now (Set name.now value.now) result (moment d true) (moment e true) }
    ensures held { let m = meanings K.damage K.contents K.rests K.room K.prices K.owes in
        IsHeld K.mounted_on K.stands m map.now (B.device bench.new) mirror.new }
    ensures banks { (B.device bench.new).banks ≡ (B.device bench.old).banks }
    ensures left { let d = B.device bench.old in let e = B.device bench.new in
        OwesUpTo K.owes (greatest_boot K.boot_units d.banks map.now) map.now
        (moment d true) (moment e true) }
{
    let before = bench.spent();
    let end = mirror.set(bench, name, value.as_slice(), steps);
    let units = bench.spent() - before;
    match end {
        Ok(()) => Answer::done(units),
        Err(SetFault::NoSpace { need, live }) => Answer::Plain {
            answer: SettingsAnswer::NoSpace { units, need, live },
        },
        Err(SetFault::TooManyNames) => Answer::Plain {
            answer: SettingsAnswer::TooMany { units },
        },
        Err(SetFault::PowerLost) => Answer::lost(units),
    }
}

// Deletes a setting.
pub fn delete_setting<K: Priced, B: Bench, L: Ledger>(
    bench: &mut B,
    mirror: &mut Mirror<K>,
    map: &FlashMap,
    name: &Name,
    steps: &mut Steps<L>,
) -> Answer
    requires map { IsMirrorMap K.serves map.now (B.device bench.old) }
    requires on { (B.device bench.old).is_on ≡ true }
    requires held { let m = meanings K.damage K.contents K.rests K.room K.prices K.owes in
        IsHeld K.mounted_on K.stands m map.now (B.device bench.old) mirror.old }

    ensures done { let m = meanings K.damage K.contents K.rests K.room K.prices K.owes in
        let d = B.device bench.old in let e = B.device bench.new in
        LineDone m map.now (Del name.now) result (moment d true) (moment e true) }
    ensures held { let m = meanings K.damage K.contents K.rests K.room K.prices K.owes in
        IsHeld K.mounted_on K.stands m map.now (B.device bench.new) mirror.new }
    ensures banks { (B.device bench.new).banks ≡ (B.device bench.old).banks }
    ensures left { let d = B.device bench.old in let e = B.device bench.new in
        OwesUpTo K.owes (greatest_boot K.boot_units d.banks map.now) map.now
        (moment d true) (moment e true) }
{
    let before = bench.spent();
    let end = mirror.delete(bench, name, steps);
    let units = bench.spent() - before;
    match end {
        Ok(()) => Answer::done(units),
        Err(_) => Answer::lost(units),
    }
}

// Sets a setting; the empty value deletes it.
pub fn change_setting<K: Priced, B: Bench, L: Ledger>(
    bench: &mut B,
    mirror: &mut Mirror<K>,
    map: &FlashMap,
    name: &Name,
    value: &Bytes,
    steps: &mut Steps<L>,
) -> Answer
    requires map { IsMirrorMap K.serves map.now (B.device bench.old) }
    requires on { (B.device bench.old).is_on ≡ true }
    requires held { let m = meanings K.damage K.contents K.rests K.room K.prices K.owes in
        IsHeld K.mounted_on K.stands m map.now (B.device bench.old) mirror.old }
    requires short { length value.now ≤ limit_of map.now }

    ensures done { let m = meanings K.damage K.contents K.rests K.room K.prices K.owes in
        let d = B.device bench.old in let e = B.device bench.new in
        LineDone m map.now (Set name.now value.now) result (moment d true) (moment e true) }
    ensures held { let m = meanings K.damage K.contents K.rests K.room K.prices K.owes in
        IsHeld K.mounted_on K.stands m map.now (B.device bench.new) mirror.new }
    ensures banks { (B.device bench.new).banks ≡ (B.device bench.old).banks }
    ensures left { let d = B.device bench.old in let e = B.device bench.new in
        OwesUpTo K.owes (greatest_boot K.boot_units d.banks map.now) map.now
        (moment d true) (moment e true) }
{
    if value.as_slice().is_empty() {
        delete_setting(bench, mirror, map, name, steps)
    } else {
        set_setting(bench, mirror, map, name, value, steps)
    }
}
