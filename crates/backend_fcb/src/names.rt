// Names in order.
ghost use Rattle.std.specs.Prelude.{◌≡◌, option_map, IfSome};
ghost use Rattle.flash_map.specs.Area.{value_limit};
ghost use Rattle.fcb_ring.specs.Standing.{StandsOn as RingStandsOn};
ghost use Rattle.backend_api.specs.Map.{next_name as next_name_of};
ghost use Rattle.backend_api.specs.Least.{IsLeast};
ghost use Rattle.record_settings.specs.Live.{names};
ghost use Rattle.record_settings.specs.Settings.{setting_of};
ghost use Rattle.backend_fcb.specs.Standing.{bodies_on, settings_on};
ghost use Rattle.backend_fcb.specs.Walking.{is_up_to, setting_between, IsLast};

use crate::record::{Setting, setting_in};
use backend_api::is_behind;
use fcb_ring::Ring;
use flash_sim::{Flash, Steps};
use setting_name::Name;
use std::sync::ledger::Ledger;

// Whether a name is no greater than that of the setting, if there is one.
fn is_up_to(name: &[u8], most: Option<Setting<'_>>) -> bool
    ensures { result ≡ is_up_to name.now (option_map (λ setting. setting.name.now) most.entry) }
{
    match most {
        Some(setting) => name.cmp(setting.name).is_le(),
        None => true,
    }
}

// What a record says, if its name is greater than `after` and no greater than that of `most`.
fn setting_between<'a>(
    ring: &Ring,
    body: &'a [u8],
    after: Option<&Name>,
    most: Option<Setting<'a>>,
) -> Option<Setting<'a>>
    ensures { option_map (λ setting. (setting.name.now, setting.value.now)) result
        ≡ setting_between (option_map (λ other. other.now) after.entry)
        (option_map (λ setting. setting.name.now) most.entry)
        (setting_of (value_limit ring.now.area) body.now) }
{
    let setting = setting_in(ring, body)?;
    if is_behind(setting.name, after) && is_up_to(setting.name, most) {
        Some(setting)
    } else {
        None
    }
}

// The least name of a record that is greater than this one, or the least of all, and what the last
// record of the name says.
fn least_setting<'a, F: Flash, L: Ledger>(
    ring: &Ring,
    flash: &'a F,
    after: Option<&Name>,
    steps: &mut Steps<L>,
) -> Option<Setting<'a>>
    requires { RingStandsOn (F.device flash.now) ring.now }
    ensures least { IsLeast (option_map (λ other. other.now) after.entry)
        (λ name. names (value_limit ring.now.area) name
        (bodies_on (F.device flash.now) ring.now.area))
        (option_map (λ setting. setting.name.now) result) }
    ensures last { IfSome result
        (λ setting. IsLast (value_limit ring.now.area)
        (bodies_on (F.device flash.now) ring.now.area) setting.name.now setting.value.now) }
{
    let mut least = None;
    let mut at = ring.next(flash, None, steps);
    while let Some(entry) = at {
        let setting = setting_between(ring, ring.body(flash, &entry, steps), after, least);
        least = setting.or(least);
        at = ring.next(flash, Some(entry), steps);
    }
    least
}

// The least name with a value that is greater than this one, or the least of all. It walks over the
// records once for each name that it tries.
pub(crate) fn next_name<F: Flash, L: Ledger>(
    ring: &Ring,
    flash: &F,
    after: Option<&Name>,
    steps: &mut Steps<L>,
) -> Option<Name>
    requires { RingStandsOn (F.device flash.now) ring.now }
    ensures { result
        ≡ next_name_of (settings_on (F.device flash.now) ring.now.area)
        (option_map (λ name. name.now) after.entry) }
{
    let mut setting = least_setting(ring, flash, after, steps)?;
    while setting.value.is_empty() {
        let name = Name::read(setting.name).ok()?;
        setting = least_setting(ring, flash, Some(&name), steps)?;
    }
    Name::read(setting.name).ok()
}
