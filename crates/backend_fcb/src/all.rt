// All settings at once.
ghost use Rattle.std.specs.Prelude.{◌≡◌, IfOk, OnOk};
ghost use Rattle.std.specs.FinMap.{entries};
ghost use Rattle.flash_map.specs.Area.{value_limit};
ghost use Rattle.fcb_ring.specs.Standing.{StandsOn as RingStandsOn};
ghost use Rattle.backend_api.specs.Listing.{pairs_in};
ghost use Rattle.backend_api.specs.Map.{Map};
ghost use Rattle.record_settings.specs.Settings.{setting_of, with_setting};
ghost use Rattle.backend_fcb.specs.Standing.{settings_on};

use crate::record::parts_of;
use fcb_ring::Ring;
use flash_sim::{Flash, NoMemory, Steps};
use setting_name::Name;
use std::alloc::Global;
use std::collections::BTreeMap;
use std::sync::ledger::Ledger;

// Does to the settings so far what a body says: the name has the value, or is deleted.
fn apply<'a>(
    found: &mut BTreeMap<Name, &'a [u8], Global>,
    ring: &Ring,
    body: &'a [u8],
) -> Result<(), NoMemory>
    ensures { OnOk result
        ((settings : Map) → pairs_in found.old ≡ entries settings
        → pairs_in found.new
        ≡ entries (with_setting settings (setting_of (value_limit ring.now.area) body.now))) }
{
    let Some(parts) = parts_of(ring, body) else {
        return Ok(());
    };
    let Ok(name) = Name::read(parts.name) else {
        return Ok(());
    };
    if parts.value.is_empty() {
        found.remove(&name);
        return Ok(());
    }
    match found.insert(name, parts.value) {
        Ok(_) => Ok(()),
        Err(_) => Err(NoMemory),
    }
}

// All names with their values. It walks once over the records, from the oldest on.
pub(crate) fn all_settings<'a, F: Flash, L: Ledger>(
    ring: &Ring,
    alloc: Global,
    flash: &'a F,
    steps: &mut Steps<L>,
) -> Result<BTreeMap<Name, &'a [u8], Global>, NoMemory>
    requires { RingStandsOn (F.device flash.now) ring.now }
    ensures { IfOk result
        (λ found. pairs_in found ≡ entries (settings_on (F.device flash.now) ring.now.area)) }
{
    let mut found = BTreeMap::new(alloc);
    let mut at = ring.next(flash, None, steps);
    while let Some(entry) = at {
        apply(&mut found, ring, ring.body(flash, &entry, steps))?;
        at = ring.next(flash, Some(entry), steps);
    }
    Ok(found)
}
