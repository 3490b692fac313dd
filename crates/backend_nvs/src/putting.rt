// Sets: names get values.
ghost use Rattle.std.specs.Prelude.{◌≡◌, ◌+◌, ◌<◌, ◌≤◌, ◌↔◌, ◌∷◌, [], IsTrue, None, length};
ghost use Rattle.flash_map.specs.Area.{geometry_of, value_limit};
ghost use Rattle.flash_map.specs.Lawful.{IsLawfulFor};
ghost use Rattle.flash_map.specs.On.{on, StandsOn};
ghost use Rattle.flash_map.specs.Spending.{SpendsAtMost};
ghost use Rattle.flash_map.specs.Touches.{Touches};
ghost use Rattle.backend_api.specs.Ends.{set_lost};
ghost use Rattle.backend_api.specs.Room.{command_units};
ghost use Rattle.named_items.specs.Candidates.{IsFreeCandidate};
ghost use Rattle.named_items.specs.Leaving.{SetLeavesItems};
ghost use Rattle.named_items.specs.Pairs.{count_in, HasNoOrphans, IsIdOfName};
ghost use Rattle.named_items.specs.Looking.{HasIds};
ghost use Rattle.named_items.specs.Mounted.{IsMounted, StaysMounted};
ghost use Rattle.named_items.specs.Putting.{IsStorable, SetLeavesOn};
ghost use Rattle.backend_nvs.specs.IdLayout.{count_bytes, number_of, numbering_of, settings_of, nvs_room};
ghost use Rattle.backend_nvs.specs.declared.lookup.TheConstants.{TOP};

use crate::lookup::{COUNT, FIRST, LIMIT, free_candidate, read_count};
use crate::numbering::NvsIdLayout;
use backend_api::SetFault;
use flash_map::WriteFault;
use flash_sim::{Flash, Steps};
use named_items::{ItemStore, NewNames, price_of_pair, put_new, refused};
use setting_name::Name;
use std::sync::ledger::Ledger;

// What all settings cost, in bytes, by the area's `Room`. It includes a count, even if the
// area has none.
pub(crate) fn settings_cost<S: ItemStore, F: Flash, L: Ledger>(
    store: &S,
    flash: &F,
    steps: &mut Steps<L>,
) -> u64
    requires ids { HasIds TOP S.is_id }
    requires lawful { IsLawfulFor (F.device flash.now).banks (S.mounted_on store.now) }
    requires stands { StandsOn S.mounted_on S.stands (F.device flash.now) store.now }
    requires clean { let area = S.mounted_on store.now in
        HasNoOrphans (numbering_of area) (on S.contents (F.device flash.now) area) }
    ensures { let d = F.device flash.now in let area = S.mounted_on store.now in
        let g = geometry_of d area in
        result ≡ (nvs_room S.price S.cap g).cost (settings_of area (on S.contents d area)) }
{
    match store.get(flash, COUNT, steps) {
        Some(_) => store.live_cost(flash, steps),
        None => store.price_of(flash, 2),
    }
}

// The two bytes of a count.
fn bytes_of_count(count: u32) -> [u8; 2]
    requires few { count ≤ LIMIT }
    ensures two { length result ≡ 2 }
    ensures counts { number_of result ≡ count }
    ensures spelled { result ≡ count_bytes count }
{
    [(count % 256) as u8, (count / 256) as u8]
}

// Whether the count is at its limit.
fn is_full(count: u32) -> bool
    ensures { IsTrue result ↔ (count ≡ LIMIT) }
{
    count == LIMIT
}

// Raises the count by one, and puts the new name at the id that this admits. No lower id is free.
fn add_name<S: ItemStore, F: Flash, L: Ledger>(
    store: &mut S,
    flash: &mut F,
    count: u32,
    name: &Name,
    value: &[u8],
    steps: &mut Steps<L>,
) -> Result<(), SetFault>
    requires ids { HasIds TOP S.is_id }
    requires here { IsMounted S.mounted_on S.stands S.contents numbering_of (F.device flash.old)
        store.old }
    requires value { IsStorable (value_limit (S.mounted_on store.old)) value.now }
    requires absent { let area = S.mounted_on store.old in
        IsIdOfName (numbering_of area) (on S.contents (F.device flash.old) area) name.now None }
    requires full { let area = S.mounted_on store.old in
        IsFreeCandidate (numbering_of area) (on S.contents (F.device flash.old) area) name.now
        None }
    requires counted { let area = S.mounted_on store.old in
        count ≡ count_in (numbering_of area) (on S.contents (F.device flash.old) area) }
    requires few { count < LIMIT }

    ensures touches { Touches (S.mounted_on store.old ∷ []) (F.device flash.old)
        (F.device flash.new) (set_lost result) }
    ensures store { StaysMounted S.mounted_on S.stands S.runs S.damage (F.device flash.new)
        store.old store.new (set_lost result) }
    ensures ends { let d = F.device flash.old in let e = F.device flash.new in
        SetLeavesOn numbering_of (nvs_room S.price S.cap) S.contents d e (S.mounted_on store.old)
        name.now value.now result }
    ensures items { let d = F.device flash.old in let area = S.mounted_on store.old in
        SetLeavesItems (numbering_of area) (on S.contents d area)
        (on S.contents (F.device flash.new) area) name.now value.now result }
    ensures at_most { let d = F.device flash.old in
        SpendsAtMost d (F.device flash.new)
        (command_units (geometry_of d (S.mounted_on store.old))) }
{
    let need = price_of_pair(store, flash, name, value);
    let bytes = bytes_of_count(count + 1);
    match store.write_changed(flash, COUNT, &bytes, steps) {
        Ok(()) => {
            put_new::<NvsIdLayout, S, F, L>(store, flash, FIRST + count, name, value, steps)
        }
        Err(WriteFault::PowerLost) => Err(SetFault::PowerLost),
        Err(WriteFault::NoSpace { .. }) => Err(refused::<NvsIdLayout, S, F, L>(
            store, flash, need, steps,
        )),
        Err(WriteFault::TooLong) => unreachable!(),
    }
}

impl NewNames for NvsIdLayout {
    fn put_name<S: ItemStore, F: Flash, L: Ledger>(
        store: &mut S,
        flash: &mut F,
        name: &Name,
        value: &[u8],
        steps: &mut Steps<L>,
    ) -> Result<(), SetFault> {
        let count = read_count(store, flash, steps);
        match free_candidate(store, flash, count, steps) {
            Some(free) => put_new::<NvsIdLayout, S, F, L>(store, flash, free, name, value, steps),
            None => {
                if is_full(count) {
                    Err(SetFault::TooManyNames)
                } else {
                    add_name(store, flash, count, name, value, steps)
                }
            }
        }
    }
}
