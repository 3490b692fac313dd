// Writing and deleting the two items of a setting.
ghost use Rattle.std.specs.Prelude.{◌≡◌, ◌*◌, ◌<◌, ◌∷◌, [], None, is_err, length};
ghost use Rattle.std.specs.FinMap as finite;
ghost use Rattle.flash_map.specs.Area.{geometry_of};
ghost use Rattle.flash_map.specs.Faults.{write_lost};
ghost use Rattle.flash_map.specs.Lawful.{IsLawfulFor};
ghost use Rattle.flash_map.specs.Spending.{SpendsAtMost};
ghost use Rattle.flash_map.specs.Touches.{Touches};
ghost use Rattle.flash_map.specs.On.{on, StandsOn};
ghost use Rattle.backend_api.specs.Room.{command_units};
ghost use Rattle.backend_api.specs.Written.{StaysWritten};
ghost use Rattle.named_items.specs.StoreEnds as items;
ghost use Rattle.named_items.specs.Ends.{DeletesPair, IsFree, PutsPair};
ghost use Rattle.named_items.specs.Leaving.{DeleteLeavesItems};
ghost use Rattle.named_items.specs.Looking.{HasIds};
ghost use Rattle.named_items.specs.Mounted.{IsMounted, StaysMounted};
ghost use Rattle.named_items.specs.Putting.{AltersOnlySetting, DeleteLeavesOn};

use crate::lookup::setting_of;
use crate::numbering::IdLayout;
use crate::store::ItemStore;
use flash_map::WriteFault;
use flash_sim::{Flash, PowerLost, Steps};
use setting_name::Name;
use std::sync::ledger::Ledger;

/// Deletes a name, the item `first`, and then its value, the item `second`. The area is all FF
/// afterwards only if it was so before.
///
/// # Errors
/// `PowerLost`: neither is deleted, or the name alone, or both. The store is down.
#[tactic(auto, using(flash_map::proofs::Touches::then))]
pub fn delete_pair<S: ItemStore, F: Flash, L: Ledger>(
    store: &mut S,
    flash: &mut F,
    first: u32,
    second: u32,
    steps: &mut Steps<L>,
) -> Result<(), PowerLost>
    requires lawful { IsLawfulFor (F.device flash.old).banks (S.mounted_on store.old) }
    requires stands { StandsOn S.mounted_on S.stands (F.device flash.old) store.old }
    requires first { S.is_id first }
    requires second { S.is_id second }
    requires named { let area = S.mounted_on store.old in
        finite.get (on S.contents (F.device flash.old) area) first ≡ None → ⊥ }

    ensures touches { Touches (S.mounted_on store.old ∷ []) (F.device flash.old)
        (F.device flash.new) (is_err result) }
    ensures store { StaysMounted S.mounted_on S.stands S.runs S.damage (F.device flash.new)
        store.old store.new (is_err result) }
    ensures ends { let area = S.mounted_on store.old in
        DeletesPair (on S.contents (F.device flash.old) area)
        (on S.contents (F.device flash.new) area) first second result }
    ensures written { StaysWritten (F.device flash.old) (F.device flash.new)
        (S.mounted_on store.old) }
    ensures at_most { let d = F.device flash.old in
        SpendsAtMost d (F.device flash.new)
        (command_units (geometry_of d (S.mounted_on store.old))) }
{
    store.delete(flash, first, steps)?;
    store.delete(flash, second, steps)
}

/// Deletes a setting: first the item of its name, then that of its value. All other items stay. The
/// area is all FF afterwards only if it was so before.
///
/// # Errors
/// `PowerLost`: the settings are as before, or without the name, and the store is down.
pub fn delete_name<N: IdLayout, S: ItemStore, F: Flash, L: Ledger>(
    store: &mut S,
    flash: &mut F,
    name: &Name,
    steps: &mut Steps<L>,
) -> Result<(), PowerLost>
    requires ids { HasIds N.top S.is_id }
    requires here { IsMounted S.mounted_on S.stands S.contents N.numbering (F.device flash.old)
        store.old }

    ensures touches { Touches (S.mounted_on store.old ∷ []) (F.device flash.old)
        (F.device flash.new) (is_err result) }
    ensures store { StaysMounted S.mounted_on S.stands S.runs S.damage (F.device flash.new)
        store.old store.new (is_err result) }
    ensures ends { DeleteLeavesOn N.numbering S.contents (F.device flash.old) (F.device flash.new)
        (S.mounted_on store.old) name.now result }
    ensures items { let d = F.device flash.old in let area = S.mounted_on store.old in
        DeleteLeavesItems (N.numbering area) (on S.contents d area)
        (on S.contents (F.device flash.new) area) name.now result }
    ensures others { let area = S.mounted_on store.old in
        AltersOnlySetting (N.numbering area) (on S.contents (F.device flash.old) area)
        (on S.contents (F.device flash.new) area) name.now }
    ensures written { StaysWritten (F.device flash.old) (F.device flash.new)
        (S.mounted_on store.old) }
    ensures at_most { let d = F.device flash.old in
        SpendsAtMost d (F.device flash.new)
        (command_units (geometry_of d (S.mounted_on store.old))) }
{
    let Some(setting) = setting_of::<N, S, F, L>(store, flash, name, steps) else {
        return Ok(());
    };
    let first = setting.id;
    delete_pair(store, flash, first, first + N::step(), steps)
}

/// Writes the value of a new name, and then the name. If the name is refused, the value is
/// deleted again.
///
/// # Errors
/// `TooLong`: the value costs more, with its entry, than a sector has for it. `NoSpace`: the items
/// cost too much for one of the writes, whose need it gives. After either the items are as before.
/// `PowerLost`: neither is written, or the value alone, or both, and the store is down.
#[tactic(auto, using(flash_map::proofs::Touches::then))]
pub fn put_pair<S: ItemStore, F: Flash, L: Ledger>(
    store: &mut S,
    flash: &mut F,
    first: u32,
    second: u32,
    name: &Name,
    value: &[u8],
    steps: &mut Steps<L>,
) -> Result<(), WriteFault>
    requires lawful { IsLawfulFor (F.device flash.old).banks (S.mounted_on store.old) }
    requires stands { StandsOn S.mounted_on S.stands (F.device flash.old) store.old }
    requires first { S.is_id first }
    requires second { S.is_id second }
    requires some { 0 < length value.now }
    requires apart { first ≡ second → ⊥ }
    requires free { IsFree (on S.contents (F.device flash.old) (S.mounted_on store.old)) first
        second }

    ensures touches { Touches (S.mounted_on store.old ∷ []) (F.device flash.old)
        (F.device flash.new) (write_lost result) }
    ensures store { StaysMounted S.mounted_on S.stands S.runs S.damage (F.device flash.new)
        store.old store.new (write_lost result) }
    ensures ends { let area = S.mounted_on store.old in
        let g = geometry_of (F.device flash.old) area in
        PutsPair (S.price g) (S.cap g) area.sectors (on S.contents (F.device flash.old) area)
        (on S.contents (F.device flash.new) area) first second name.now value.now result }
    ensures at_most { let d = F.device flash.old in
        SpendsAtMost d (F.device flash.new)
        (3 * items.item_units (geometry_of d (S.mounted_on store.old))) }
{
    match store.write_changed(flash, second, value, steps) {
        Ok(()) => {}
        Err(fault) => return Err(fault),
    }
    match store.write_changed(flash, first, name.bytes(), steps) {
        Ok(()) => Ok(()),
        Err(WriteFault::PowerLost) => Err(WriteFault::PowerLost),
        Err(WriteFault::NoSpace { need, live }) => {
            match store.delete(flash, second, steps) {
                Ok(()) => Err(WriteFault::NoSpace { need, live }),
                Err(_) => Err(WriteFault::PowerLost),
            }
        }
        Err(WriteFault::TooLong) => unreachable!(),
    }
}
