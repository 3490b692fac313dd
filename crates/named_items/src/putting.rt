// Sets: names get values.
ghost use Rattle.std.specs.Prelude.{◌≡◌, ◌+◌, ◌*◌, ◌≤◌, ◌∷◌, [], true, false, Some, None, length, option_map};
ghost use Rattle.std.specs.FinMap as finite;
ghost use Rattle.setting_name.specs.Name.{IsName};
ghost use Rattle.flash_map.specs.Area.{geometry_of, value_limit};
ghost use Rattle.flash_map.specs.Lawful.{IsLawfulFor};
ghost use Rattle.flash_map.specs.Spending.{SpendsAtMost};
ghost use Rattle.flash_map.specs.Touches.{Touches};
ghost use Rattle.flash_map.specs.On.{on, StandsOn};
ghost use Rattle.backend_api.specs.declared.backend.SetFault.TheVariants.{NoSpace};
ghost use Rattle.backend_api.specs.Ends.{set_lost};
ghost use Rattle.backend_api.specs.Room.{command_units};
ghost use Rattle.named_items.specs.StoreEnds as items;
ghost use Rattle.named_items.specs.Pairs.{settings_in, AltersOnly, IsAt, IsIdOfName};
ghost use Rattle.named_items.specs.Ends.{AltersTwo};
ghost use Rattle.named_items.specs.Leaving.{pair_at_id, MakesPuts, SetLeavesItems};
ghost use Rattle.named_items.specs.Looking.{HasIds};
ghost use Rattle.named_items.specs.Mounted.{IsMounted, StaysMounted};
ghost use Rattle.named_items.specs.Putting.{room_in, IsNewAt, IsStorable, SetLeavesOn};

use crate::lookup::{has_bytes, setting_of};
use crate::numbering::IdLayout;
use crate::store::ItemStore;
use crate::writing::put_pair;
use backend_api::SetFault;
use flash_map::WriteFault;
use flash_sim::{Flash, Steps};
use setting_name::Name;
use std::sync::ledger::Ledger;

/// How a layout of ids puts a new name.
pub trait NewNames: IdLayout {
    /// Gives a name that has no value its first one. The name takes the least free id of its own. If
    /// none is free, the count rises by one first, where there is a count.
    ///
    /// # Errors
    /// `TooManyNames` exactly if the name would be one too many; nothing was programmed then.
    /// `NoSpace`: the settings are as before; the count may stay raised by one. `PowerLost`: they
    /// are as before, or have the value, and the store is down.
    fn put_name<S: ItemStore, F: Flash, L: Ledger>(
        store: &mut S,
        flash: &mut F,
        name: &Name,
        value: &[u8],
        steps: &mut Steps<L>,
    ) -> Result<(), SetFault>
        requires ids { HasIds Self.top S.is_id }
        requires here { IsMounted S.mounted_on S.stands S.contents Self.numbering
            (F.device flash.old)
            store.old }
        requires value { IsStorable (value_limit (S.mounted_on store.old)) value.now }
        requires absent { let area = S.mounted_on store.old in
            IsIdOfName (Self.numbering area) (on S.contents (F.device flash.old) area) name.now
            None }

        ensures touches { Touches (S.mounted_on store.old ∷ []) (F.device flash.old)
            (F.device flash.new) (set_lost result) }
        ensures store { StaysMounted S.mounted_on S.stands S.runs S.damage (F.device flash.new)
            store.old store.new (set_lost result) }
        ensures ends { let d = F.device flash.old in let e = F.device flash.new in
            SetLeavesOn Self.numbering (room_in Self.counted Self.too_many S.price S.cap) S.contents
            d e (S.mounted_on store.old) name.now value.now result }
        ensures items { let d = F.device flash.old in let area = S.mounted_on store.old in
            SetLeavesItems (Self.numbering area) (on S.contents d area)
            (on S.contents (F.device flash.new) area) name.now value.now result }
        ensures at_most { let d = F.device flash.old in
            SpendsAtMost d (F.device flash.new)
            (command_units (geometry_of d (S.mounted_on store.old))) };
}

/// The error of a put that finds no room: what it needs and what all settings cost, in bytes.
pub fn refused<N: IdLayout, S: ItemStore, F: Flash, L: Ledger>(
    store: &S,
    flash: &F,
    need: u64,
    steps: &mut Steps<L>,
) -> SetFault
    requires ids { HasIds N.top S.is_id }
    requires here { IsMounted S.mounted_on S.stands S.contents N.numbering (F.device flash.now)
        store.now }
    ensures { let d = F.device flash.now in let area = S.mounted_on store.now in
        let room = room_in N.counted N.too_many S.price S.cap (geometry_of d area) in
        result ≡ NoSpace need (room.cost (settings_in (N.numbering area) (on S.contents d area))) }
{
    SetFault::NoSpace {
        need,
        live: N::settings_cost(store, flash, steps),
    }
}

/// Changes the value of the setting whose name stands at the id `first` to another one. All other
/// items stay.
///
/// # Errors
/// `NoSpace`: the settings are as before. `PowerLost`: they are as before, or have the value, and
/// the store is down.
pub fn change_value<N: IdLayout, S: ItemStore, F: Flash, L: Ledger>(
    store: &mut S,
    flash: &mut F,
    first: u32,
    name: &Name,
    value: &[u8],
    steps: &mut Steps<L>,
) -> Result<(), SetFault>
    requires ids { HasIds N.top S.is_id }
    requires here { IsMounted S.mounted_on S.stands S.contents N.numbering (F.device flash.old)
        store.old }
    requires value { IsStorable (value_limit (S.mounted_on store.old)) value.now }
    requires at { let area = S.mounted_on store.old in
        IsAt (N.numbering area) (on S.contents (F.device flash.old) area) name.now first }
    requires differs { let area = S.mounted_on store.old in
        finite.get (on S.contents (F.device flash.old) area) (first + (N.numbering area).step)
        ≡ Some value.now → ⊥ }

    ensures touches { Touches (S.mounted_on store.old ∷ []) (F.device flash.old)
        (F.device flash.new) (set_lost result) }
    ensures store { StaysMounted S.mounted_on S.stands S.runs S.damage (F.device flash.new)
        store.old store.new (set_lost result) }
    ensures ends { let d = F.device flash.old in let e = F.device flash.new in
        SetLeavesOn N.numbering (room_in N.counted N.too_many S.price S.cap) S.contents d e
        (S.mounted_on store.old) name.now value.now result }
    ensures items { let d = F.device flash.old in let area = S.mounted_on store.old in
        SetLeavesItems (N.numbering area) (on S.contents d area)
        (on S.contents (F.device flash.new) area) name.now value.now result }
    ensures others { let area = S.mounted_on store.old in
        AltersOnly (on S.contents (F.device flash.old) area)
        (on S.contents (F.device flash.new) area) (first + (N.numbering area).step) }
    ensures at_most { let d = F.device flash.old in
        SpendsAtMost d (F.device flash.new)
        (items.item_units (geometry_of d (S.mounted_on store.old))) }
{
    match store.write_changed(flash, first + N::step(), value, steps) {
        Ok(()) => Ok(()),
        Err(WriteFault::PowerLost) => Err(SetFault::PowerLost),
        Err(WriteFault::NoSpace { .. }) => {
            let need = store.price_of(flash, value.len() as u32);
            Err(refused::<N, S, F, L>(store, flash, need, steps))
        }
        Err(WriteFault::TooLong) => unreachable!(),
    }
}

/// What a new name and its value cost together, in bytes, each with its entry.
pub fn price_of_pair<S: ItemStore, F: Flash>(store: &S, flash: &F, name: &Name, value: &[u8]) -> u64
    requires lawful { IsLawfulFor (F.device flash.now).banks (S.mounted_on store.now) }
    requires stands { StandsOn S.mounted_on S.stands (F.device flash.now) store.now }
    requires short { length value.now ≤ value_limit (S.mounted_on store.now) }
    ensures value { let g = geometry_of (F.device flash.now) (S.mounted_on store.now) in
        result ≡ S.price g (length value.now) + S.price g (length name.now) }
    ensures name { IsName name.now }
{
    let text = name.bytes();
    store.price_of(flash, value.len() as u32) + store.price_of(flash, text.len() as u32)
}

/// Puts a new name and its value, the name at the id `first`, which is free. All other items stay.
///
/// # Errors
/// `NoSpace`: the settings are as before. `PowerLost`: they are as before, or have the value, and
/// the store is down.
pub fn put_new<N: IdLayout, S: ItemStore, F: Flash, L: Ledger>(
    store: &mut S,
    flash: &mut F,
    first: u32,
    name: &Name,
    value: &[u8],
    steps: &mut Steps<L>,
) -> Result<(), SetFault>
    requires ids { HasIds N.top S.is_id }
    requires here { IsMounted S.mounted_on S.stands S.contents N.numbering (F.device flash.old)
        store.old }
    requires value { IsStorable (value_limit (S.mounted_on store.old)) value.now }
    requires candidate { let area = S.mounted_on store.old in
        IsNewAt (N.numbering area) N.too_many (on S.contents (F.device flash.old) area) name.now
        first }

    ensures touches { Touches (S.mounted_on store.old ∷ []) (F.device flash.old)
        (F.device flash.new) (set_lost result) }
    ensures store { StaysMounted S.mounted_on S.stands S.runs S.damage (F.device flash.new)
        store.old store.new (set_lost result) }
    ensures ends { let d = F.device flash.old in let e = F.device flash.new in
        SetLeavesOn N.numbering (room_in N.counted N.too_many S.price S.cap) S.contents d e
        (S.mounted_on store.old) name.now value.now result }
    ensures items { let d = F.device flash.old in let area = S.mounted_on store.old in
        MakesPuts (on S.contents d area) (on S.contents (F.device flash.new) area)
        (pair_at_id (N.numbering area) first name.now value.now) result }
    ensures others { let area = S.mounted_on store.old in
        AltersTwo (on S.contents (F.device flash.old) area)
        (on S.contents (F.device flash.new) area) first (first + (N.numbering area).step) }
    ensures at_most { let d = F.device flash.old in
        SpendsAtMost d (F.device flash.new)
        (3 * items.item_units (geometry_of d (S.mounted_on store.old))) }
{
    let need = price_of_pair(store, flash, name, value);
    match put_pair(store, flash, first, first + N::step(), name, value, steps) {
        Ok(()) => Ok(()),
        Err(WriteFault::PowerLost) => Err(SetFault::PowerLost),
        Err(WriteFault::NoSpace { .. }) => Err(refused::<N, S, F, L>(store, flash, need, steps)),
        Err(WriteFault::TooLong) => unreachable!(),
    }
}

/// Gives a name a value that is not empty and no longer than the area allows. An equal value
/// programs nothing.
///
/// # Errors
/// `TooManyNames` exactly if the name would be one too many; nothing was programmed then.
/// `NoSpace`: the settings are as before; the count may stay raised by one. `PowerLost`: they are
/// as before, or have the value, and the store is down.
pub fn set_value<N: NewNames, S: ItemStore, F: Flash, L: Ledger>(
    store: &mut S,
    flash: &mut F,
    name: &Name,
    value: &[u8],
    steps: &mut Steps<L>,
) -> Result<(), SetFault>
    requires ids { HasIds N.top S.is_id }
    requires here { IsMounted S.mounted_on S.stands S.contents N.numbering (F.device flash.old)
        store.old }
    requires value { IsStorable (value_limit (S.mounted_on store.old)) value.now }

    ensures touches { Touches (S.mounted_on store.old ∷ []) (F.device flash.old)
        (F.device flash.new) (set_lost result) }
    ensures store { StaysMounted S.mounted_on S.stands S.runs S.damage (F.device flash.new)
        store.old store.new (set_lost result) }
    ensures ends { let d = F.device flash.old in let e = F.device flash.new in
        SetLeavesOn N.numbering (room_in N.counted N.too_many S.price S.cap) S.contents d e
        (S.mounted_on store.old) name.now value.now result }
    ensures items { let d = F.device flash.old in let area = S.mounted_on store.old in
        SetLeavesItems (N.numbering area) (on S.contents d area)
        (on S.contents (F.device flash.new) area) name.now value.now result }
    ensures at_most { let d = F.device flash.old in
        SpendsAtMost d (F.device flash.new)
        (command_units (geometry_of d (S.mounted_on store.old))) }
{
    let Some(setting) = setting_of::<N, S, F, L>(store, flash, name, steps) else {
        return N::put_name(store, flash, name, value, steps);
    };
    if has_bytes(setting.above, value) {
        return Ok(());
    }
    let first = setting.id;
    change_value::<N, S, F, L>(store, flash, first, name, value, steps)
}
