// The backend over ZMS.
ghost use Rattle.std.specs.Prelude.{◌≡◌, ◌∷◌, [], true, false, is_err, None, IfOk, refl};
ghost use Rattle.flash_map.specs.Area.{geometry_of, value_limit};
ghost use Rattle.flash_map.specs.Faults.{mount_lost};
ghost use Rattle.flash_map.specs.Lawful.{IsLawfulFor};
ghost use Rattle.flash_map.specs.On.{on, HoldsOn, StandsOn};
ghost use Rattle.flash_map.specs.Touches.{Touches};
ghost use Rattle.flash_map.specs.declared.area.Role.TheVariants.{Fcb as FcbRole};
ghost use Rattle.std.proofs.Common.{inl};
ghost use Rattle.backend_api.specs.Boot.{MountUnits, CommandUnits};
ghost use Rattle.backend_api.specs.Commands.{StopsOn};
ghost use Rattle.backend_api.specs.Commands.Command.{Put, Del};
ghost use Rattle.backend_api.specs.Ends.{set_lost, MountEnds, SetEndsOn, DeleteEndsOn};
ghost use Rattle.backend_api.specs.Room.{command_units, foreign_units};
ghost use Rattle.backend_api.specs.Written.{StaysWritten};
ghost use Rattle.named_items.specs.Leaving.{SetLeavesItems, DeleteLeavesItems};
ghost use Rattle.named_items.specs.Orphans.{MountLeavesItems};
ghost use Rattle.named_items.specs.Putting.{IsStorable};
ghost use Rattle.named_items.specs.ZmsStore.{zms_damage, zms_items};
ghost use Rattle.backend_zms.specs.IdLayout.{numbering_of};
ghost use Rattle.backend_zms.specs.Members.{room_by, chance_of, TearsBy, area_of, is_running};
ghost use Rattle.backend_zms.specs.Standing.{IsServed, settings_of, Rests, Stands, stands-rest, reads_settings, Owes, boot_units, owes-more};

use crate::numbering::ZmsIdLayout;
use backend_api::{Backend, SetFault};
use flash_map::{Area, MountFault, area_format};
use flash_sim::{Flash, Loss, NoMemory, PowerLost, Steps};
use named_items::{
    ItemStore, all_settings, delete_name, mount_store, next_name, set_value, standing_value,
};
use setting_name::Name;
use std::alloc::Global;
use std::collections::BTreeMap;
use std::sync::ledger::Ledger;
use zms_store::Zms;

/// The backend over ZMS: a store of settings on a ZMS area. Each setting is two items, its name
/// and its value.
#[derive(Drop)]
pub struct ZmsBackend {
    store: Zms,
}

impl Backend for ZmsBackend {
    ghost serves = { λ area geometry. IsServed area geometry };

    ghost damage = { λ area geometry sectors. zms_damage area geometry sectors };

    ghost contents = { settings_of };

    ghost room = { room_by };

    ghost rests = { λ area geometry sectors. Rests area geometry sectors };

    ghost owes = { Owes };

    ghost boot_units = { boot_units };

    ghost chance = { chance_of };

    ghost tears = { TearsBy };

    ghost mounted_on = { area_of };

    ghost stands = { Stands };

    ghost runs = { is_running };

    ghost stands_up = { λ backend geometry sectors stands. stands.store.up };

    ghost stands_serves = { λ backend geometry sectors stands. stands.store.role };

    ghost stands_reads = { λ backend geometry sectors stands. stands.store.undamaged };

    ghost stands_rests = { λ backend geometry sectors stands. stands-rest backend geometry sectors stands };

    ghost rests_owe = { λ area geometry sectors most rests. inl rests };

    ghost owes_more = { owes-more };

    ghost reads_settings = { reads_settings };

    // As the trait says. The count and both items of each setting stay, and orphans go in rising order
    // of ids. A loss leaves the orphans from one id on.
    fn mount<F: Flash, L: Ledger>(
        alloc: Global,
        flash: &mut F,
        area: Area,
        steps: &mut Steps<L>,
    ) -> Result<ZmsBackend, MountFault>
        requires lawful { IsLawfulFor (F.device flash.old).banks area }
        requires serves { IsServed area (geometry_of (F.device flash.old) area) }

        ensures touches { Touches (area ∷ []) (F.device flash.old) (F.device flash.new)
            (mount_lost result) }
        ensures ends { let d = F.device flash.old in
            MountEnds (on zms_damage d area) d (F.device flash.new) result }
        ensures sound { let d = F.device flash.old in let e = F.device flash.new in
            on zms_damage d area ≡ None → on zms_damage e area ≡ None }
        ensures keeps { let d = F.device flash.old in let e = F.device flash.new in
            on zms_damage d area ≡ None → on settings_of e area ≡ on settings_of d area }
        ensures items { let d = F.device flash.old in let e = F.device flash.new in
            on zms_damage d area ≡ None
            → MountLeavesItems (numbering_of area) (on zms_items d area) (on zms_items e area)
            result }
        ensures rests { HoldsOn Rests (F.device flash.old) area
            → F.device flash.new ≡ F.device flash.old }
        ensures written { let d = F.device flash.old in
            (area.role ≡ FcbRole → ⊥) → StaysWritten d (F.device flash.new) area }
        ensures units { let d = F.device flash.old in
            MountUnits Owes (foreign_units (geometry_of d area)) d (F.device flash.new) area }
        ensures on { IfOk result (λ state. area_of state ≡ area) }
        ensures stands { IfOk result
            (λ state. StandsOn area_of Stands (F.device flash.new) state) }
    {
        match mount_store::<ZmsIdLayout, Zms, F, L>(alloc, flash, area, steps) {
            Ok(store) => Ok(ZmsBackend { store }),
            Err(fault) => Err(fault),
        }
    }

    fn get<'a, F: Flash, L: Ledger>(
        &self,
        flash: &'a F,
        name: &Name,
        steps: &mut Steps<L>,
    ) -> Option<&'a [u8]> {
        standing_value::<ZmsIdLayout, Zms, F, L>(&self.store, flash, name, steps)
    }

    // As the trait says. It puts the value, and then the name if it is new. A loss leaves the first of
    // these puts, and `NoSpace` none.
    fn set<F: Flash, L: Ledger>(
        &mut self,
        flash: &mut F,
        name: &Name,
        value: &[u8],
        steps: &mut Steps<L>,
    ) -> Result<(), SetFault>
        requires lawful { IsLawfulFor (F.device flash.old).banks (area_of self.old) }
        requires stands { StandsOn area_of Stands (F.device flash.old) self.old }
        requires value { IsStorable (value_limit (area_of self.old)) value.now }

        ensures touches { Touches (area_of self.old ∷ []) (F.device flash.old) (F.device flash.new)
            (set_lost result) }
        ensures area { area_of self.new ≡ area_of self.old }
        ensures ends { let d = F.device flash.old in let e = F.device flash.new in
            SetEndsOn room_by settings_of d e (area_of self.old) name.now value.now result }
        ensures items { let d = F.device flash.old in let area = area_of self.old in
            SetLeavesItems (numbering_of area) (on zms_items d area)
            (on zms_items (F.device flash.new) area) name.now value.now result }
        ensures units { let d = F.device flash.old in let area = area_of self.old in
            let g = geometry_of d area in
            CommandUnits Owes (boot_units area g) (command_units g) d (F.device flash.new) area
            (set_lost result) }
        ensures sound { on zms_damage (F.device flash.new) (area_of self.old) ≡ None }
        ensures cut { let d = F.device flash.old in let e = F.device flash.new in
            d.is_on ≡ true → set_lost result ≡ true
            → StopsOn chance_of TearsBy settings_of (Put name.now value.now) d e
            (area_of self.old) }
        ensures stands { set_lost result ≡ false
            → StandsOn area_of Stands (F.device flash.new) self.new }
        ensures down { set_lost result ≡ true → is_running self.new ≡ false }
    {
        set_value::<ZmsIdLayout, Zms, F, L>(&mut self.store, flash, name, value, steps)
    }

    // As the trait says. The name's item goes first, and then the value's. A loss may leave the value
    // alone.
    fn delete<F: Flash, L: Ledger>(
        &mut self,
        flash: &mut F,
        name: &Name,
        steps: &mut Steps<L>,
    ) -> Result<(), PowerLost>
        requires lawful { IsLawfulFor (F.device flash.old).banks (area_of self.old) }
        requires stands { StandsOn area_of Stands (F.device flash.old) self.old }

        ensures touches { Touches (area_of self.old ∷ []) (F.device flash.old) (F.device flash.new)
            (is_err result) }
        ensures area { area_of self.new ≡ area_of self.old }
        ensures ends { let d = F.device flash.old in let e = F.device flash.new in
            DeleteEndsOn settings_of d e (area_of self.old) name.now result }
        ensures items { let d = F.device flash.old in let area = area_of self.old in
            DeleteLeavesItems (numbering_of area) (on zms_items d area)
            (on zms_items (F.device flash.new) area) name.now result }
        ensures written { let d = F.device flash.old in let area = area_of self.old in
            (area.role ≡ FcbRole → ⊥) → StaysWritten d (F.device flash.new) area }
        ensures units { let d = F.device flash.old in let area = area_of self.old in
            let g = geometry_of d area in
            CommandUnits Owes (boot_units area g) (command_units g) d (F.device flash.new) area
            (is_err result) }
        ensures sound { on zms_damage (F.device flash.new) (area_of self.old) ≡ None }
        ensures cut { let d = F.device flash.old in let e = F.device flash.new in
            d.is_on ≡ true → is_err result ≡ true
            → StopsOn chance_of TearsBy settings_of (Del name.now) d e (area_of self.old) }
        ensures stands { is_err result ≡ false
            → StandsOn area_of Stands (F.device flash.new) self.new }
        ensures down { is_err result ≡ true → is_running self.new ≡ false }
    {
        delete_name::<ZmsIdLayout, Zms, F, L>(&mut self.store, flash, name, steps)
    }

    fn next_name<F: Flash, L: Ledger>(
        &self,
        flash: &F,
        after: Option<&Name>,
        steps: &mut Steps<L>,
    ) -> Option<Name> {
        next_name::<ZmsIdLayout, Zms, F, L>(&self.store, flash, after, steps)
    }

    fn settings<'a, F: Flash, L: Ledger>(
        &self,
        alloc: Global,
        flash: &'a F,
        steps: &mut Steps<L>,
    ) -> Result<BTreeMap<Name, &'a [u8], Global>, NoMemory> {
        all_settings::<ZmsIdLayout, Zms, F, L>(alloc, &self.store, flash, steps)
    }

    fn format<F: Flash, L: Ledger>(
        flash: &mut F,
        area: &Area,
        steps: &mut Steps<L>,
    ) -> Result<(), PowerLost> {
        area_format(flash, area, steps)
    }

    fn chance<F: Flash, L: Ledger>(
        _flash: &F,
        _area: &Area,
        _loss: &Loss,
        _steps: &mut Steps<L>,
    ) -> bool {
        false
    }

    fn is_up(&self) -> bool {
        ItemStore::is_up(&self.store)
    }
}
