// The backend over a ring.
ghost use Rattle.std.specs.Prelude.{◌≡◌, ◌+◌, ◌-◌, ◌<◌, ◌≤◌, ◌∷◌, [], length, true, false, is_err, None, IfOk};
ghost use Rattle.std.proofs.Common.{ap};
ghost use Rattle.flash_map.specs.Area.{value_limit, geometry_of};
ghost use Rattle.flash_map.specs.Faults.{mount_lost};
ghost use Rattle.flash_map.specs.Lawful.{IsLawfulFor};
ghost use Rattle.flash_map.specs.On.{on, StandsOn};
ghost use Rattle.flash_map.specs.Touches.{Touches};
ghost use Rattle.flash_map.specs.declared.area.Role.TheVariants.{Fcb as FcbRole};
ghost use Rattle.fcb_ring.specs.Chance.{chance as chance_of};
ghost use Rattle.fcb_ring.specs.Entries.{states};
ghost use Rattle.fcb_ring.specs.Standing.{StandsOn as RingStandsOn, is_up as is_up_stage, erases_due, erases_on};
ghost use Rattle.fcb_ring.proofs.RestLemmas.{ready-rests};
ghost use Rattle.backend_api.specs.Boot.{MountUnits};
ghost use Rattle.backend_api.specs.Commands.{StopsOn};
ghost use Rattle.backend_api.specs.Commands.Command.{Put, Del};
ghost use Rattle.backend_api.specs.Ends.{set_lost, MountEnds, SetEndsOn, DeleteEndsOn};
ghost use Rattle.backend_api.specs.Map.{IsStored, IsValue};
ghost use Rattle.backend_api.specs.Room.{foreign_units};
ghost use Rattle.backend_api.specs.Written.{StaysWritten};
ghost use Rattle.backend_fcb.specs.Exact.{SpendsFor, SpendsErases};
ghost use Rattle.backend_fcb.specs.Leaving.{Leaves};
ghost use Rattle.backend_fcb.specs.Members.{damage_by, settings_by, room_by, TearsBy, area_of, StandsBy, is_running, OwesBy, boot_by, rests-owe, owes-more};
ghost use Rattle.backend_fcb.specs.Standing.{settings_on};
ghost use Rattle.backend_fcb.specs.Laws.{reads_settings};

use crate::all::all_settings;
use crate::lookup::{last_value, live_cost};
use crate::mounting::first_overfull;
use crate::names::next_name;
use crate::record::{BODY, SHORT_BODY, body_len, reserve, start_of, write_body};
use crate::writing::put;
use backend_api::{Backend, SetFault};
use fcb_ring::{AppendFault, Ring, record_cost};
use flash_map::{Area, MountFault, geometry};
use flash_sim::{Flash, Loss, NoMemory, PowerLost, Steps};
use setting_name::Name;
use std::alloc::Global;
use std::collections::BTreeMap;
use std::sync::ledger::Ledger;

/// A store of settings over a ring of FCB records. Each sector keeps room for a delete.
#[derive(Drop)]
pub struct FcbBackend {
    ring: Ring,
}

impl FcbBackend {
    // Whether a name has exactly this value.
    fn holds<F: Flash, L: Ledger>(
        &self,
        flash: &F,
        name: &Name,
        value: &[u8],
        steps: &mut Steps<L>,
    ) -> bool
        requires stands { RingStandsOn (F.device flash.now) self.now.ring }
        requires some { 0 < length value.now }
        ensures yes_it { result ≡ true
            → IsStored (settings_on (F.device flash.now) self.now.ring.area) name.now value.now }
        ensures not_it { result ≡ false
            → IsStored (settings_on (F.device flash.now) self.now.ring.area) name.now value.now
            → ⊥ }
    {
        match last_value(&self.ring, flash, name, steps) {
            Some(stored) => stored == value,
            None => false,
        }
    }

    // Puts a record of the setting, with room for its body. The name does not have this value.
    fn put_setting<F: Flash, L: Ledger>(
        &mut self,
        flash: &mut F,
        buffer: &mut [u8],
        name: &Name,
        value: &[u8],
        steps: &mut Steps<L>,
    ) -> Result<(), SetFault>
        requires lawful { IsLawfulFor (F.device flash.old).banks (area_of self.old) }
        requires stands { StandsOn area_of StandsBy (F.device flash.old) self.old }
        requires value { IsValue (value_limit (area_of self.old)) value.now }
        requires room { length name.now + 1 + length value.now ≤ length buffer.old }
        requires other { IsStored (settings_on (F.device flash.old) (area_of self.old)) name.now
            value.now → ⊥ }

        ensures touches { Touches (area_of self.old ∷ []) (F.device flash.old) (F.device flash.new)
            (set_lost result) }
        ensures area { area_of self.new ≡ area_of self.old }
        ensures ends { let d = F.device flash.old in let e = F.device flash.new in
            SetEndsOn room_by settings_by d e (area_of self.old) name.now value.now result }
        ensures leaves { let d = F.device flash.old in let e = F.device flash.new in
            Leaves d e self.old self.new (Put name.now value.now) (set_lost result) }
        ensures spends { let d = F.device flash.old in let e = F.device flash.new in
            SpendsFor d e self.old (Put name.now value.now) ((area_of self.old).sectors - 1) result
            (set_lost result) }
    {
        let geometry = geometry(flash, self.ring.area());
        let len = write_body(buffer, name, value);
        match put(
            &mut self.ring,
            flash,
            &buffer[..len],
            false,
            geometry.sectors - 1,
            steps,
        ) {
            Ok(()) => Ok(()),
            Err(AppendFault::PowerLost) => Err(SetFault::PowerLost),
            Err(AppendFault::TooLong) => unreachable!(),
            Err(AppendFault::Full) => Err(SetFault::NoSpace {
                need: u64::from(record_cost(geometry.unit, len as u32)),
                live: live_cost(&self.ring, flash, steps),
            }),
        }
    }
}

impl Backend for FcbBackend {
    ghost serves = { λ area geometry. area.role ≡ FcbRole };

    ghost damage = { damage_by };

    ghost contents = { settings_by };

    ghost room = { room_by };

    ghost rests = { λ area geometry sectors. erases_due (states geometry.unit sectors) ≡ 0 };

    ghost owes = { OwesBy };

    ghost boot_units = { boot_by };

    ghost chance = { chance_of };

    ghost tears = { TearsBy };

    ghost mounted_on = { area_of };

    ghost stands = { StandsBy };

    ghost runs = { is_running };

    ghost stands_up = { λ backend geometry sectors stands. ap is_up_stage stands.ready };

    ghost stands_serves = { λ backend geometry sectors stands. stands.role };

    ghost stands_reads = { λ backend geometry sectors stands. stands.undamaged };

    ghost stands_rests = { λ backend geometry sectors stands. ready-rests geometry.unit sectors backend.ring stands.ring stands.ready };

    ghost rests_owe = { rests-owe };

    ghost owes_more = { owes-more };

    ghost reads_settings = { reads_settings };

    // As the trait says. It spends exactly the erases that are due, and no more up to a power loss.
    fn mount<F: Flash, L: Ledger>(
        _alloc: Global,
        flash: &mut F,
        area: Area,
        steps: &mut Steps<L>,
    ) -> Result<FcbBackend, MountFault>
        requires lawful { IsLawfulFor (F.device flash.old).banks area }
        requires serves { area.role ≡ FcbRole }

        ensures touches { Touches (area ∷ []) (F.device flash.old) (F.device flash.new)
            (mount_lost result) }
        ensures ends { let d = F.device flash.old in
            MountEnds (on damage_by d area) d (F.device flash.new) result }
        ensures sound { let d = F.device flash.old in let e = F.device flash.new in
            on damage_by d area ≡ None → on damage_by e area ≡ None }
        ensures keeps { let d = F.device flash.old in let e = F.device flash.new in
            on damage_by d area ≡ None → on settings_by e area ≡ on settings_by d area }
        ensures rests { erases_on (F.device flash.old) area ≡ 0
            → F.device flash.new ≡ F.device flash.old }
        ensures written { let d = F.device flash.old in
            (area.role ≡ FcbRole → ⊥) → StaysWritten d (F.device flash.new) area }
        ensures units { let d = F.device flash.old in
            MountUnits OwesBy (foreign_units (geometry_of d area)) d (F.device flash.new) area }
        ensures on { IfOk result (λ state. area_of state ≡ area) }
        ensures stands { IfOk result
            (λ state. StandsOn area_of StandsBy (F.device flash.new) state) }
        ensures spends { let d = F.device flash.old in
            SpendsErases d (F.device flash.new) area result }
    {
        let unit = geometry(flash, &area).unit;
        let mut ring = match Ring::inspect(flash, area, reserve(unit), steps) {
            Ok(ring) => ring,
            Err(damaged) => return Err(MountFault::Damaged(damaged)),
        };
        if let Some(damaged) = first_overfull(&ring, flash, steps) {
            return Err(MountFault::Damaged(damaged));
        }
        match ring.finish(flash, steps) {
            Ok(()) => Ok(FcbBackend { ring }),
            Err(_) => Err(MountFault::PowerLost),
        }
    }

    fn get<'a, F: Flash, L: Ledger>(
        &self,
        flash: &'a F,
        name: &Name,
        steps: &mut Steps<L>,
    ) -> Option<&'a [u8]> {
        let value = last_value(&self.ring, flash, name, steps)?;
        if value.is_empty() { None } else { Some(value) }
    }

    // As the trait says. If the record fits, exactly its units are spent, and no more up to a power
    // loss. In any case it spends at most what an append and a collection of each sector but one
    // take.
    fn set<F: Flash, L: Ledger>(
        &mut self,
        flash: &mut F,
        name: &Name,
        value: &[u8],
        steps: &mut Steps<L>,
    ) -> Result<(), SetFault>
        requires lawful { IsLawfulFor (F.device flash.old).banks (area_of self.old) }
        requires stands { StandsOn area_of StandsBy (F.device flash.old) self.old }
        requires some { 0 < length value.now }
        requires short { length value.now ≤ value_limit (area_of self.old) }

        ensures touches { Touches (area_of self.old ∷ []) (F.device flash.old) (F.device flash.new)
            (set_lost result) }
        ensures area { area_of self.new ≡ area_of self.old }
        ensures ends { let d = F.device flash.old in let e = F.device flash.new in
            SetEndsOn room_by settings_by d e (area_of self.old) name.now value.now result }
        ensures sound { on damage_by (F.device flash.new) (area_of self.old) ≡ None }
        ensures cut { let d = F.device flash.old in let e = F.device flash.new in
            d.is_on ≡ true → set_lost result ≡ true
            → StopsOn chance_of TearsBy settings_by (Put name.now value.now) d e
            (area_of self.old) }
        ensures stands { set_lost result ≡ false
            → StandsOn area_of StandsBy (F.device flash.new) self.new }
        ensures down { set_lost result ≡ true → is_running self.new ≡ false }
        ensures spends { let d = F.device flash.old in let e = F.device flash.new in
            SpendsFor d e self.old (Put name.now value.now) ((area_of self.old).sectors - 1) result
            (set_lost result) }
    {
        if self.holds(flash, name, value, steps) {
            return Ok(());
        }
        if body_len(name, value) <= SHORT_BODY {
            let mut buffer = [0; SHORT_BODY];
            return self.put_setting(flash, &mut buffer, name, value, steps);
        }
        let mut buffer = [0; BODY];
        self.put_setting(flash, &mut buffer, name, value, steps)
    }

    // As the trait says. If the record fits, exactly its units are spent, and no more up to a power
    // loss. In any case it spends at most what an append and one collection take.
    fn delete<F: Flash, L: Ledger>(
        &mut self,
        flash: &mut F,
        name: &Name,
        steps: &mut Steps<L>,
    ) -> Result<(), PowerLost>
        requires lawful { IsLawfulFor (F.device flash.old).banks (area_of self.old) }
        requires stands { StandsOn area_of StandsBy (F.device flash.old) self.old }

        ensures touches { Touches (area_of self.old ∷ []) (F.device flash.old) (F.device flash.new)
            (is_err result) }
        ensures area { area_of self.new ≡ area_of self.old }
        ensures ends { let d = F.device flash.old in let e = F.device flash.new in
            DeleteEndsOn settings_by d e (area_of self.old) name.now result }
        ensures written { let d = F.device flash.old in let area = area_of self.old in
            (area.role ≡ FcbRole → ⊥) → StaysWritten d (F.device flash.new) area }
        ensures sound { on damage_by (F.device flash.new) (area_of self.old) ≡ None }
        ensures cut { let d = F.device flash.old in let e = F.device flash.new in
            d.is_on ≡ true → is_err result ≡ true
            → StopsOn chance_of TearsBy settings_by (Del name.now) d e (area_of self.old) }
        ensures stands { is_err result ≡ false
            → StandsOn area_of StandsBy (F.device flash.new) self.new }
        ensures down { is_err result ≡ true → is_running self.new ≡ false }
        ensures spends { let d = F.device flash.old in let e = F.device flash.new in
            SpendsFor d e self.old (Del name.now) 1 result (is_err result) }
    {
        if self.get(flash, name, steps).is_none() {
            return Ok(());
        }
        let body = start_of(name);
        match put(&mut self.ring, flash, body.as_slice(), true, 1, steps) {
            Ok(()) => Ok(()),
            Err(AppendFault::PowerLost) => Err(PowerLost),
            Err(AppendFault::TooLong) => unreachable!(),
            Err(AppendFault::Full) => unreachable!(),
        }
    }

    fn next_name<F: Flash, L: Ledger>(
        &self,
        flash: &F,
        after: Option<&Name>,
        steps: &mut Steps<L>,
    ) -> Option<Name> {
        next_name(&self.ring, flash, after, steps)
    }

    fn settings<'a, F: Flash, L: Ledger>(
        &self,
        alloc: Global,
        flash: &'a F,
        steps: &mut Steps<L>,
    ) -> Result<BTreeMap<Name, &'a [u8], Global>, NoMemory> {
        all_settings(&self.ring, alloc, flash, steps)
    }

    fn format<F: Flash, L: Ledger>(
        flash: &mut F,
        area: &Area,
        steps: &mut Steps<L>,
    ) -> Result<(), PowerLost> {
        Ring::format(flash, area, steps)
    }

    fn chance<F: Flash, L: Ledger>(
        flash: &F,
        area: &Area,
        loss: &Loss,
        steps: &mut Steps<L>,
    ) -> bool {
        fcb_ring::chance(flash, area, loss, steps)
    }

    fn is_up(&self) -> bool {
        self.ring.is_up()
    }
}
