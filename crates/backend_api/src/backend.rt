// The trait of a backend.
ghost use Rattle.std.specs.Prelude.{◌≡◌, ◌<◌, ◌≤◌, ◌∷◌, [], ℕ, Bool, List, length, replicate, true, false, is_err, Option, None, option_map, count_by, IfOk, OnOk, OnErr};
ghost use Rattle.std.specs.FinMap as finite;
ghost use Rattle.flash_sim.specs.Bank.{IsLawful};
ghost use Rattle.flash_sim.specs.Device.{Device};
ghost use Rattle.flash_sim.specs.declared.flash.Loss.{Loss as loss_type};
ghost use Rattle.flash_map.specs.declared.area.Area.{Area as area_type};
ghost use Rattle.flash_map.specs.declared.area.Geometry.{Geometry};
ghost use Rattle.flash_map.specs.declared.area.Role.TheVariants.{Fcb as FcbRole};
ghost use Rattle.flash_map.specs.declared.faults.Damaged.{Damaged as damaged_type};
ghost use Rattle.flash_map.specs.Area.{sector_size, sectors_of, geometry_of, value_limit};
ghost use Rattle.flash_map.specs.Faults.{mount_lost};
ghost use Rattle.flash_map.specs.Lawful.{IsLawfulFor};
ghost use Rattle.flash_map.specs.Sectors.{blanked_up_to};
ghost use Rattle.flash_map.specs.Spending.{Spends, SpendsAtMost};
ghost use Rattle.flash_map.specs.Touches.{Touches};
ghost use Rattle.flash_map.specs.Units.{is_written};
ghost use Rattle.backend_api.specs.Boot.{MountUnits, CommandUnits};
ghost use Rattle.backend_api.specs.Commands.{Command, StopsOn};
ghost use Rattle.backend_api.specs.Commands.Command.{Put, Del};
ghost use Rattle.backend_api.specs.Ends.{MountEnds, set_lost, SetEndsOn, DeleteEndsOn};
ghost use Rattle.backend_api.specs.Listing.{pairs_in};
ghost use Rattle.backend_api.specs.Map.{Map, IsSettings, next_name};
ghost use Rattle.flash_map.specs.On.{on, HoldsOn, StandsOn};
ghost use Rattle.backend_api.specs.Room.{Room, command_units, foreign_units};
ghost use Rattle.backend_api.specs.Written.{StaysWritten};

use flash_map::{Area, MountFault};
use flash_sim::{Flash, Loss, NoMemory, PowerLost, Steps};
use setting_name::Name;
use std::alloc::Global;
use std::collections::BTreeMap;
use std::sync::ledger::Ledger;

/// Why a setting was not stored.
#[derive(Clone, Copy, Debug, PartialEq, Eq)]
pub enum SetFault {
    /// There is no room by the backend's numbers (`HasNoRoom`). `need` is what the put takes, and
    /// `live` what all settings cost, both in bytes.
    NoSpace { need: u64, live: u64 },
    /// The name would be one too many.
    TooManyNames,
    /// Power was off, or was lost in the call.
    PowerLost,
}

/// A store of settings on one area. An area without damage reads as one map of names to values.
pub trait Backend: Drop {
    /// The backend serves this area, with this geometry.
    ghost serves: { area_type → Geometry → Type 0 };

    /// The damage that the sectors of an area with this geometry show.
    ghost damage: { area_type → Geometry → List (List ℕ) → Option damaged_type };

    /// The map that the sectors read as, if they show no damage.
    ghost contents: { area_type → Geometry → List (List ℕ) → Map };

    /// The numbers of room of an area with this geometry.
    ghost room: { area_type → Geometry → Room };

    /// A mount has nothing to do on these sectors.
    ghost rests: { area_type → Geometry → List (List ℕ) → Type 0 };

    /// A mount of these sectors spends at most so many units and erases, cut or not.
    ghost owes: { area_type → Geometry → List (List ℕ) → ℕ → Type 0 };

    /// The most units and erases that a command that was cut leaves to the next mount.
    ghost boot_units: { area_type → Geometry → ℕ };

    /// Whether the units that were programmed before this loss spell, by chance, another record
    /// than the intended one.
    ghost chance: { area_type → Geometry → List (List ℕ) → loss_type → Bool };

    /// If so many units of a command spell another record by chance, the first map may become the
    /// second.
    ghost tears: { area_type → Geometry → Command → ℕ → Map → Map → Type 0 };

    /// The area that the state was mounted on.
    ghost mounted_on: { Self → area_type };

    /// The state is up, and knows the area's sectors, of this geometry, as they are.
    ghost stands: { Self → Geometry → List (List ℕ) → Type 0 };

    /// Whether the state is up: no call has returned `PowerLost`.
    ghost runs: { Self → Bool };

    /// Mounts a backend on an area. The map stays, even if power is lost. Whatever the result, it
    /// spends at most `foreign_units` units and erases, at most what the area owes, and none if the
    /// area is at rest. The area owes no more afterwards. An NVS or ZMS area is all FF afterwards
    /// only if it was all FF before; of an FCB area a mount may erase all that it holds.
    ///
    /// # Errors
    /// `NoMemory`; otherwise `Damaged` exactly if the area is damaged. Both leave the flash as it
    /// was. `PowerLost`: the map stays.
    fn mount<F: Flash, L: Ledger>(
        alloc: Global,
        flash: &mut F,
        area: Area,
        steps: &mut Steps<L>,
    ) -> Result<Self, MountFault>
        requires lawful { IsLawfulFor (F.device flash.old).banks area }
        requires serves { serves area (geometry_of (F.device flash.old) area) }

        ensures touches { Touches (area ∷ []) (F.device flash.old) (F.device flash.new)
            (mount_lost result) }
        ensures ends { let d = F.device flash.old in
            MountEnds (on damage d area) d (F.device flash.new) result }
        ensures sound { let d = F.device flash.old in let e = F.device flash.new in
            on damage d area ≡ None → on damage e area ≡ None }
        ensures keeps { let d = F.device flash.old in let e = F.device flash.new in
            on damage d area ≡ None → on contents e area ≡ on contents d area }
        ensures rests { HoldsOn rests (F.device flash.old) area
            → F.device flash.new ≡ F.device flash.old }
        ensures written { let d = F.device flash.old in
            (area.role ≡ FcbRole → ⊥) → StaysWritten d (F.device flash.new) area }
        ensures units { let d = F.device flash.old in
            MountUnits owes (foreign_units (geometry_of d area)) d (F.device flash.new) area }
        ensures on { IfOk result (λ state. mounted_on state ≡ area) }
        ensures stands { IfOk result
            (λ state. StandsOn mounted_on stands (F.device flash.new) state) };

    /// The value of a name; `None` if it has none.
    fn get<'a, F: Flash, L: Ledger>(
        &self,
        flash: &'a F,
        name: &Name,
        steps: &mut Steps<L>,
    ) -> Option<&'a [u8]>
        requires lawful { IsLawfulFor (F.device flash.now).banks (mounted_on self.now) }
        requires stands { StandsOn mounted_on stands (F.device flash.now) self.now }
        ensures { let settings = on contents (F.device flash.now) (mounted_on self.now) in
            option_map (λ bytes. bytes.now) result ≡ finite.get settings name.now };

    /// Gives a name a value, which is not empty and no longer than the area allows. If the name has
    /// this value already, nothing is programmed. It spends at most `command_units` units and
    /// erases. If power is lost, it leaves at most `boot_units` of them to the next mount.
    ///
    /// # Errors
    /// `TooManyNames` exactly if the name would be one too many: nothing was programmed. `NoSpace`
    /// only if there is no room by the backend's numbers: the map stays. `PowerLost`: the state is
    /// down. The map is as before or has the value, unless the units that were programmed spell
    /// another record by chance.
    fn set<F: Flash, L: Ledger>(
        &mut self,
        flash: &mut F,
        name: &Name,
        value: &[u8],
        steps: &mut Steps<L>,
    ) -> Result<(), SetFault>
        requires lawful { IsLawfulFor (F.device flash.old).banks (mounted_on self.old) }
        requires stands { StandsOn mounted_on stands (F.device flash.old) self.old }
        requires some { 0 < length value.now }
        requires short { length value.now ≤ value_limit (mounted_on self.old) }

        ensures touches { Touches (mounted_on self.old ∷ []) (F.device flash.old)
            (F.device flash.new) (set_lost result) }
        ensures area { mounted_on self.new ≡ mounted_on self.old }
        ensures ends { let d = F.device flash.old in let e = F.device flash.new in
            SetEndsOn room contents d e (mounted_on self.old) name.now value.now result }
        ensures units { let d = F.device flash.old in let area = mounted_on self.old in
            let g = geometry_of d area in
            CommandUnits owes (boot_units area g) (command_units g) d (F.device flash.new) area
            (set_lost result) }
        ensures sound { on damage (F.device flash.new) (mounted_on self.old) ≡ None }
        ensures cut { let d = F.device flash.old in let e = F.device flash.new in
            d.is_on ≡ true → set_lost result ≡ true
            → StopsOn chance tears contents (Put name.now value.now) d e (mounted_on self.old) }
        ensures stands { set_lost result ≡ false
            → StandsOn mounted_on stands (F.device flash.new) self.new }
        ensures down { set_lost result ≡ true → runs self.new ≡ false };

    /// Deletes a name with its value. If the name has no value, nothing is programmed. A delete
    /// always finds room. It spends at most `command_units` units and erases. If power is lost, it
    /// leaves at most `boot_units` of them to the next mount. An NVS or ZMS area is all FF
    /// afterwards only if it was all FF before.
    ///
    /// # Errors
    /// `PowerLost`: the state is down. The map is as before or without the name, unless the units
    /// that were programmed spell another record by chance.
    fn delete<F: Flash, L: Ledger>(
        &mut self,
        flash: &mut F,
        name: &Name,
        steps: &mut Steps<L>,
    ) -> Result<(), PowerLost>
        requires lawful { IsLawfulFor (F.device flash.old).banks (mounted_on self.old) }
        requires stands { StandsOn mounted_on stands (F.device flash.old) self.old }

        ensures touches { Touches (mounted_on self.old ∷ []) (F.device flash.old)
            (F.device flash.new) (is_err result) }
        ensures area { mounted_on self.new ≡ mounted_on self.old }
        ensures ends { let d = F.device flash.old in let e = F.device flash.new in
            DeleteEndsOn contents d e (mounted_on self.old) name.now result }
        ensures written { let d = F.device flash.old in let area = mounted_on self.old in
            (area.role ≡ FcbRole → ⊥) → StaysWritten d (F.device flash.new) area }
        ensures units { let d = F.device flash.old in let area = mounted_on self.old in
            let g = geometry_of d area in
            CommandUnits owes (boot_units area g) (command_units g) d (F.device flash.new) area
            (is_err result) }
        ensures sound { on damage (F.device flash.new) (mounted_on self.old) ≡ None }
        ensures cut { let d = F.device flash.old in let e = F.device flash.new in
            d.is_on ≡ true → is_err result ≡ true
            → StopsOn chance tears contents (Del name.now) d e (mounted_on self.old) }
        ensures stands { is_err result ≡ false
            → StandsOn mounted_on stands (F.device flash.new) self.new }
        ensures down { is_err result ≡ true → runs self.new ≡ false };

    /// The least name, in byte order, that has a value and is greater than `after`, or the least of
    /// all if `after` is not given; `None` if there is none.
    fn next_name<F: Flash, L: Ledger>(
        &self,
        flash: &F,
        after: Option<&Name>,
        steps: &mut Steps<L>,
    ) -> Option<Name>
        requires lawful { IsLawfulFor (F.device flash.now).banks (mounted_on self.now) }
        requires stands { StandsOn mounted_on stands (F.device flash.now) self.now }
        ensures { let settings = on contents (F.device flash.now) (mounted_on self.now) in
            result ≡ next_name settings (option_map (λ name. name.now) after.entry) };

    /// All settings, in the byte order of their names. This takes memory for each name.
    ///
    /// # Errors
    /// `NoMemory`.
    fn settings<'a, F: Flash, L: Ledger>(
        &self,
        alloc: Global,
        flash: &'a F,
        steps: &mut Steps<L>,
    ) -> Result<BTreeMap<Name, &'a [u8], Global>, NoMemory>
        requires lawful { IsLawfulFor (F.device flash.now).banks (mounted_on self.now) }
        requires stands { StandsOn mounted_on stands (F.device flash.now) self.now }
        ensures { let settings = on contents (F.device flash.now) (mounted_on self.now) in
            IfOk result (λ found. pairs_in found ≡ finite.entries settings) };

    /// Erases each sector that is not all FF. The area then reads as the empty map, and a mount of it
    /// has nothing to do.
    ///
    /// # Errors
    /// `PowerLost` if power was off or was lost in the call: some first sectors are all FF, and the
    /// others are as before.
    fn format<F: Flash, L: Ledger>(
        flash: &mut F,
        area: &Area,
        steps: &mut Steps<L>,
    ) -> Result<(), PowerLost>
        requires lawful { IsLawfulFor (F.device flash.old).banks area.now }
        requires serves { serves area.now (geometry_of (F.device flash.old) area.now) }

        ensures touches { Touches (area.now ∷ []) (F.device flash.old) (F.device flash.new)
            (is_err result) }
        ensures blank { let d = F.device flash.old in
            OnOk result
            (sectors_of (F.device flash.new) area.now
            ≡ replicate area.now.sectors (replicate (sector_size d area.now) 0xFF)) }
        ensures sound { OnOk result (on damage (F.device flash.new) area.now ≡ None) }
        ensures empty { OnOk result (on contents (F.device flash.new) area.now ≡ finite.empty) }
        ensures rests { OnOk result (HoldsOn rests (F.device flash.new) area.now) }
        ensures units { let d = F.device flash.old in
            OnOk result
            (Spends d (F.device flash.new) (count_by is_written (sectors_of d area.now))) }

        ensures part { let d = F.device flash.old in let e = F.device flash.new in
            OnErr result
            ((n : ℕ) × (sectors_of e area.now ≡ blanked_up_to n (sectors_of d area.now))) }
        ensures units_lost { let d = F.device flash.old in
            OnErr result
            (SpendsAtMost d (F.device flash.new) (count_by is_written (sectors_of d area.now))) };

    /// Whether the units that were programmed before this loss spell, by chance, another record
    /// than the intended one.
    fn chance<F: Flash, L: Ledger>(
        flash: &F,
        area: &Area,
        loss: &Loss,
        steps: &mut Steps<L>,
    ) -> bool
        requires lawful { IsLawfulFor (F.device flash.now).banks area.now }
        requires serves { serves area.now (geometry_of (F.device flash.now) area.now) }
        ensures { result ≡ on chance (F.device flash.now) area.now loss.now };

    /// Whether the state is up: no call has returned `PowerLost`.
    fn is_up(&self) -> bool
        ensures { result ≡ runs self.now };

    // A state that stands is up. The backend serves its area, which shows no damage, and a mount of
    // it would have nothing to do.
    ghost stands_up: { (state : Self) (geometry : Geometry) (sectors : List (List ℕ))
        → stands state geometry sectors → runs state ≡ true };

    ghost stands_serves: { (state : Self) (geometry : Geometry) (sectors : List (List ℕ))
        → stands state geometry sectors → serves (mounted_on state) geometry };

    ghost stands_reads: { (state : Self) (geometry : Geometry) (sectors : List (List ℕ))
        → stands state geometry sectors → damage (mounted_on state) geometry sectors ≡ None };

    ghost stands_rests: { (state : Self) (geometry : Geometry) (sectors : List (List ℕ))
        → stands state geometry sectors → rests (mounted_on state) geometry sectors };

    // If a mount has nothing to do, it spends nothing. An area that owes at most so many owes at most
    // more.
    ghost rests_owe: { (area : area_type) (geometry : Geometry) (sectors : List (List ℕ)) (most : ℕ)
        → rests area geometry sectors → owes area geometry sectors most };

    ghost owes_more: { (area : area_type) (geometry : Geometry) (sectors : List (List ℕ)) (few most : ℕ)
        → few ≤ most → owes area geometry sectors few → owes area geometry sectors most };

    // A lawful area without damage reads as a map of lawful names and values.
    ghost reads_settings: { (d : Device) (area : area_type) → IsLawful d.banks d.bytes
        → IsLawfulFor d.banks area → serves area (geometry_of d area)
        → on damage d area ≡ None → IsSettings (value_limit area) (on contents d area) };
}
