// Sets and deletes of one setting.
ghost use Rattle.std.specs.Prelude.{◌≡◌, ℕ, ◌<◌, ◌≤◌, ◌∷◌, [], true, false, None, length, is_err};
ghost use Rattle.flash_map.specs.Area.{geometry_of, value_limit};
ghost use Rattle.flash_map.specs.Lawful.{IsLawfulFor};
ghost use Rattle.flash_map.specs.Spending.{SpendsAtMost};
ghost use Rattle.flash_map.specs.Touches.{Touches};
ghost use Rattle.backend_api.specs.Commands.Command.{Put, Del};
ghost use Rattle.flash_map.specs.On.{on, StandsOn};
ghost use Rattle.backend_api.specs.Room.{command_units};
ghost use Rattle.settings_core.specs.Owing.{OwesBoot};
ghost use Rattle.settings_core.specs.Carrying.{command_of, is_idle, due_units, CarryEndsOn, save_lost, as_save, fault_of, lost_as_save, put_count};

use crate::settings::Settings;
use backend_api::{Backend, SetFault};
use flash_sim::{Flash, PowerLost, Steps};
use setting_name::Name;
use std::sync::ledger::Ledger;

/// Why a setting was not stored.
#[derive(Clone, Copy, Debug, PartialEq, Eq)]
pub enum SaveFault {
    /// An earlier call answered that power was lost.
    Off,
    /// There is no room by the backend's `Room`. `need` is what the put needs, `live` what all
    /// settings cost, both in bytes.
    NoSpace { need: u64, live: u64 },
    /// The name would be one too many.
    TooManyNames,
    /// Power was off, or was lost in the call.
    PowerLost,
}

/// Why a setting was not deleted.
#[derive(Clone, Copy, Debug, PartialEq, Eq)]
pub enum DeleteFault {
    /// An earlier call answered that power was lost.
    Off,
    /// Power was off, or was lost in the call.
    PowerLost,
}

impl<K: Backend> Settings<K> {
    /// Gives a name a value. The empty value deletes the name. Whatever the result, it spends at
    /// most the units and erases of one command (`command_units`). If power is lost, it leaves at
    /// most `boot_units` of them to the next mount.
    ///
    /// # Errors
    /// `Off` exactly if an earlier call answered that power was lost; nothing changes then. The
    /// others are those of `Backend::set`; `PowerLost` takes the backend down.
    pub fn save_one<F: Flash, L: Ledger>(
        &mut self,
        flash: &mut F,
        name: &Name,
        value: &[u8],
        steps: &mut Steps<L>,
    ) -> Result<(), SaveFault>
        requires lawful { IsLawfulFor (F.device flash.old).banks (K.mounted_on self.old.backend) }
        requires stands { K.runs self.old.backend ≡ true
            → StandsOn K.mounted_on K.stands (F.device flash.old) self.old.backend }
        requires short { length value.now ≤ value_limit (K.mounted_on self.old.backend) }

        ensures touches { Touches (K.mounted_on self.old.backend ∷ []) (F.device flash.old)
            (F.device flash.new) (save_lost result) }
        ensures area { K.mounted_on self.new.backend ≡ K.mounted_on self.old.backend }
        ensures ends { (count : ℕ)
            × CarryEndsOn K.room K.contents K.chance K.tears (K.runs self.old.backend)
            (K.mounted_on self.old.backend) (F.device flash.old) (F.device flash.new)
            (command_of name.now value.now ∷ []) count result }
        ensures at_most { let d = F.device flash.old in
            SpendsAtMost d (F.device flash.new)
            (command_units (geometry_of d (K.mounted_on self.old.backend))) }
        ensures sound { K.runs self.old.backend ≡ true
            → on K.damage (F.device flash.new) (K.mounted_on self.old.backend) ≡ None }
        ensures stands { K.runs self.new.backend ≡ true
            → StandsOn K.mounted_on K.stands (F.device flash.new) self.new.backend }
        ensures owes { save_lost result ≡ true
            → OwesBoot K.owes K.boot_units (F.device flash.new) (K.mounted_on self.new.backend) }
        ensures down { save_lost result ≡ true → K.runs self.new.backend ≡ false }
        ensures up { save_lost result ≡ false → K.runs self.new.backend ≡ K.runs self.old.backend }
    {
        if !self.backend.is_up() {
            return Err(SaveFault::Off);
        }
        if value.is_empty() {
            match remove(&mut self.backend, flash, name, steps) {
                Ok(()) => Ok(()),
                Err(_) => Err(SaveFault::PowerLost),
            }
        } else {
            store(&mut self.backend, flash, name, value, steps)
        }
    }

    /// Deletes a name. Whatever the result, it spends at most the units and erases of one command
    /// (`command_units`). If power is lost, it leaves at most `boot_units` of them to the next
    /// mount.
    ///
    /// # Errors
    /// `Off` exactly if an earlier call answered that power was lost; nothing changes then.
    /// `PowerLost` takes the backend down.
    pub fn delete<F: Flash, L: Ledger>(
        &mut self,
        flash: &mut F,
        name: &Name,
        steps: &mut Steps<L>,
    ) -> Result<(), DeleteFault>
        requires lawful { IsLawfulFor (F.device flash.old).banks (K.mounted_on self.old.backend) }
        requires stands { K.runs self.old.backend ≡ true
            → StandsOn K.mounted_on K.stands (F.device flash.old) self.old.backend }

        ensures touches { Touches (K.mounted_on self.old.backend ∷ []) (F.device flash.old)
            (F.device flash.new) (save_lost (as_save result)) }
        ensures area { K.mounted_on self.new.backend ≡ K.mounted_on self.old.backend }
        ensures ends { (count : ℕ)
            × CarryEndsOn K.room K.contents K.chance K.tears (K.runs self.old.backend)
            (K.mounted_on self.old.backend) (F.device flash.old) (F.device flash.new)
            (Del name.now ∷ []) count (as_save result) }
        ensures at_most { let d = F.device flash.old in
            SpendsAtMost d (F.device flash.new)
            (command_units (geometry_of d (K.mounted_on self.old.backend))) }
        ensures sound { K.runs self.old.backend ≡ true
            → on K.damage (F.device flash.new) (K.mounted_on self.old.backend) ≡ None }
        ensures stands { K.runs self.new.backend ≡ true
            → StandsOn K.mounted_on K.stands (F.device flash.new) self.new.backend }
        ensures owes { save_lost (as_save result) ≡ true
            → OwesBoot K.owes K.boot_units (F.device flash.new) (K.mounted_on self.new.backend) }
        ensures down { save_lost (as_save result) ≡ true → K.runs self.new.backend ≡ false }
        ensures up { save_lost (as_save result) ≡ false
            → K.runs self.new.backend ≡ K.runs self.old.backend }
    {
        if !self.backend.is_up() {
            return Err(DeleteFault::Off);
        }
        match remove(&mut self.backend, flash, name, steps) {
            Ok(()) => Ok(()),
            Err(_) => Err(DeleteFault::PowerLost),
        }
    }
}

// Gives a name a value that is not empty, on a backend that is up. The backend itself leaves an
// equal value as it is, so the name is looked up only once.
fn store<K: Backend, F: Flash, L: Ledger>(
    backend: &mut K,
    flash: &mut F,
    name: &Name,
    value: &[u8],
    steps: &mut Steps<L>,
) -> Result<(), SaveFault>
    requires lawful { IsLawfulFor (F.device flash.old).banks (K.mounted_on backend.old) }
    requires stands { StandsOn K.mounted_on K.stands (F.device flash.old) backend.old }
    requires some { 0 < length value.now }
    requires short { length value.now ≤ value_limit (K.mounted_on backend.old) }

    ensures touches { Touches (K.mounted_on backend.old ∷ []) (F.device flash.old)
        (F.device flash.new) (save_lost result) }
    ensures area { K.mounted_on backend.new ≡ K.mounted_on backend.old }
    ensures ends { (count : ℕ)
        × CarryEndsOn K.room K.contents K.chance K.tears true (K.mounted_on backend.old)
        (F.device flash.old) (F.device flash.new) (Put name.now value.now ∷ []) count result }
    ensures at_most { let d = F.device flash.old in
        SpendsAtMost d (F.device flash.new)
        (command_units (geometry_of d (K.mounted_on backend.old))) }
    ensures sound { on K.damage (F.device flash.new) (K.mounted_on backend.old) ≡ None }
    ensures stands { save_lost result ≡ false
        → StandsOn K.mounted_on K.stands (F.device flash.new) backend.new }
    ensures owes { save_lost result ≡ true
        → OwesBoot K.owes K.boot_units (F.device flash.new) (K.mounted_on backend.new) }
    ensures down { save_lost result ≡ true → K.runs backend.new ≡ false }
{
    match backend.set(flash, name, value, steps) {
        Ok(()) => Ok(()),
        Err(SetFault::TooManyNames) => {
            if is_stored(backend, flash, name, value, steps) {
                Ok(())
            } else {
                Err(SaveFault::TooManyNames)
            }
        }
        Err(SetFault::NoSpace { need, live }) => Err(SaveFault::NoSpace { need, live }),
        Err(SetFault::PowerLost) => Err(SaveFault::PowerLost),
    }
}

// Gives a name a value that is not empty, on a backend that is up. The answer is whether this
// changed the settings.
pub(crate) fn put<K: Backend, F: Flash, L: Ledger>(
    backend: &mut K,
    flash: &mut F,
    name: &Name,
    value: &[u8],
    steps: &mut Steps<L>,
) -> Result<bool, SaveFault>
    requires lawful { IsLawfulFor (F.device flash.old).banks (K.mounted_on backend.old) }
    requires stands { StandsOn K.mounted_on K.stands (F.device flash.old) backend.old }
    requires some { 0 < length value.now }
    requires short { length value.now ≤ value_limit (K.mounted_on backend.old) }

    ensures touches { Touches (K.mounted_on backend.old ∷ []) (F.device flash.old)
        (F.device flash.new) (save_lost result) }
    ensures area { K.mounted_on backend.new ≡ K.mounted_on backend.old }
    ensures ends { CarryEndsOn K.room K.contents K.chance K.tears true (K.mounted_on backend.old)
        (F.device flash.old) (F.device flash.new) (Put name.now value.now ∷ []) (put_count result)
        result }
    ensures at_most { let area = K.mounted_on backend.old in let d = F.device flash.old in
        let puts = Put name.now value.now ∷ [] in
        SpendsAtMost d (F.device flash.new)
        (due_units (geometry_of d area) (on K.contents d area) puts) }
    ensures sound { on K.damage (F.device flash.new) (K.mounted_on backend.old) ≡ None }
    ensures stands { save_lost result ≡ false
        → StandsOn K.mounted_on K.stands (F.device flash.new) backend.new }
    ensures owes { save_lost result ≡ true
        → OwesBoot K.owes K.boot_units (F.device flash.new) (K.mounted_on backend.new) }
    ensures down { save_lost result ≡ true → K.runs backend.new ≡ false }
{
    if is_stored(backend, flash, name, value, steps) {
        return Ok(false);
    }
    match backend.set(flash, name, value, steps) {
        Ok(()) => Ok(true),
        Err(fault) => Err(fault_of(fault)),
    }
}

// Whether a name has just this value.
fn is_stored<K: Backend, F: Flash, L: Ledger>(
    backend: &K,
    flash: &F,
    name: &Name,
    value: &[u8],
    steps: &mut Steps<L>,
) -> bool
    requires lawful { IsLawfulFor (F.device flash.now).banks (K.mounted_on backend.now) }
    requires stands { StandsOn K.mounted_on K.stands (F.device flash.now) backend.now }
    ensures { result
        ≡ is_idle (on K.contents (F.device flash.now) (K.mounted_on backend.now))
        (Put name.now value.now) }
{
    match backend.get(flash, name, steps) {
        Some(stored) => value == stored,
        None => false,
    }
}

fn fault_of(fault: SetFault) -> SaveFault
    ensures { result ≡ fault_of fault }
{
    match fault {
        SetFault::NoSpace { need, live } => SaveFault::NoSpace { need, live },
        SetFault::TooManyNames => SaveFault::TooManyNames,
        SetFault::PowerLost => SaveFault::PowerLost,
    }
}

// Deletes a name, on a backend that is up.
fn remove<K: Backend, F: Flash, L: Ledger>(
    backend: &mut K,
    flash: &mut F,
    name: &Name,
    steps: &mut Steps<L>,
) -> Result<(), PowerLost>
    requires lawful { IsLawfulFor (F.device flash.old).banks (K.mounted_on backend.old) }
    requires stands { StandsOn K.mounted_on K.stands (F.device flash.old) backend.old }

    ensures touches { Touches (K.mounted_on backend.old ∷ []) (F.device flash.old)
        (F.device flash.new) (is_err result) }
    ensures area { K.mounted_on backend.new ≡ K.mounted_on backend.old }
    ensures ends { (count : ℕ)
        × CarryEndsOn K.room K.contents K.chance K.tears true (K.mounted_on backend.old)
        (F.device flash.old) (F.device flash.new) (Del name.now ∷ []) count (lost_as_save result) }
    ensures at_most { let d = F.device flash.old in
        SpendsAtMost d (F.device flash.new)
        (command_units (geometry_of d (K.mounted_on backend.old))) }
    ensures sound { on K.damage (F.device flash.new) (K.mounted_on backend.old) ≡ None }
    ensures stands { is_err result ≡ false
        → StandsOn K.mounted_on K.stands (F.device flash.new) backend.new }
    ensures owes { is_err result ≡ true
        → OwesBoot K.owes K.boot_units (F.device flash.new) (K.mounted_on backend.new) }
    ensures down { is_err result ≡ true → K.runs backend.new ≡ false }
{
    backend.delete(flash, name, steps)
}
