// The settings of one backend: the mount, and reads.
ghost use Rattle.std.specs.Prelude.{◌≡◌, ◌∷◌, [], not, true, None, IfOk};
ghost use Rattle.flash_map.specs.Area.{geometry_of};
ghost use Rattle.flash_map.specs.Faults.{mount_lost};
ghost use Rattle.flash_map.specs.Lawful.{IsLawfulFor};
ghost use Rattle.flash_map.specs.Touches.{Touches};
ghost use Rattle.backend_api.specs.Boot.{MountUnits};
ghost use Rattle.backend_api.specs.Ends.{MountEnds};
ghost use Rattle.backend_api.specs.Room.{foreign_units};
ghost use Rattle.flash_map.specs.On.{on, HoldsOn, StandsOn};
ghost use Rattle.settings_core.specs.Reading.{GetEnds};

use backend_api::Backend;
use flash_map::{Area, MountFault};
use flash_sim::{Flash, Steps};
use setting_name::Name;
use std::alloc::Global;
use std::sync::ledger::Ledger;

/// An earlier call answered that power was lost.
#[derive(Clone, Copy, Debug, PartialEq, Eq)]
pub struct Off;

/// The settings of one backend.
#[derive(Drop)]
pub struct Settings<K: Backend> {
    pub(crate) backend: K,
}

impl<K: Backend> Settings<K> {
    /// Mounts a backend on an area. The map stays, even if power is lost. It spends at most the
    /// units and erases of `Backend::mount`, and at most what the area owes. The area owes no more
    /// afterwards.
    ///
    /// # Errors
    /// Those of `Backend::mount`.
    pub fn mount<F: Flash, L: Ledger>(
        alloc: Global,
        flash: &mut F,
        area: Area,
        steps: &mut Steps<L>,
    ) -> Result<Settings<K>, MountFault>
        requires lawful { IsLawfulFor (F.device flash.old).banks area }
        requires serves { K.serves area (geometry_of (F.device flash.old) area) }

        ensures touches { Touches (area ∷ []) (F.device flash.old) (F.device flash.new)
            (mount_lost result) }
        ensures ends { MountEnds (on K.damage (F.device flash.old) area) (F.device flash.old)
            (F.device flash.new) result }
        ensures sound { on K.damage (F.device flash.old) area ≡ None
            → on K.damage (F.device flash.new) area ≡ None }
        ensures keeps { on K.damage (F.device flash.old) area ≡ None
            → on K.contents (F.device flash.new) area ≡ on K.contents (F.device flash.old) area }
        ensures rests { HoldsOn K.rests (F.device flash.old) area
            → F.device flash.new ≡ F.device flash.old }
        ensures units { let d = F.device flash.old in
            MountUnits K.owes (foreign_units (geometry_of d area)) d (F.device flash.new) area }
        ensures area { IfOk result (λ settings. K.mounted_on settings.backend ≡ area) }
        ensures stands { IfOk result
            (λ settings. StandsOn K.mounted_on K.stands (F.device flash.new) settings.backend) }
        ensures up { IfOk result (λ settings. K.runs settings.backend ≡ true) }
    {
        match K::mount(alloc, flash, area, steps) {
            Ok(backend) => Ok(Settings { backend }),
            Err(fault) => Err(fault),
        }
    }

    /// The settings of a backend that is mounted and up.
    pub fn of(backend: K) -> Settings<K>
        requires up { K.runs backend ≡ true }
        ensures { result.backend ≡ backend }
    {
        Settings { backend }
    }

    /// The value of a name, borrowed from the flash; `None` if it has none.
    ///
    /// # Errors
    /// `Off` exactly if an earlier call answered that power was lost.
    pub fn get<'a, F: Flash, L: Ledger>(
        &self,
        flash: &'a F,
        name: &Name,
        steps: &mut Steps<L>,
    ) -> Result<Option<&'a [u8]>, Off>
        requires lawful { IsLawfulFor (F.device flash.now).banks (K.mounted_on self.now.backend) }
        requires stands { K.runs self.now.backend ≡ true
            → StandsOn K.mounted_on K.stands (F.device flash.now) self.now.backend }
        ensures { GetEnds (K.runs self.now.backend)
            (on K.contents (F.device flash.now) (K.mounted_on self.now.backend)) name.now result }
    {
        if self.backend.is_up() {
            Ok(self.backend.get(flash, name, steps))
        } else {
            Err(Off)
        }
    }

    /// Whether an earlier call answered that power was lost.
    pub fn is_off(&self) -> bool
        ensures { result ≡ not (K.runs self.now.backend) }
    {
        !self.backend.is_up()
    }

    /// The backend.
    pub fn backend(&self) -> &K
        ensures { result.now ≡ self.now.backend }
    {
        &self.backend
    }
}
