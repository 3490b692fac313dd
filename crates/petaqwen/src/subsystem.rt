// Settings on a partition, and the handlers that hold values at run time.
ghost use Rattle.std.specs.Prelude.{◌≡◌, ◌<◌, ◌≤◌, ◌++◌, ◌∷◌, [], false, length, IfOk, IfErr, OnOk, option_map};
ghost use Rattle.std.specs.FinMap as finite;
ghost use Rattle.flash_sim.specs.Device.{After, replanned};
ghost use Rattle.flash_map.specs.Area.{value_limit};
ghost use Rattle.flash_map.specs.On.{on};
ghost use Rattle.handlers.specs.Registry.{registered};
ghost use Rattle.any_backend.specs.ByRole.{any_contents};
ghost use Rattle.any_backend.specs.Standing.{area_of, is_up};
ghost use Rattle.settings_core.specs.Reading.{GetEnds};
ghost use Rattle.settings_core.specs.Runtime.{RuntimeSetEnds, RuntimeGetEnds};
ghost use Rattle.settings_core.specs.Saving.{exported};
ghost use Rattle.petaqwen.specs.Calls.{FailsToOpen, Loads, Opens, Registers, Saves, without};
ghost use Rattle.petaqwen.specs.Ready.{AreServed, IsReady};

use crate::board::{Board, partition};
use crate::calls::{get, load, mount, save};
use any_backend::AnyBackend;
use flash_map::MountFault;
use flash_sim::{Bench, Flash};
use handlers::{Handler, RegisterFault, Registry};
use setting_name::Name;
use settings_core::{
    LoadFault, Loaded, NoHandler, Off, RuntimeFault, Saved, Settings, runtime_get, runtime_set,
};
use std::alloc::Global;
use std::marker::Brand;
use std::sync::ledger::Blank;

/// Why settings were not opened.
#[derive(Clone, Copy, Debug, PartialEq, Eq)]
pub enum OpenFault {
    /// No partition has this label, or the one that has it is a selector.
    NoPartition,
    /// The mount was refused, or power was lost in it.
    Mount(MountFault),
}

/// Settings that were not opened: why, and the board as the mount left it.
#[derive(Drop)]
pub struct Unopened<F: Flash> {
    pub fault: OpenFault,
    pub board: Board<F>,
}

/// Settings on one partition of a board, mounted, and the handlers that hold values at run time.
#[derive(Drop)]
pub struct Subsystem<F: Flash> {
    board: Board<F>,
    settings: Settings<AnyBackend>,
    registry: Registry,
}

impl<F: Flash> Subsystem<F> {
    /// Mounts the settings of the partition with this label, and finishes what a power loss has
    /// interrupted. The settings stay, even if power is lost. No handler is registered yet.
    ///
    /// It spends at most the units and erases that the partition owes, as the last interrupted
    /// command left it, and none at rest; whatever the bytes, at most `foreign_units`. It leaves no
    /// more to the next mount than it found.
    ///
    /// # Errors
    /// `NoPartition` exactly if no partition for settings has the label; then nothing changes.
    /// `Mount`: the partition is damaged, power was lost, or memory ran out. The board comes back.
    pub fn open(alloc: Global, board: Board<F>, label: &str) -> Result<Subsystem<F>, Unopened<F>>
        requires sound { AreServed (F.device board.flash).banks board.map }

        ensures opens { IfOk result
            (λ s. Opens (F.device board.flash) (F.device s.board.flash) board.map s.board.map
            label.now s.settings.backend) }
        ensures empty { IfOk result (λ s. registered state s.registry ≡ []) }
        ensures ready { IfOk result
            (λ s. IsReady (F.device s.board.flash) s.board.map s.settings.backend
            (registered state s.registry)) }
        ensures fails { IfErr result
            (λ u. FailsToOpen (F.device board.flash) (F.device u.board.flash) board.map u.board.map
            label.now u.fault) }
        ensures sound { IfErr result
            (λ u. AreServed (F.device u.board.flash).banks u.board.map) }
    {
        let mut board = board;
        let Some(area) = partition(&board.map, label) else {
            return Err(Unopened {
                fault: OpenFault::NoPartition,
                board,
            });
        };
        let registry = Registry::new(alloc);
        match mount::<F, Brand>(alloc, &mut board.flash, area, Blank::new(1)) {
            Ok(settings) => Ok(Subsystem {
                board,
                settings,
                registry,
            }),
            Err(fault) => Err(Unopened {
                fault: OpenFault::Mount(fault),
                board,
            }),
        }
    }

    /// Registers a handler that holds nothing yet for a subtree of names, behind all others.
    ///
    /// # Errors
    /// `Exists` exactly if the subtree is registered; `NoMemory` only if it is not. The
    /// handler is dropped, and nothing else changes.
    pub fn register(
        &mut self,
        subtree: Name,
        handler: Box<dyn Handler>,
    ) -> Result<(), RegisterFault>
        requires ready { IsReady (F.device self.old.board.flash) self.old.board.map
            self.old.settings.backend (registered state self.old.registry) }
        requires empty { (state handler).held ≡ finite.empty }

        ensures ends { Registers (registered state self.old.registry)
            (registered state self.new.registry) subtree (state handler) result }
        ensures added { let rows = self.old.registry.rows.items in
            OnOk result
            (self.new.registry.rows.items
            ≡ rows ++ record { subtree = subtree; handler = handler } ∷ []) }
        ensures same { IfErr result
            (λ fault. self.new.registry.rows.items ≡ self.old.registry.rows.items) }
        ensures board { self.new.board ≡ self.old.board }
        ensures settings { self.new.settings ≡ self.old.settings }
        ensures ready { IsReady (F.device self.new.board.flash) self.new.board.map
            self.new.settings.backend (registered state self.new.registry) }
    {
        without(self.registry.register(subtree, handler))
    }

    /// Gives a value to the best handler for the name: at least one byte, and no more than the
    /// partition takes (256, or 2,048 where its version is 2). Nothing is stored yet: `save` does
    /// that.
    ///
    /// # Errors
    /// `NoHandler` exactly if no subtree matches the name; `Rejected` exactly if the handler
    /// does not accept the value; `NoMemory`. Nothing changes then.
    pub fn set(&mut self, alloc: Global, name: &Name, value: &[u8]) -> Result<(), RuntimeFault>
        requires ready { IsReady (F.device self.old.board.flash) self.old.board.map
            self.old.settings.backend (registered state self.old.registry) }
        requires some { 0 < length value.now }
        requires short { length value.now ≤ value_limit (area_of self.old.settings.backend) }

        ensures ends { RuntimeSetEnds (registered state self.old.registry)
            (registered state self.new.registry) name.now value.now result }
        ensures board { self.new.board ≡ self.old.board }
        ensures settings { self.new.settings ≡ self.old.settings }
        ensures ready { IsReady (F.device self.new.board.flash) self.new.board.map
            self.new.settings.backend (registered state self.new.registry) }
    {
        let _name = name.bytes();
        runtime_set(alloc, &mut self.registry, name, value)
    }

    /// What the best handler for the name holds for it, if it holds a value.
    ///
    /// # Errors
    /// `NoHandler` exactly if no subtree matches the name.
    pub fn held(&self, name: &Name) -> Result<Option<&[u8]>, NoHandler>
        ensures { RuntimeGetEnds (registered state self.now.registry) name.now result }
    {
        runtime_get(&self.registry, name)
    }

    /// The stored value of a name, if it has one, read from the flash.
    ///
    /// # Errors
    /// `Off` exactly if an earlier call answered that power was lost.
    pub fn stored(&self, name: &Name) -> Result<Option<&[u8]>, Off>
        requires ready { IsReady (F.device self.now.board.flash) self.now.board.map
            self.now.settings.backend (registered state self.now.registry) }

        ensures { GetEnds (is_up self.now.settings.backend)
            (on any_contents (F.device self.now.board.flash) (area_of self.now.settings.backend))
            name.now result }
    {
        get::<F, Brand>(&self.settings, &self.board.flash, name, Blank::new(1))
    }

    /// Stores what the handlers under the given subtree hold; without one, what all hold. A value
    /// that is stored already is not stored again. `end` of the answer says how it ended, and
    /// `pairs` how many values were stored before that. The handlers stay. It spends at most the
    /// units and erases of one set for each value that differs.
    ///
    /// After `PowerLost` the first so many values are new, the next is new or old, and the others
    /// are old; over FCB the next may be torn by chance. The next mount then spends at most
    /// `boot_units`. The settings answer `Off`, until they are closed and opened again. While power
    /// is off, `pairs` is 0.
    pub fn save(&mut self, subtree: Option<&Name>) -> Saved
        requires ready { IsReady (F.device self.old.board.flash) self.old.board.map
            self.old.settings.backend (registered state self.old.registry) }

        ensures ends { Saves (F.device self.old.board.flash) (F.device self.new.board.flash)
            self.old.settings.backend self.new.settings.backend
            (exported (option_map (λ name. name.now) subtree.entry)
            (registered state self.old.registry)) result }
        ensures map { self.new.board.map ≡ self.old.board.map }
        ensures registry { self.new.registry ≡ self.old.registry }
        ensures ready { IsReady (F.device self.new.board.flash) self.new.board.map
            self.new.settings.backend (registered state self.new.registry) }
    {
        save::<F, Brand>(
            &mut self.settings,
            &mut self.board.flash,
            &self.registry,
            subtree,
            Blank::new(1),
        )
    }

    /// Gives each stored value whose name matches the subtree, or all without one, to the best
    /// handler for it, in byte order of the names, and commits. The answer counts the values that
    /// were taken, were rejected, and found no handler. It takes memory for each stored name.
    ///
    /// # Errors
    /// `Off` exactly if an earlier call answered that power was lost; nothing changes then.
    /// `NoMemory`: the values up to some name were given, or none, and nothing was committed.
    pub fn load(&mut self, alloc: Global, subtree: Option<&Name>) -> Result<Loaded, LoadFault>
        requires ready { IsReady (F.device self.old.board.flash) self.old.board.map
            self.old.settings.backend (registered state self.old.registry) }

        ensures ends { Loads (F.device self.old.board.flash) self.old.settings.backend
            (registered state self.old.registry) (registered state self.new.registry)
            (option_map (λ name. name.now) subtree.entry) result }
        ensures board { self.new.board ≡ self.old.board }
        ensures settings { self.new.settings ≡ self.old.settings }
        ensures ready { IsReady (F.device self.new.board.flash) self.new.board.map
            self.new.settings.backend (registered state self.new.registry) }
    {
        load::<F, Brand>(
            alloc,
            &self.settings,
            &self.board.flash,
            &mut self.registry,
            subtree,
            Blank::new(1),
        )
    }

    /// Gives the board back. What the handlers hold is gone, as after a reset.
    pub fn close(self) -> Board<F>
        requires ready { IsReady (F.device self.board.flash) self.board.map self.settings.backend
            (registered state self.registry) }

        ensures same { result ≡ self.board }
        ensures sound { AreServed (F.device result.flash).banks result.map }
    {
        self.board
    }
}

impl<B: Bench> Subsystem<B> {
    /// Plans a loss of power after so many more units and erases, in the place of an earlier plan.
    pub fn lose_power_after(&mut self, units: u64)
        requires ready { IsReady (B.device self.old.board.flash) self.old.board.map
            self.old.settings.backend (registered state self.old.registry) }

        ensures plan { let d = B.device self.old.board.flash in
            B.device self.new.board.flash
            ≡ record d { plan = replanned d.plan (After units) } }
        ensures map { self.new.board.map ≡ self.old.board.map }
        ensures settings { self.new.settings ≡ self.old.settings }
        ensures registry { self.new.registry ≡ self.old.registry }
        ensures ready { IsReady (B.device self.new.board.flash) self.new.board.map
            self.new.settings.backend (registered state self.new.registry) }
    {
        self.board.flash.arm(units);
    }
}

// The answer, without the handler that comes back.
fn without<B: Drop>(registered: Result<(), (RegisterFault, B)>) -> Result<(), RegisterFault>
    ensures { result ≡ without registered }
{
    match registered {
        Ok(()) => Ok(()),
        Err((fault, _)) => Err(fault),
    }
}
