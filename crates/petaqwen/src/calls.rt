// The calls of the settings, each with a counter of its own of the views that it takes.
ghost use Rattle.std.specs.Prelude.{◌≡◌, ◌<◌, true, IfOk, option_map};
ghost use Rattle.flash_map.specs.Area.{geometry_of, value_limit};
ghost use Rattle.flash_map.specs.Lawful.{IsLawfulFor};
ghost use Rattle.flash_map.specs.On.{on, StandsOn};
ghost use Rattle.handlers.specs.Registry.{registered};
ghost use Rattle.any_backend.specs.ByRole.{any_serves, any_contents};
ghost use Rattle.any_backend.specs.Standing.{area_of, Stands, is_up};
ghost use Rattle.settings_core.specs.Reading.{GetEnds};
ghost use Rattle.settings_core.specs.Saving.{AreLawful, exported};
ghost use Rattle.petaqwen.specs.Calls.{Loads, Mounts, Saves};

use any_backend::AnyBackend;
use flash_map::{Area, MountFault};
use flash_sim::{Flash, NoMemory, Steps};
use handlers::{Registry, ValueView};
use setting_name::Name;
use settings_core::{LoadFault, Loaded, Off, Report, Saved, Settings};
use std::alloc::Global;
use std::sync::ledger::{Blank, Ledger};

// Keeps nothing of a load.
#[derive(Drop)]
struct Quiet;

impl Report for Quiet {
    ghost use Rattle.std.specs.Prelude.{None};

    ghost gives = { λ _. None };

    fn given(
        &mut self,
        _alloc: Global,
        _subtree: &Name,
        _rest: &[u8],
        _value: ValueView<'_>,
        _taken: bool,
    ) -> Result<(), NoMemory> {
        Ok(())
    }
}

pub fn mount<F: Flash, L: Ledger>(
    alloc: Global,
    flash: &mut F,
    area: Area,
    blank: Blank,
) -> Result<Settings<AnyBackend>, MountFault>
    requires lawful { IsLawfulFor (F.device flash.old).banks area }
    requires serves { any_serves area (geometry_of (F.device flash.old) area) }
    requires name { blank.name ≡ L.name }
    requires parts { blank.parts ≡ L.parts }
    requires some { 0 < L.parts }

    ensures mounts { Mounts (F.device flash.old) (F.device flash.new) area result }
    ensures area { IfOk result (λ settings. area_of settings.backend ≡ area) }
    ensures stands { IfOk result
        (λ settings. StandsOn area_of Stands (F.device flash.new) settings.backend) }
    ensures up { IfOk result (λ settings. is_up settings.backend ≡ true) }
{
    let mut steps = Steps::<L>::new(blank);
    Settings::mount(alloc, flash, area, &mut steps)
}

pub fn get<'a, F: Flash, L: Ledger>(
    settings: &Settings<AnyBackend>,
    flash: &'a F,
    name: &Name,
    blank: Blank,
) -> Result<Option<&'a [u8]>, Off>
    requires lawful { IsLawfulFor (F.device flash.now).banks (area_of settings.now.backend) }
    requires stands { is_up settings.now.backend ≡ true
        → StandsOn area_of Stands (F.device flash.now) settings.now.backend }
    requires name { blank.name ≡ L.name }
    requires parts { blank.parts ≡ L.parts }
    requires some { 0 < L.parts }
    ensures { GetEnds (is_up settings.now.backend)
        (on any_contents (F.device flash.now) (area_of settings.now.backend)) name.now result }
{
    let mut steps = Steps::<L>::new(blank);
    settings.get(flash, name, &mut steps)
}

pub fn save<F: Flash, L: Ledger>(
    settings: &mut Settings<AnyBackend>,
    flash: &mut F,
    registry: &Registry,
    subtree: Option<&Name>,
    blank: Blank,
) -> Saved
    requires lawful { IsLawfulFor (F.device flash.old).banks (area_of settings.old.backend) }
    requires stands { is_up settings.old.backend ≡ true
        → StandsOn area_of Stands (F.device flash.old) settings.old.backend }
    requires holds { AreLawful (value_limit (area_of settings.old.backend))
        (registered state registry.now) }
    requires name { blank.name ≡ L.name }
    requires parts { blank.parts ≡ L.parts }
    requires some { 0 < L.parts }

    ensures stands { is_up settings.new.backend ≡ true
        → StandsOn area_of Stands (F.device flash.new) settings.new.backend }
    ensures ends { Saves (F.device flash.old) (F.device flash.new) settings.old.backend
        settings.new.backend
        (exported (option_map (λ name. name.now) subtree.entry) (registered state registry.now))
        result }
{
    let mut steps = Steps::<L>::new(blank);
    settings.save(flash, registry, subtree, &mut steps)
}

pub fn load<F: Flash, L: Ledger>(
    alloc: Global,
    settings: &Settings<AnyBackend>,
    flash: &F,
    registry: &mut Registry,
    subtree: Option<&Name>,
    blank: Blank,
) -> Result<Loaded, LoadFault>
    requires lawful { IsLawfulFor (F.device flash.now).banks (area_of settings.now.backend) }
    requires stands { is_up settings.now.backend ≡ true
        → StandsOn area_of Stands (F.device flash.now) settings.now.backend }
    requires holds { AreLawful (value_limit (area_of settings.now.backend))
        (registered state registry.old) }
    requires name { blank.name ≡ L.name }
    requires parts { blank.parts ≡ L.parts }
    requires some { 0 < L.parts }

    ensures holds { AreLawful (value_limit (area_of settings.now.backend))
        (registered state registry.new) }
    ensures ends { Loads (F.device flash.now) settings.now.backend (registered state registry.old)
        (registered state registry.new) (option_map (λ name. name.now) subtree.entry) result }
{
    let mut steps = Steps::<L>::new(blank);
    settings.load(alloc, flash, registry, subtree, &mut Quiet, &mut steps)
}
