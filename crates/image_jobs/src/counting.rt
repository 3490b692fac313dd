// The settings of the image that a bench holds.
ghost use Rattle.std.specs.Prelude.{◌≡◌, List, IfOk};
ghost use Rattle.flash_sim.specs.Device.{Device, loaded_once};
ghost use Rattle.flash_sim.specs.Sim.{device_of};
ghost use Rattle.flash_map.specs.declared.area.Area.{Area as area};
ghost use Rattle.image_file.specs.Lawful.{IsImage};
ghost use Rattle.session.specs.OnMap.{IsServedMap};
ghost use Rattle.image_file.specs.Format.{image_on};
ghost use Rattle.image_jobs.specs.Images.{settings_of};
ghost use Rattle.image_jobs.specs.Jobs.{SaysDamage};
ghost use Rattle.image_jobs.specs.Reading.{MakesOr};
ghost use Rattle.image_jobs.specs.Stages.{stores};
ghost use Rattle.image_jobs.specs.Texts.{last_pairs, pairs_of};

use crate::carrying::{run, stop_of};
use crate::inputs::asks_names;
use crate::stops::Stop;
use backend_api::Backend;
use flash_map::FlashMap;
use flash_sim::{Bench, NoMemory, SparseSim};
use handlers::{Handler, Registry};
use session::Answers;
use std::alloc::Global;
use std::marker::Brand;
use std::sync::ledger::Blank;

// A flash of its own with the banks and bytes of a bench. Its power is on, and it loses none.
fn copy_of<B: Bench>(alloc: Global, bench: &B) -> Result<SparseSim, NoMemory>
    ensures { IfOk result (λ copy. device_of copy ≡ loaded_once (B.device bench.now)) }
{
    let bytes = bench.snapshot(alloc)?;
    let banks = Vec::from_slice(alloc, bench.banks())?;
    let mut copy = SparseSim::new(alloc);
    copy.load(alloc, banks, bytes)?;
    Ok(copy)
}

/// Asks a copy of the image for its names, whether the bench has power or not. The settings that
/// the image reads as are in the last answer. The bench stays as it is.
///
/// # Errors
/// `Refused` with the damage that a mount of the image finds; `NoMemory`.
pub fn names_left<'a, K: Backend, B: Bench>(
    alloc: Global,
    areas: &FlashMap,
    bench: &B,
) -> Result<Answers, Stop<'a>>
    requires serves { (areas : List area) (d : Device) → IsImage (image_on areas d)
        → IsServedMap K.serves areas d }
    requires image { IsImage (image_on areas.now (B.device bench.now)) }
    ensures { let k =
        stores K.contents K.room K.chance K.tears K.damage K.rests K.owes K.boot_units in
        let image = image_on areas.now (B.device bench.now) in
        MakesOr (λ answers. last_pairs answers ≡ pairs_of (settings_of k areas.now image))
        (SaysDamage k areas.now image) result }
{
    let mut copy = copy_of::<B>(alloc, bench)?;
    let lines = asks_names(alloc)?;
    let pool: Vec<Box<dyn Handler>> = Vec::new(alloc);
    let mut registry = Registry::new(alloc);
    let ran = run::<K, SparseSim, Brand>(
        alloc,
        areas,
        lines.as_slice(),
        &mut copy,
        pool,
        &mut registry,
        Blank::new(1),
    );
    match ran {
        Ok(answers) => Ok(answers),
        Err(fault) => Err(stop_of(areas, fault)),
    }
}
