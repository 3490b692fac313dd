// Images on a bench.
ghost use Rattle.std.specs.Prelude.{◌≡◌, ℕ, true, Some, IfOk, slice_get};
ghost use Rattle.flash_map.specs.declared.area.Area.{Area as area};
ghost use Rattle.image_file.specs.Lawful.{IsImage};
ghost use Rattle.migrator.specs.Areas.{first_store, is_store_at};
ghost use Rattle.session.specs.OnMap.{limit_of};
ghost use Rattle.image_file.specs.Format.{image_on};
ghost use Rattle.image_jobs.specs.Inputs.{out_of};
ghost use Rattle.image_jobs.specs.Jobs.{WritesLeft, file_of};

use crate::jobs::Output;
use crate::outcome::OutFile;
use flash_map::FlashMap;
use flash_sim::{Bench, NoMemory};
use image_file::write_image;
use std::alloc::Global;

/// The most bytes of a value in an image of these areas.
pub fn longest_value(areas: &FlashMap) -> u32
    requires some { is_store_at areas.now (first_store areas.now) ≡ true }
    requires versions { (i j : ℕ) (a b : area) → slice_get areas.now i ≡ Some a
        → slice_get areas.now j ≡ Some b → a.version ≡ b.version }
    ensures { result ≡ limit_of areas.now }
{
    match areas.at(0) {
        Some(area) => area.value_limit(),
        None => unreachable!(),
    }
}

/// The file of the image that the bench holds, if it is to be written.
///
/// # Errors
/// `NoMemory`.
pub fn file_left<'a, B: Bench>(
    alloc: Global,
    output: &Output<'a>,
    areas: &FlashMap,
    bench: &B,
) -> Result<Option<OutFile<'a>>, NoMemory>
    requires { IsImage (image_on areas.now (B.device bench.now)) }
    ensures { IfOk result
        (λ file. WritesLeft (out_of output.now) (image_on areas.now (B.device bench.now))
        (file_of file)) }
{
    match *output {
        Output::Nowhere => Ok(None),
        Output::Into { name } => {
            let held = bench.snapshot(alloc)?;
            let bytes = write_image(alloc, bench.banks(), areas, held.as_slice())?;
            Ok(Some(OutFile { name, bytes }))
        }
    }
}
