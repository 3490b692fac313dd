// Blank images.
ghost use Rattle.image_jobs.specs.Inputs.{LacksSpec};
ghost use Rattle.image_jobs.specs.Jobs.{Builds, file_of};
ghost use Rattle.image_jobs.specs.Reading.{MakesOr};

use crate::inputs::blank_image;
use crate::outcome::{OutFile, Outcome};
use crate::stops::Stop;
use image_file::write_image;
use std::alloc::Global;

/// Makes the blank image that the word SPEC describes, to be written into OUT. It prints nothing.
///
/// # Errors
/// `Refused` if the word is not lawful; `NoMemory`.
pub fn build<'a>(alloc: Global, out: &'a str, spec: &'a str) -> Result<Outcome<'a>, Stop<'a>>
    ensures { MakesOr (λ outcome. Builds out.now spec.now outcome.text.items (file_of outcome.file))
        (LacksSpec spec.now) result }
{
    let image = match blank_image(alloc, spec) {
        Ok(image) => image,
        Err(stop) => return Err(stop),
    };
    let bytes = write_image(
        alloc,
        image.banks.as_slice(),
        &image.map,
        image.bytes.as_slice(),
    )?;
    Ok(Outcome {
        text: Vec::new(alloc),
        file: Some(OutFile { name: out, bytes }),
    })
}
