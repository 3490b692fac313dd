// Images, and why bytes or a word describe none.
ghost use Rattle.std.specs.Prelude.{◌≡◌};
ghost use Rattle.image_file.specs.declared.image.ImageFault.TheVariants.{NoMemory};
ghost use Rattle.image_file.specs.declared.image.SpecFault.TheVariants.{NoMemory as OutOfMemory};

use flash_map::FlashMap;
use flash_sim::Bank;
use std::alloc::{AllocError, AllocFailed};
use thiserror::Error;

/// Banks, the areas on them, and the bytes of each bank.
#[derive(Drop)]
pub struct Image {
    /// The banks in order.
    pub banks: Vec<Bank>,
    /// The areas on the banks.
    pub map: FlashMap,
    /// The bytes of each bank.
    pub bytes: Vec<Vec<u8>>,
}

/// How a file departs from the format.
#[derive(Clone, Copy, Debug, PartialEq, Eq)]
pub enum ImageWhy {
    /// The first four bytes are not `ZSIM`.
    BadMagic,
    /// The version is not 1 or 2, or the eighth byte is not 0.
    BadVersion,
    /// The number of banks is not 1 or 2, or a field is no lawful bank.
    BadBank,
    /// The number of areas is not 1 to 8, a field is no area that may stand beside those before it,
    /// or the areas are not those that an image needs.
    BadArea,
    /// The file ends inside a field or inside a bank's bytes.
    Short,
    /// Bytes follow those of the last bank.
    Long,
}

/// Why no image was read from bytes.
#[derive(Clone, Copy, Debug, PartialEq, Eq, Error)]
pub enum ImageFault {
    /// The bytes are no image's file: `at` is the first byte that departs from the format, counted
    /// from 0, and `why` says how.
    #[error("no image file: byte {at} departs from the format")]
    Bad { at: u64, why: ImageWhy },
    /// Memory ran out; nothing is said of the bytes.
    #[error("out of memory")]
    NoMemory,
}

impl From<AllocError> for ImageFault {
    ghost from_gives = { λ _ fault. fault ≡ NoMemory };

    fn from(_: AllocError) -> Self {
        ImageFault::NoMemory
    }
}

impl<T: Drop> From<AllocFailed<T>> for ImageFault {
    ghost from_gives = { λ _ fault. fault ≡ NoMemory };

    fn from(_: AllocFailed<T>) -> Self {
        ImageFault::NoMemory
    }
}

impl From<flash_sim::NoMemory> for ImageFault {
    ghost from_gives = { λ _ fault. fault ≡ NoMemory };

    fn from(_: flash_sim::NoMemory) -> Self {
        ImageFault::NoMemory
    }
}

/// Why no image was made of a word.
#[derive(Clone, Copy, Debug, PartialEq, Eq, Error)]
pub enum SpecFault {
    /// The first item that may not be added to those before it, counted from 1. If an area that an
    /// image needs is missing, it is the number of items plus 1.
    #[error("item {item} is refused")]
    BadSpec { item: u32 },
    /// Memory ran out; nothing is said of the word.
    #[error("out of memory")]
    NoMemory,
}

impl From<AllocError> for SpecFault {
    ghost from_gives = { λ _ fault. fault ≡ OutOfMemory };

    fn from(_: AllocError) -> Self {
        SpecFault::NoMemory
    }
}

impl<T: Drop> From<AllocFailed<T>> for SpecFault {
    ghost from_gives = { λ _ fault. fault ≡ OutOfMemory };

    fn from(_: AllocFailed<T>) -> Self {
        SpecFault::NoMemory
    }
}

impl From<flash_sim::NoMemory> for SpecFault {
    ghost from_gives = { λ _ fault. fault ≡ OutOfMemory };

    fn from(_: flash_sim::NoMemory) -> Self {
        SpecFault::NoMemory
    }
}
