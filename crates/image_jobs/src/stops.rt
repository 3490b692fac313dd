// Why a command was not done.
ghost use Rattle.std.specs.Prelude.{◌≡◌};
ghost use Rattle.image_jobs.specs.declared.stops.Stop.TheVariants as stops;

use arrayvec::ArrayString;
use flash_map::Damaged;
use flash_sim::NoMemory;
use image_file::ImageWhy;
use script_lines::LineWhy;

/// What is wrong with the words of a command, or with the files that they name.
#[derive(Clone, Copy, Debug, PartialEq, Eq)]
pub enum Refusal<'a> {
    /// The word of a blank image is not lawful.
    BadSpec,
    /// There is no file of this name.
    NoFile {
        word: &'a str,
    },
    /// The file is no image: the offset, in bytes, of its first departure from the
    /// format, and its kind.
    BadFile {
        at: u64,
        why: ImageWhy,
    },
    /// The image does not consist of exactly one area, of FCB.
    NoLog,
    /// The image does not consist of exactly one area, of NVS or ZMS.
    NoItems,
    /// The image does not consist of exactly two store areas, each of NVS or ZMS, and
    /// their selector.
    NoMirror,
    /// A mount found the area with this label damaged.
    BadArea {
        label: ArrayString<8>,
        damage: Damaged,
    },
    /// The settings of a mirror do not fit the area with this label.
    Unfit {
        label: ArrayString<8>,
    },
    /// The number of the first refused line of the script, counted from 1, and its cause; 0 if the
    /// file is too long.
    BadScript {
        line: u64,
        why: LineWhy,
    },
}

/// Why a command stopped before its end.
#[derive(Clone, Copy, Debug, PartialEq, Eq)]
pub enum Stop<'a> {
    /// The command is refused, and the line of the refusal is printed.
    Refused(Refusal<'a>),
    /// Reading a file failed.
    HostFailed,
    /// There was not enough memory.
    NoMemory,
}

impl From<NoMemory> for Stop<'_> {
    ghost from_gives = { λ _ result. result ≡ stops.NoMemory };

    fn from(_: NoMemory) -> Self {
        Stop::NoMemory
    }
}
