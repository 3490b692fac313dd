//! The commands of the program.

/// The most lines of a generated script.
pub const MOST_LINES: u32 = 10_000;

/// The kind of store of a generated image.
#[derive(Clone, Copy)]
pub enum StoreKind {
    /// Settings in an NVS area; its word is `nvs`.
    Nvs,
    /// Settings in a ZMS area; its word is `zms`.
    Zms,
    /// Settings in an FCB area; its word is `fcb`.
    Fcb,
}

/// A command of `image_tool`, with its operands as written. No operand is empty or begins with `-`.
#[derive(Clone, Copy)]
pub enum Command<'a> {
    /// Writes the blank image of the specification `spec` into the file `out`.
    Build {
        out: &'a str,
        spec: &'a str,
    },
    /// Runs the script in the file `script` on the image in the file `image`, and writes the image
    /// into `out`.
    Run {
        image: &'a str,
        script: &'a str,
        out: &'a str,
    },
    /// Prints what the image in the file `image` holds.
    Dump {
        image: &'a str,
    },
    /// Moves the settings of the image in the file `image` to its next store area, and writes the
    /// image into `out`.
    Migrate {
        image: &'a str,
        out: &'a str,
    },
    /// Runs a generated script of `n` lines, 1 to [`MOST_LINES`], on a blank image with one store
    /// of the kind `backend`, and writes the image into `out`.
    Gen {
        out: &'a str,
        backend: StoreKind,
        n: u32,
    },
    /// Runs the script in the file `script` on the application log of the image in the file
    /// `image`, and writes the image into `out`.
    Log {
        image: &'a str,
        script: &'a str,
        out: &'a str,
    },
    /// Runs the script in the file `script` on the numbered items of the image in the file `image`,
    /// and writes the image into `out`.
    Items {
        image: &'a str,
        script: &'a str,
        out: &'a str,
    },
    /// Runs the script in the file `script` on the two store areas of the image in the file
    /// `image`, which hold one map of settings between them, and writes the image into `out`.
    Mirror {
        image: &'a str,
        script: &'a str,
        out: &'a str,
    },
}
