// Jobs: their images, lines and outputs.
use command_words::StoreKind;

/// The image that a job begins with.
#[derive(Clone, Copy)]
pub enum Start<'a> {
    /// The image in a file.
    File { name: &'a str },
    /// A blank image with one store of this kind, four sectors of 4,096 bytes.
    Blank { store: StoreKind },
}

/// The lines of a job.
#[derive(Clone, Copy)]
pub enum Source<'a> {
    /// The lines of a script in a file.
    Script { name: &'a str },
    /// `names` alone.
    Names,
    /// `mount` and `migrate`.
    Migration,
    /// The generated script of `n` lines.
    Generated { n: u32 },
}

/// What is printed of the answers.
#[derive(Clone, Copy)]
pub enum Report {
    /// The texts of all answers.
    All,
    /// The text of the last answer.
    Last,
    /// The summary of a generated script of `n` lines, which counts the settings that are left.
    Summary { store: StoreKind, n: u32 },
}

/// What becomes of the image that is left.
#[derive(Clone, Copy)]
pub enum Output<'a> {
    /// The image is dropped.
    Nowhere,
    /// The image is written into the file of this name.
    Into { name: &'a str },
}

/// A job: an image, lines that are carried out on it, what is printed of their answers, and what
/// becomes of the image.
#[derive(Clone, Copy)]
pub struct Job<'a> {
    /// The image that it begins with.
    pub start: Start<'a>,
    /// The lines that are carried out.
    pub source: Source<'a>,
    /// What is printed of the answers.
    pub report: Report,
    /// What becomes of the image that is left.
    pub output: Output<'a>,
}
