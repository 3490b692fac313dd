// How the program ends.

/// How the program ends.
#[derive(Clone, Copy, Debug, PartialEq, Eq)]
pub enum Status {
    /// The command was done.
    Done,
    /// The words are no command, or the word of a blank image is not lawful.
    Usage,
    /// A line of the script is refused, or the script is too long.
    BadScript,
    /// The file is no image, or not one that the command serves; or an area is damaged, or settings
    /// do not fit it.
    BadImage,
    /// Reading, writing or printing failed.
    HostFault,
    /// There was not enough memory.
    NoMemory,
    /// A file to be read does not exist.
    NoFile,
}
