// What a command prints and writes.

/// A file to be written.
#[derive(Drop)]
pub struct OutFile<'a> {
    /// The name of the file.
    pub name: &'a str,
    /// All its bytes.
    pub bytes: Vec<u8>,
}

/// A text to be printed, and then a file to be written, if there is one.
#[derive(Drop)]
pub struct Outcome<'a> {
    /// What is printed.
    pub text: Vec<u8>,
    /// The file that is written then.
    pub file: Option<OutFile<'a>>,
}
