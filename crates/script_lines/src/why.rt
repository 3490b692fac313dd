// Why a line is refused.

/// Why a line is refused: the first of these that holds, in the order in which they stand.
#[derive(Clone, Copy, Debug, PartialEq, Eq)]
pub enum LineWhy {
    /// No line has its first word.
    Unknown,
    /// No line with this first word has this number of words.
    Words,
    /// A name or a label is not lawful.
    Name,
    /// There is no such kind of handler.
    Kind,
    /// Bytes are not an even number of hexadecimal digits, at least two, nor the `-` of a line that
    /// may have no bytes.
    Hex,
    /// A value has more bytes than the limit.
    Long,
    /// A number is not in decimal without a sign or leading zeros, or is too large.
    Number,
}

/// Why a line was not read.
#[derive(Clone, Copy, Debug, PartialEq, Eq)]
pub enum LineFault {
    /// It is refused.
    Refused(LineWhy),
    /// There was not enough memory.
    NoMemory,
}
