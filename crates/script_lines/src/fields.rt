// The words after the first one.
ghost use Rattle.std.specs.Prelude.{ℕ};
ghost use Rattle.script_lines.specs.Forms.{words_of, IsOneWord, AreTwoWords, ReadsField, ReadsNone, ReadsOne, ReadsTwo, ReadsNameOrNothing};
ghost use Rattle.script_lines.specs.Forms.Field.{a_name, a_label, a_kind, some_bytes, any_bytes, below};
ghost use Rattle.script_lines.specs.Forms.Said.{name, label, kind, bytes, number};

use crate::lists::{Bytes, Label, copied};
use crate::why::LineFault::{NoMemory, Refused};
use crate::why::{LineFault, LineWhy};
use handlers::HandlerKind;
use image_file::is_label;
use setting_name::Name;
use std::alloc::Global;
use text_parts::{cut_at, one_part, read_number};

/// Reads a word as a name.
///
/// # Errors
/// `Name` if it is none.
pub fn read_name(word: &[u8]) -> Result<Name, LineFault>
    ensures { (limit : ℕ) → ReadsField limit a_name name word.now result }
{
    Name::read(word).map_err(|_| Refused(LineWhy::Name))
}

/// Reads a word as the label of an area: 1 to 8 bytes of `a` to `z` and `0` to `9`.
///
/// # Errors
/// `Name` if it is none; `NoMemory`.
pub fn read_label(alloc: Global, word: &[u8]) -> Result<Label, LineFault>
    ensures { (limit : ℕ) → ReadsField limit a_label label word.now result }
{
    if !is_label(word) {
        return Err(Refused(LineWhy::Name));
    }
    copied(alloc, word).map_err(|_| NoMemory)
}

/// Reads a word as a kind of handler: `table`, `counter` or `level`.
///
/// # Errors
/// `Kind` if it is none of them.
pub fn read_kind(word: &[u8]) -> Result<HandlerKind, LineFault>
    ensures { (limit : ℕ) → ReadsField limit a_kind kind word.now result }
{
    if word == b"table".as_slice() {
        Ok(HandlerKind::Table)
    } else if word == b"counter".as_slice() {
        Ok(HandlerKind::Counter)
    } else if word == b"level".as_slice() {
        Ok(HandlerKind::Level)
    } else {
        Err(Refused(LineWhy::Kind))
    }
}

/// Reads a word as bytes in hexadecimal digits of either case: at least one byte, and
/// at most `limit`.
///
/// # Errors
/// `Hex` if the word is no such digits; `Long` if it has more bytes; `NoMemory`.
pub fn read_bytes(alloc: Global, word: &[u8], limit: usize) -> Result<Bytes, LineFault>
    ensures { ReadsField limit some_bytes bytes word.now result }
{
    match hex::decode(alloc, word) {
        Ok(value) => {
            if value.is_empty() {
                Err(Refused(LineWhy::Hex))
            } else if value.len() > limit {
                Err(Refused(LineWhy::Long))
            } else {
                Ok(Bytes::from_vec(value))
            }
        }
        Err(hex::FromHexError::OutOfMemory) => Err(NoMemory),
        Err(_) => Err(Refused(LineWhy::Hex)),
    }
}

/// Reads a word as `read_bytes` does, or `-` as no bytes.
///
/// # Errors
/// Those of `read_bytes`.
pub fn read_bytes_or_dash(alloc: Global, word: &[u8], limit: usize) -> Result<Bytes, LineFault>
    ensures { ReadsField limit any_bytes bytes word.now result }
{
    if word == b"-".as_slice() {
        Ok(Bytes::new(alloc))
    } else {
        read_bytes(alloc, word, limit)
    }
}

/// Reads a word as a number below `end`, in decimal without a sign or leading zeros.
///
/// # Errors
/// `Number` if it is none.
pub fn read_number_below(word: &[u8], end: u64) -> Result<u64, LineFault>
    ensures { (limit : ℕ) → ReadsField limit (below end) number word.now result }
{
    match read_number(word, end) {
        Some(found) => Ok(found),
        None => Err(Refused(LineWhy::Number)),
    }
}

/// Checks that no word is left of a line.
///
/// # Errors
/// `Words` if one is left.
pub fn nothing(rest: Option<&[u8]>) -> Result<(), LineFault>
    ensures { (limit : ℕ) → ReadsNone limit rest.entry result }
{
    match rest {
        None => Ok(()),
        Some(_) => Err(Refused(LineWhy::Words)),
    }
}

/// The one word that is left of a line.
///
/// # Errors
/// `Words` if not exactly one word is left.
pub fn one_word(rest: Option<&[u8]>) -> Result<&[u8], LineFault>
    ensures { IsOneWord (words_of rest.entry) result }
{
    match one_part(rest, b' ') {
        Some(word) => Ok(word),
        None => Err(Refused(LineWhy::Words)),
    }
}

/// The two words that are left of a line.
///
/// # Errors
/// `Words` if not exactly two words are left.
pub fn two_words(rest: Option<&[u8]>) -> Result<(&[u8], &[u8]), LineFault>
    ensures { AreTwoWords (words_of rest.entry) result }
{
    let Some(text) = rest else {
        return Err(Refused(LineWhy::Words));
    };
    let (first, rest) = cut_at(text, b' ');
    match one_part(rest, b' ') {
        Some(second) => Ok((first, second)),
        None => Err(Refused(LineWhy::Words)),
    }
}

/// The one name that is left of a line.
///
/// # Errors
/// The first cause, in the order of `LineWhy`, for which it is not.
pub fn name_alone(rest: Option<&[u8]>) -> Result<Name, LineFault>
    ensures { (limit : ℕ) → ReadsOne limit a_name name rest.entry result }
{
    read_name(one_word(rest)?)
}

/// The name and the kind that are left of a line.
///
/// # Errors
/// The first cause, in the order of `LineWhy`, for which they are not.
pub fn name_and_kind(rest: Option<&[u8]>) -> Result<(Name, HandlerKind), LineFault>
    ensures { (limit : ℕ) → ReadsTwo limit a_name a_kind name kind rest.entry result }
{
    let (first, second) = two_words(rest)?;
    let subtree = read_name(first)?;
    let kind = read_kind(second)?;
    Ok((subtree, kind))
}

/// The name and the bytes that are left of a line, at most `limit` bytes.
///
/// # Errors
/// The first cause, in the order of `LineWhy`, for which they are not. `NoMemory`.
pub fn name_and_bytes(
    alloc: Global,
    rest: Option<&[u8]>,
    limit: usize,
) -> Result<(Name, Bytes), LineFault>
    ensures { ReadsTwo limit a_name some_bytes name bytes rest.entry result }
{
    let (first, second) = two_words(rest)?;
    let name = read_name(first)?;
    let value = read_bytes(alloc, second, limit)?;
    Ok((name, value))
}

/// The name and the bytes, or `-` for none, that are left of a line, at most `limit` bytes.
///
/// # Errors
/// The first cause, in the order of `LineWhy`, for which they are not. `NoMemory`.
pub fn name_and_bytes_or_dash(
    alloc: Global,
    rest: Option<&[u8]>,
    limit: usize,
) -> Result<(Name, Bytes), LineFault>
    ensures { ReadsTwo limit a_name any_bytes name bytes rest.entry result }
{
    let (first, second) = two_words(rest)?;
    let name = read_name(first)?;
    let value = read_bytes_or_dash(alloc, second, limit)?;
    Ok((name, value))
}

/// The one number below `end` that is left of a line.
///
/// # Errors
/// The first cause, in the order of `LineWhy`, for which it is not.
pub fn number_alone(rest: Option<&[u8]>, end: u64) -> Result<u64, LineFault>
    ensures { (limit : ℕ) → ReadsOne limit (below end) number rest.entry result }
{
    read_number_below(one_word(rest)?, end)
}

/// The one name that is left of a line; `None` if no word is left.
///
/// # Errors
/// The first cause, in the order of `LineWhy`, for which it is neither.
pub fn name_or_nothing(rest: Option<&[u8]>) -> Result<Option<Name>, LineFault>
    ensures { (limit : ℕ) → ReadsNameOrNothing limit (words_of rest.entry) result }
{
    match rest {
        None => Ok(None),
        Some(_) => {
            let name = name_alone(rest)?;
            Ok(Some(name))
        }
    }
}
