// A name as the bytes of its text.
ghost use Rattle.std.specs.Prelude.{⊤, ◌≡◌, ◌≢◌, ◌↔◌, ℕ, List, ◌+◌, ◌<◌, ◌≤◌, ◌∷◌, ◌++◌, length, IsOk, IsOkUnless, IfOk, IfSome, OnOk, MatchOption, MatchResult, Some, refl};
ghost use Rattle.std.specs.Option.{option_copied};
ghost use Rattle.std.specs.Ordering.{nat_cmp};
ghost use Rattle.std.specs.Str.{bytes_eq};
ghost use Rattle.std.specs.Cmp.{partial_equiv_from_equiv};
ghost use Rattle.std.specs.Cmp.Lexicographic.{slice_cmp, nat_list_eq_equiv, nat_list_cmp_total, texts_po, texts_ties};
ghost use Rattle.setting_name.specs.declared.name.NameFault.TheVariants.{TooLong};
ghost use Rattle.setting_name.specs.Name.{is_name_byte, name_limit, HasNameBytes, HasWholeParts, parts_of};
ghost use Rattle.setting_name.specs.NameFault.{IsFault, IsFirstLack, first_bad_byte};
ghost use Rattle.setting_name.specs.Match.{rest_behind};

use arrayvec::ArrayVec;
use std::alloc::AllocError;
use std::cmp::Ordering;
use std::marker::Model;

/// The most bytes of a name.
pub const NAME_LIMIT: usize = 64;

// The most parts of a name.
const MAX_PARTS: usize = 8;

const SLASH: u8 = b'/';

/// Why a text is no name. The causes are tried in this order.
#[derive(Clone, Copy, Debug, PartialEq, Eq)]
pub enum NameFault {
    /// The text has no byte.
    Empty,
    /// The text has more than 64 bytes.
    TooLong,
    /// The place of the first byte, counted from 0, that is a `=` or outside 0x21 to 0x7E.
    BadByte(u32),
    /// The first place where a part should begin and does not.
    EmptyPart(u32),
    /// The text has more than 8 parts.
    TooDeep,
}

/// A name of a setting or of a subtree: 1 to 64 bytes, with a slash between each two of its 1 to 8
/// parts.
#[derive(Debug, Drop)]
pub struct Name {
    text: ArrayVec<u8, NAME_LIMIT>,
}

impl Model for Name {
    ghost use Rattle.std.specs.Prelude.{ℕ, List};
    ghost use Rattle.setting_name.specs.Name.{IsName};

    ghost Value = { List ℕ };

    ghost view = { λ name. name.text.items };

    ghost invariant = { λ name. IsName name.text.items };

    ghost inverse = { λ bytes. record { text = record { items = bytes } } };
}

impl Name {
    ghost use Rattle.setting_name.specs.Name.{IsName};
    ghost use Rattle.setting_name.specs.NameFault.{Reads};
    ghost use Rattle.setting_name.specs.Match.{matched_rest, joined_text};

    /// The name that the bytes spell.
    ///
    /// # Errors
    /// The first cause of `NameFault` that holds.
    pub fn read(bytes: &[u8]) -> Result<Name, NameFault>
        ensures reads { Reads bytes.now result }
        ensures names { IsOk result ↔ IsName bytes.now }
    {
        let mut text = ArrayVec::new();
        append(&mut text, bytes)?;
        Name::from_text(text)
    }

    /// The subtree, a slash and the rest; the subtree itself if the rest is empty.
    ///
    /// # Errors
    /// Those of `read` for this text.
    pub fn join(subtree: &Name, rest: &[u8]) -> Result<Name, NameFault>
        ensures reads { Reads (joined_text subtree.now rest.now) result }
        ensures names { IsOk result ↔ IsName (joined_text subtree.now rest.now) }
        ensures matches { IfOk result (λ name. matched_rest name subtree.now ≡ Some rest.now) }
    {
        if rest.is_empty() {
            return Ok(subtree.copy());
        }
        Name::from_text(with_slash(subtree.bytes(), rest)?)
    }

    /// The rest of the name behind the parts of the key, if these are its first parts; `None` if
    /// they are not.
    pub fn matches<'a>(name: &'a Name, key: &Name) -> Option<&'a [u8]>
        ensures rest { option_copied result ≡ matched_rest name.now key.now }
        ensures join { IfSome result (λ rest. name.now ≡ joined_text key.now rest.now) }
    {
        let left = left_behind(name.bytes(), key.bytes())?;
        behind_slash(left)
    }

    /// The text: 1 to 64 bytes.
    pub fn bytes(&self) -> &[u8]
        ensures value { result.now ≡ self.now }
        ensures name { IsName self.now }
    {
        self.text.as_slice()
    }

    /// A copy of the name.
    pub fn copy(&self) -> Name
        ensures value { result ≡ self.now }
        ensures name { IsName self.now }
    {
        let mut text = ArrayVec::new();
        let _fits = text.try_extend_from_slice(self.text.as_slice());
        Name { text }
    }

    fn from_text(text: ArrayVec<u8, NAME_LIMIT>) -> Result<Name, NameFault>
        ensures { Reads text.items result }
    {
        let bytes = text.as_slice();
        if bytes.is_empty() {
            return Err(NameFault::Empty);
        }
        if let Some(place) = first_unlawful(bytes) {
            return Err(NameFault::BadByte(place as u32));
        }
        if let Some(place) = first_lack(bytes) {
            return Err(NameFault::EmptyPart(place as u32));
        }
        if count_of_parts(bytes) > MAX_PARTS {
            return Err(NameFault::TooDeep);
        }
        Ok(Name { text })
    }
}

// Puts the bytes behind the text, if they fit.
fn append(text: &mut ArrayVec<u8, NAME_LIMIT>, bytes: &[u8]) -> Result<(), NameFault>
    ensures fits { IsOk result ↔ (length text.old.items + length bytes.now ≤ name_limit) }
    ensures ok { OnOk result (text.new.items ≡ text.old.items ++ bytes.now) }
    ensures fault { IsOkUnless result TooLong }
{
    text.try_extend_from_slice(bytes)
        .map_err(|_| NameFault::TooLong)
}

// The subtree, a slash and the rest, if they fit.
fn with_slash(subtree: &[u8], rest: &[u8]) -> Result<ArrayVec<u8, NAME_LIMIT>, NameFault>
    ensures { MatchResult result (λ text. text.items ≡ subtree.now ++ 0x2F ∷ rest.now)
        (IsFault (subtree.now ++ 0x2F ∷ rest.now)) }
{
    let mut text = ArrayVec::new();
    append(&mut text, subtree)?;
    append(&mut text, b"/")?;
    append(&mut text, rest)?;
    Ok(text)
}

// Whether a name may have the byte.
fn is_lawful(byte: u8) -> bool
    ensures { result ≡ is_name_byte byte }
{
    byte.is_ascii_graphic() && byte != b'='
}

fn first_unlawful(text: &[u8]) -> Option<usize>
    ensures place { result ≡ first_bad_byte text.now }
    ensures within { MatchOption result (HasNameBytes text.now) (λ place. place < length text.now) }
{
    text.iter().position(|byte| !is_lawful(*byte))
}

// The first place where a part should begin and does not.
fn first_lack(text: &[u8]) -> Option<usize>
    ensures { MatchOption result (HasWholeParts text.now)
        (λ place. (place ≤ length text.now) × IsFirstLack text.now place) }
{
    let mut due = true;
    for (place, byte) in text.iter().enumerate() {
        let ends = *byte == SLASH;
        if due && ends {
            return Some(place);
        }
        due = ends;
    }
    if due { Some(text.len()) } else { None }
}

// What is left of a text behind the prefix, if it begins with that.
fn left_behind<'a>(text: &'a [u8], prefix: &[u8]) -> Option<&'a [u8]>
    ensures { MatchOption result ((left : List ℕ) → text.now ≢ prefix.now ++ left)
        (λ left. text.now ≡ prefix.now ++ left.now) }
{
    text.strip_prefix(prefix)
}

// What follows a leading slash; of no bytes, nothing.
fn behind_slash(left: &[u8]) -> Option<&[u8]>
    ensures { option_copied result ≡ rest_behind left.now }
{
    match left.split_first() {
        None => Some(left),
        Some((first, rest)) if *first == SLASH => Some(rest),
        Some(_) => None,
    }
}

/// How many parts a text has: one more than it has slashes.
pub fn count_of_parts(text: &[u8]) -> usize
    ensures { result ≡ length (parts_of text.now) }
{
    text.iter().filter(|byte| **byte == SLASH).count() + 1
}

impl Clone for Name {
    ghost is_clone = { λ name same. same ≡ name };

    ghost is_infallible = { λ _. ⊤ };

    fn clone(&self) -> Result<Name, AllocError> {
        Ok(self.copy())
    }
}

impl PartialEq for Name {
    ghost eq = { bytes_eq };

    ghost laws = { partial_equiv_from_equiv nat_list_eq_equiv };

    fn eq(&self, other: &Name) -> bool {
        self.bytes() == other.bytes()
    }
}

impl Eq for Name {
    ghost laws = { nat_list_eq_equiv };
}

// Names are in the order of their bytes.
impl PartialOrd for Name {
    ghost partial_cmp = { λ name other. Some (slice_cmp nat_cmp name other) };

    ghost laws = { texts_po };

    fn partial_cmp(&self, other: &Name) -> Option<Ordering> {
        Some(self.cmp(other))
    }
}

impl Ord for Name {
    ghost cmp = { slice_cmp nat_cmp };

    ghost total = { nat_list_cmp_total };

    ghost matches_partial_cmp = { λ name other. refl };

    ghost matches_eq = { texts_ties };

    fn cmp(&self, other: &Name) -> Ordering {
        self.bytes().cmp(other.bytes())
    }
}
