// Reading records.
ghost use Rattle.std.specs.Prelude.{◌≡◌, ◌+◌, ◌-◌, ◌*◌, ◌%◌, ◌<◌, ◌≤◌, ◌^◌, ◌||◌, not, true, length, option_map, IsTrue, IfSome, Some, None, slice_index, nat_eq, if◌then◌else◌};
ghost use Rattle.std.specs.List.{starts_with};
ghost use Rattle.std.specs.Option.{ForSome};
ghost use Rattle.flash_map.specs.Units.{IsUnit, padded};
ghost use Rattle.fcb_ring.specs.SectorStates.{IsSector};
ghost use Rattle.fcb_ring.specs.Records.{body_len, field_width, has_record, checks_at, record_of, record_at, records_end, first_passing, passes, extent_of, is_alike, is_wanted, last_wanted};

use crc8_entry::{START, crc8};
use flash_map::padded;

/// A record that a sector holds, whether it checks or not. Places are bytes from the sector's
/// start.
#[derive(Clone, Copy, Debug, PartialEq, Eq)]
pub struct Record {
    /// Where its length field starts.
    pub offset: u32,
    /// Where its body starts.
    pub body: u32,
    /// The bytes of the body, without their padding.
    pub len: u32,
    /// Where the next record would start.
    pub end: u32,
    /// Whether its CRC matches the length field and the body.
    pub checks: bool,
}

/// A record that checks, in a sector of the area. Places are bytes from the sector's start.
#[derive(Clone, Copy, Debug, PartialEq, Eq)]
pub struct RecordAt {
    /// Which of the area's sectors, from 0.
    pub sector: u32,
    /// Where its length field starts.
    pub offset: u32,
    /// Where its body starts.
    pub body: u32,
    /// The bytes of the body, without their padding.
    pub len: u32,
}

// The length that a length field of these two bytes spells.
#[tactic(auto, unfolding(crate::specs::Records::body_len))]
fn body_len(first: u8, second: u8) -> u32
    ensures value { result ≡ body_len first second }
    ensures small { result < 2 ^ 15 }
{
    if first < 0x80 {
        u32::from(first)
    } else {
        u32::from(first % 0x80) + 0x80 * u32::from(second)
    }
}

// How many bytes a length field has, by its first byte.
#[tactic(auto, unfolding(crate::specs::Records::field_width))]
fn field_width(first: u8) -> usize
    ensures value { result ≡ field_width first }
    ensures at_most { result ≤ 2 }
{
    if first < 0x80 { 1 } else { 2 }
}

// Whether a record stands at a place: the sector does not end there, and the length field is not
// erased.
#[tactic(auto, unfolding(crate::specs::Records::has_record))]
pub(crate) fn has_record(sector: &[u8], at: usize) -> bool
    requires { at < length sector.now → at + 1 < length sector.now }
    ensures value { result ≡ has_record sector.now at }
    ensures within { IsTrue result → at < length sector.now }
{
    at < sector.len() && !(sector[at] == 0xFF && sector[at + 1] == 0xFF)
}

// The length of the body of the record at a place; `None` if the records end there. A length below
// 128 is the first byte alone.
#[tactic(auto, unfolding(crate::specs::Records::has_record, crate::specs::Records::body_len))]
fn len_at(sector: &[u8], at: usize) -> Option<u32>
    requires { at < length sector.now → at + 1 < length sector.now }
    ensures value { result
        ≡ (if has_record sector.now at then
        Some (body_len (slice_index sector.now at) (slice_index sector.now (at + 1))) else None) }
    ensures small { IfSome result (λ len. len < 2 ^ 15) }
{
    if at < sector.len() && sector[at] < 0x80 {
        return Some(u32::from(sector[at]));
    }
    if !has_record(sector, at) {
        return None;
    }
    Some(body_len(sector[at], sector[at + 1]))
}

// How far a record goes.
#[derive(Clone, Copy)]
pub(crate) struct Extent {
    // The bytes of the body, without their padding.
    len: u32,
    // Where the next record would start.
    end: u32,
}

// Where a record starts, and how far it goes.
#[derive(Clone, Copy)]
struct Reach {
    at: u32,
    extent: Extent,
}

// A length rounded up to the unit. A division by a constant is fast.
fn padded_len(unit: u32, len: u32) -> u32
    requires unit { IsUnit unit }
    requires len { len < 2 ^ 15 }
    ensures value { result ≡ padded unit len }
    ensures at_most { result ≤ len + 15 }
{
    if unit == 4 {
        return (len + 3) / 4 * 4;
    }
    if unit == 8 {
        return (len + 7) / 8 * 8;
    }
    (len + 15) / 16 * 16
}

// Whether the CRC at its place matches the length field and the body.
fn checks_at(sector: &[u8], at: usize, body: usize, len: usize, crc_at: usize) -> bool
    requires field { at + 2 ≤ length sector.now }
    requires body { body + len ≤ length sector.now }
    requires crc { crc_at < length sector.now }
    ensures { result ≡ checks_at sector.now at body len crc_at }
{
    let field = &sector[at..at + field_width(sector[at])];
    crc8(crc8(START, field), &sector[body..body + len]) == sector[crc_at]
}

// Whether a body begins with the prefix. Prefixes differ at their end, mostly in the byte before
// the last, so that byte is compared first, then the others from the last on.
fn begins_with(body: &[u8], prefix: &[u8]) -> bool
    ensures { result ≡ starts_with nat_eq body.now prefix.now }
{
    let count = prefix.len();
    if body.len() < count {
        return false;
    }
    if count >= 2 && body[count - 2] != prefix[count - 2] {
        return false;
    }
    let mut left = count;
    while left > 0 {
        left -= 1;
        if body[left] != prefix[left] {
            return false;
        }
    }
    true
}

// How far the record at a place goes; `None` if the records end there, or if it would pass the
// sector's end.
#[tactic(auto, unfolding(crate::specs::Records::record_at, crate::specs::Records::record_of))]
fn extent_at(sector: &[u8], unit: u32, at: u32) -> Option<Extent>
    requires unit { IsUnit unit }
    requires short { length sector.now ≤ 32768 }
    requires room { at < length sector.now → at + unit ≤ length sector.now }
    requires at { at ≤ length sector.now }
    ensures { result ≡ option_map extent_of (record_at unit sector.now at) }
{
    let len = len_at(sector, at as usize)?;
    let end = at + unit + padded_len(unit, len) + unit;
    if end as usize > sector.len() {
        return None;
    }
    Some(Extent { len, end })
}

// Whether the CRC of the record at a place matches.
fn checks(sector: &[u8], unit: u32, at: u32, extent: Extent) -> bool
    requires unit { IsUnit unit }
    requires short { length sector.now ≤ 32768 }
    requires extent { option_map extent_of (record_at unit sector.now at) ≡ Some extent }
    ensures { result ≡ (record_of unit sector.now at).checks }
{
    let crc_at = extent.end - unit;
    checks_at(
        sector,
        at as usize,
        (at + unit) as usize,
        extent.len as usize,
        crc_at as usize,
    )
}

// Whether a body begins with the prefix, and has at most so many bytes.
fn is_alike(body: &[u8], prefix: &[u8], most: usize) -> bool
    ensures { result ≡ is_alike prefix.now most body.now }
{
    begins_with(body, prefix) && body.len() <= most
}

// Whether the CRC of a record matches, if that is asked for.
fn counts(sector: &[u8], unit: u32, reach: Reach, checked: bool) -> bool
    requires unit { IsUnit unit }
    requires short { length sector.now ≤ 32768 }
    requires extent { option_map extent_of (record_at unit sector.now reach.at)
        ≡ Some reach.extent }
    ensures { result ≡ (not checked || (record_of unit sector.now reach.at).checks) }
{
    !checked || checks(sector, unit, reach.at, reach.extent)
}

// Whether the body of a record is alike, and its CRC matches if that is asked for. Most records have
// another prefix, so one costs its length and two bytes of its body.
fn is_wanted(
    sector: &[u8],
    unit: u32,
    reach: Reach,
    prefix: &[u8],
    most: usize,
    checked: bool,
) -> bool
    requires unit { IsUnit unit }
    requires short { length sector.now ≤ 32768 }
    requires extent { option_map extent_of (record_at unit sector.now reach.at)
        ≡ Some reach.extent }
    ensures { result
        ≡ is_wanted sector.now prefix.now most checked (record_of unit sector.now reach.at) }
{
    let body = (reach.at + unit) as usize;
    is_alike(
        &sector[body..body + reach.extent.len as usize],
        prefix,
        most,
    ) && counts(sector, unit, reach, checked)
}

// Where the last record of a sector stands whose body is alike, and whose CRC matches if that is
// asked for.
fn last_wanted(sector: &[u8], unit: u32, prefix: &[u8], most: usize, checked: bool) -> Option<u32>
    requires { IsSector unit sector.now }
    ensures last { option_map (record_of unit sector.now) result
        ≡ last_wanted unit sector.now prefix.now most checked }
    ensures reads { ForSome result
        (λ at. record_at unit sector.now at ≡ Some (record_of unit sector.now at)) }
{
    let mut found = None;
    let mut at = padded(unit, 8);
    while let Some(extent) = extent_at(sector, unit, at) {
        if is_wanted(sector, unit, Reach { at, extent }, prefix, most, checked) {
            found = Some(at);
        }
        at = extent.end;
    }
    found
}

/// The last record of a sector that checks, whose body begins with the prefix and has at most so
/// many bytes. It computes one CRC, and more only if that one does not match.
pub(crate) fn last_checked(sector: &[u8], unit: u32, prefix: &[u8], most: usize) -> Option<Record>
    requires { IsSector unit sector.now }
    ensures { result ≡ last_wanted unit sector.now prefix.now most true }
{
    let at = last_wanted(sector, unit, prefix, most, false)?;
    let last = record_at(sector, unit, at)?;
    if last.checks {
        return Some(last);
    }
    let earlier = last_wanted(sector, unit, prefix, most, true)?;
    record_at(sector, unit, earlier)
}

// Whether the record at a place checks, and its body begins with the prefix.
fn passes(sector: &[u8], unit: u32, at: u32, extent: Extent, prefix: &[u8]) -> bool
    requires unit { IsUnit unit }
    requires short { length sector.now ≤ 32768 }
    requires extent { option_map extent_of (record_at unit sector.now at) ≡ Some extent }
    ensures { result ≡ passes sector.now prefix.now (record_of unit sector.now at) }
{
    let body = (at + unit) as usize;
    begins_with(&sector[body..body + extent.len as usize], prefix)
        && checks(sector, unit, at, extent)
}

// The record at a place; `None` if the records end there, or if it would pass the sector's end.
pub(crate) fn record_at(sector: &[u8], unit: u32, at: u32) -> Option<Record>
    requires unit { IsUnit unit }
    requires short { length sector.now ≤ 32768 }
    requires room { at < length sector.now → at + unit ≤ length sector.now }
    requires at { at ≤ length sector.now }
    ensures value { result ≡ record_at unit sector.now at }
{
    let extent = extent_at(sector, unit, at)?;
    Some(Record {
        offset: at,
        body: at + unit,
        len: extent.len,
        end: extent.end,
        checks: checks(sector, unit, at, extent),
    })
}

// Where the records of a sector end.
pub(crate) fn records_end(sector: &[u8], unit: u32) -> u32
    requires { IsSector unit sector.now }
    ensures value { result ≡ records_end unit sector.now }
    ensures at_most { result ≤ length sector.now }
    ensures aligned { result % unit ≡ 0 }
{
    let mut end = padded(unit, 8);
    while let Some(record) = record_at(sector, unit, end) {
        end = record.end;
    }
    end
}

// The first record from a place on that checks and whose body begins with the prefix.
pub(crate) fn next_checked(sector: &[u8], unit: u32, from: u32, prefix: &[u8]) -> Option<Record>
    requires sector { IsSector unit sector.now }
    requires aligned { from % unit ≡ 0 }
    requires within { from ≤ length sector.now }
    ensures { result ≡ first_passing unit sector.now prefix.now from }
{
    let mut at = from;
    while let Some(extent) = extent_at(sector, unit, at) {
        if passes(sector, unit, at, extent, prefix) {
            return Some(Record {
                offset: at,
                body: at + unit,
                len: extent.len,
                end: extent.end,
                checks: true,
            });
        }
        at = extent.end;
    }
    None
}
