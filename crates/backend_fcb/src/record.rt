// The bodies of records.
ghost use Rattle.std.specs.Prelude.{◌≡◌, ◌+◌, take, ◌==◌, ◌<◌, ◌≤◌, length, position, option_map, IfSome, []};
ghost use Rattle.flash_sim.specs.declared.flash.TheConstants.{PROGRAM_LIMIT};
ghost use Rattle.flash_map.specs.Area.{value_limit};
ghost use Rattle.flash_map.specs.Units.{IsUnit};
ghost use Rattle.flash_map.specs.declared.area.TheConstants.{LONG_VALUE_LIMIT};
ghost use Rattle.setting_name.specs.Name.{IsName};
ghost use Rattle.record_settings.specs.Room.{reserve, cap, put_cost};
ghost use Rattle.record_settings.specs.Settings.{setting_of, body_of};
ghost use Rattle.backend_fcb.specs.Parts.{if_named};
ghost use Rattle.backend_fcb.specs.declared.record.TheConstants.{BODY};

use arrayvec::ArrayVec;
use fcb_ring::{Ring, record_cost};
use flash_map::{Geometry, LONG_VALUE_LIMIT, padded};
use setting_name::{NAME_LIMIT, Name};

/// The most bytes of a name and `=`: 64 and 1.
const START: usize = 65;

/// The most bytes of a body: 64 of a name, 1 of `=`, and 2,048 of a value.
pub(crate) const BODY: usize = 2113;

/// The room for most bodies: a larger array takes an instruction a byte to clear.
pub(crate) const SHORT_BODY: usize = 256;

// What a record says: the name has the value. No bytes are a delete.
#[derive(Clone, Copy)]
pub(crate) struct Setting<'a> {
    pub(crate) name: &'a [u8],
    pub(crate) value: &'a [u8],
}

// Where the first `=` of a body stands.
fn first_equals(body: &[u8]) -> Option<usize>
    ensures place { result ≡ position (λ byte. byte == 0x3D) body.now }
    ensures within { IfSome result (λ place. place < length body.now) }
{
    body.iter().position(|byte| *byte == b'=')
}

// The most bytes of a value in the ring's area.
pub(crate) fn value_limit(ring: &Ring) -> usize
    ensures { result ≡ value_limit ring.now.area }
{
    ring.area().value_limit() as usize
}

// The bytes before the first `=` of a body, which may be no name, and those behind it; `None` if
// there is no `=`, or if the value is too long for the ring's area.
pub(crate) fn parts_of<'a>(ring: &Ring, body: &'a [u8]) -> Option<Setting<'a>>
    ensures { setting_of (value_limit ring.now.area) body.now
        ≡ if_named (option_map (λ parts. (parts.name.now, parts.value.now)) result) }
{
    let limit = value_limit(ring);
    let end = first_equals(body)?;
    let name = &body[..end];
    let value = &body[end + 1..];
    if value.len() > limit {
        return None;
    }
    Some(Setting { name, value })
}

// What a body says in the ring's area, if it is a lawful name, `=` and a value.
pub(crate) fn setting_in<'a>(ring: &Ring, body: &'a [u8]) -> Option<Setting<'a>>
    ensures { option_map (λ setting. (setting.name.now, setting.value.now)) result
        ≡ setting_of (value_limit ring.now.area) body.now }
{
    let parts = parts_of(ring, body)?;
    if Name::read(parts.name).is_err() {
        return None;
    }
    Some(parts)
}

// The name and `=`, with which each record of the name begins.
pub(crate) fn start_of(name: &Name) -> ArrayVec<u8, START>
    ensures items { result.items ≡ body_of name.now [] }
    ensures name { IsName name.now }
{
    let mut start = ArrayVec::new();
    let _name_fits = start.try_extend_from_slice(name.bytes());
    start.push(b'=');
    start
}

// How many bytes the body of this setting has.
pub(crate) fn body_len(name: &Name, value: &[u8]) -> usize
    requires { length value.now ≤ LONG_VALUE_LIMIT }
    ensures len { result ≡ length name.now + 1 + length value.now }
    ensures most { result ≤ BODY }
{
    name.bytes().len() + 1 + value.len()
}

// Writes the name, `=` and the value to the start of a buffer. Returns how many bytes these are.
pub(crate) fn write_body(buffer: &mut [u8], name: &Name, value: &[u8]) -> usize
    requires short { length value.now ≤ LONG_VALUE_LIMIT }
    requires room { length name.now + 1 + length value.now ≤ length buffer.old }
    ensures body { take result buffer.new ≡ body_of name.now value.now }
    ensures len { result ≡ length name.now + 1 + length value.now }
    ensures most { result ≤ BODY }
    ensures within { result ≤ length buffer.new }
    ensures name { IsName name.now }
{
    let end = name.bytes().len();
    let len = end + 1 + value.len();
    buffer[..end].copy_from_slice(name.bytes());
    buffer[end] = b'=';
    buffer[end + 1..len].copy_from_slice(value);
    len
}

// What a record with this body costs, in bytes, if it puts a value.
pub(crate) fn put_cost(ring: &Ring, unit: u32, body: &[u8]) -> u32
    requires { IsUnit unit }
    ensures cost { result ≡ put_cost (value_limit ring.now.area) unit body.now }
    ensures small { result ≤ PROGRAM_LIMIT }
{
    match setting_in(ring, body) {
        Some(setting) if !setting.value.is_empty() => record_cost(unit, body.len() as u32),
        _ => 0,
    }
}

// The room that each sector keeps for a delete of the longest name.
pub(crate) fn reserve(unit: u32) -> u32
    requires { IsUnit unit }
    ensures { result ≡ reserve unit }
{
    record_cost(unit, NAME_LIMIT as u32 + 1)
}

// What the header and the reserve leave of a sector.
pub(crate) fn cap(geometry: Geometry) -> u32
    requires unit { IsUnit geometry.unit }
    ensures { result ≡ cap geometry.unit geometry.sector }
{
    geometry
        .sector
        .saturating_sub(padded(geometry.unit, 8))
        .saturating_sub(reserve(geometry.unit))
}
