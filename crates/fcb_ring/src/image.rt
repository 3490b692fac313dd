// What the ring programs: headers and records.
ghost use Rattle.std.specs.Prelude.{◌≡◌, ◌+◌, ◌/◌, ◌%◌, ◌<◌, ◌≤◌, ◌++◌, ◌^◌, length, take};
ghost use Rattle.flash_sim.specs.declared.flash.TheConstants.{PROGRAM_LIMIT};
ghost use Rattle.flash_map.specs.Units.{IsUnit, padded};
ghost use Rattle.fcb_ring.specs.Writing.{filled, length_field, record_image, record_cost, header_image};

use crate::sector::LEAD;
use arrayvec::ArrayVec;
use crc8_entry::{START, crc8};
use flash_map::padded;
use flash_sim::PROGRAM_LIMIT;

// The bytes of the greatest unit.
const UNIT: usize = 16;

/// The room for most records: a larger array takes an instruction a byte to clear.
pub(crate) const SHORT: usize = 256;

// A header with this id, for the greatest unit. For a smaller unit a header is a prefix of it.
#[tactic(auto, unfolding(crate::specs::Writing::header_image, crate::specs::Writing::filled, flash_map::specs::Units::padded))]
pub(crate) fn header_image(id: u16) -> [u8; UNIT]
    ensures { result ≡ header_image 16 id }
{
    let mut image = [0xFF; UNIT];
    image[..6].copy_from_slice(&LEAD);
    image[6..8].copy_from_slice(&id.to_le_bytes());
    image
}

/// The bytes that a record takes up in a sector, by the bytes of a unit and of the record's body.
pub fn record_cost(unit: u32, len: u32) -> u32
    requires unit { IsUnit unit }
    requires len { len < 2 ^ 30 }
    ensures { result ≡ record_cost unit len }
{
    unit + padded(unit, len) + unit
}

// The length field of a body of this length.
#[tactic(auto, unfolding(crate::specs::Writing::length_field))]
fn length_field(len: u32) -> ArrayVec<u8, 2>
    requires { len ≤ PROGRAM_LIMIT }
    ensures { result.items ≡ length_field len }
{
    let mut field = ArrayVec::new();
    if len < 0x80 {
        field.push(len as u8);
        return field;
    }
    field.push((len % 0x80 + 0x80) as u8);
    field.push((len / 0x80) as u8);
    field
}

// Puts bytes behind the others.
pub(crate) fn push_all<const N: usize>(image: &mut ArrayVec<u8, N>, bytes: &[u8])
    requires { length image.old.items + length bytes.now ≤ N }
    ensures { image.new.items ≡ image.old.items ++ bytes.now }
{
    let _fits = image.try_extend_from_slice(bytes);
}

// Writes bytes at a place of a buffer. Returns where they end.
fn write_at(buffer: &mut [u8], at: usize, bytes: &[u8]) -> usize
    requires { at + length bytes.now ≤ length buffer.old }
    ensures bytes { take result buffer.new ≡ take at buffer.old ++ bytes.now }
    ensures end { result ≡ at + length bytes.now }
    ensures long { length buffer.new ≡ length buffer.old }
{
    let end = at + bytes.len();
    buffer[at..end].copy_from_slice(bytes);
    end
}

// Writes a part at a place of a buffer, with FF up to whole units. Returns where these end.
fn write_filled(buffer: &mut [u8], at: usize, unit: u32, part: &[u8]) -> usize
    requires unit { IsUnit unit }
    requires small { length part.now ≤ PROGRAM_LIMIT }
    requires room { at + padded unit (length part.now) ≤ length buffer.old }
    ensures bytes { take result buffer.new ≡ take at buffer.old ++ filled unit part.now }
    ensures end { result ≡ at + padded unit (length part.now) }
    ensures long { length buffer.new ≡ length buffer.old }
{
    let fill = padded(unit, part.len() as u32) as usize - part.len();
    let end = write_at(buffer, at, part);
    write_at(buffer, end, &[0xFF; UNIT][..fill])
}

// Writes a record with this body to the start of a buffer. Returns how many bytes it has.
pub(crate) fn write_record(buffer: &mut [u8], unit: u32, body: &[u8]) -> usize
    requires unit { IsUnit unit }
    requires short { record_cost unit (length body.now) ≤ PROGRAM_LIMIT }
    requires room { record_cost unit (length body.now) ≤ length buffer.old }
    ensures bytes { take result buffer.new ≡ record_image unit body.now }
    ensures within { result ≤ length buffer.new }
{
    let field = length_field(body.len() as u32);
    let crc = crc8(crc8(START, field.as_slice()), body);
    let field_end = write_filled(buffer, 0, unit, field.as_slice());
    let body_end = write_filled(buffer, field_end, unit, body);
    write_filled(buffer, body_end, unit, &[crc])
}
