// An entry and its eight bytes.

ghost use Rattle.std.specs.Prelude.{◌≡◌, ◌≤◌, length};
ghost use Rattle.nvs_store.specs.Entries.{encoded, decoded};

use crc8_entry::{START, checks, crc8};

/// What stands in a slot: an item's id, and where its data lies in the sector.
#[derive(Clone, Copy, PartialEq, Eq)]
pub struct Entry {
    /// The id of the item.
    pub id: u16,
    /// Where the data starts, in bytes from the start of the sector.
    pub offset: u16,
    /// Bytes of the data; 0 is a delete.
    pub len: u16,
    /// Written FF, and ignored by every reader.
    pub part: u8,
}

/// The id of the close entry and of gc-done, and of no item.
pub const SPECIAL_ID: u16 = 0xFFFF;

/// The entry's fields, little endian, and their CRC.
#[tactic(auto, unfolding(crate::specs::Entries::encoded))]
pub fn encode_entry(entry: &Entry) -> [u8; 8]
    ensures { result ≡ encoded entry.now }
{
    let [id_low, id_high] = entry.id.to_le_bytes();
    let [offset_low, offset_high] = entry.offset.to_le_bytes();
    let [len_low, len_high] = entry.len.to_le_bytes();
    let part = entry.part;
    let covered = [
        id_low,
        id_high,
        offset_low,
        offset_high,
        len_low,
        len_high,
        part,
    ];
    let crc = crc8(START, &covered);
    [
        id_low,
        id_high,
        offset_low,
        offset_high,
        len_low,
        len_high,
        part,
        crc,
    ]
}

/// The entry in the first eight bytes; `None` exactly if their CRC does not match.
#[tactic(auto, unfolding(crate::specs::Entries::decoded))]
pub fn decode_entry(bytes: &[u8]) -> Option<Entry>
    requires { 8 ≤ length bytes.now }
    ensures { result ≡ decoded bytes.now }
{
    if !checks(&bytes[..7], bytes[7]) {
        return None;
    }
    Some(Entry {
        id: u16::from_le_bytes([bytes[0], bytes[1]]),
        offset: u16::from_le_bytes([bytes[2], bytes[3]]),
        len: u16::from_le_bytes([bytes[4], bytes[5]]),
        part: bytes[6],
    })
}
