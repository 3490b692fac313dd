// An entry and its sixteen bytes.
ghost use Rattle.std.specs.Prelude.{◌≡◌, ◌≤◌, length};
ghost use Rattle.zms_cycle.specs.Entries.{entry_of, encoded, decoded, fill};

use crc8_entry::{START, checks, crc8};

/// An entry: what the sixteen bytes of a slot say.
#[derive(Clone, Copy, PartialEq, Eq)]
pub struct ZEntry {
    /// The sector's cycle when the entry was programmed.
    pub cycle: u8,
    /// Bytes of the value; 0 is a delete.
    pub len: u16,
    /// The id of the item.
    pub id: u32,
    /// The value itself, if it has at most 8 bytes; else the offset of the value in the sector, and
    /// four bytes 00.
    pub tail: [u8; 8],
}

/// The sixteen bytes of an entry, its CRC first.
#[tactic(auto, unfolding(crate::specs::Entries::encoded))]
pub fn encode_zentry(e: &ZEntry) -> [u8; 16]
    ensures { result ≡ encoded e.now }
{
    let cycle = e.cycle;
    let [len_low, len_high] = e.len.to_le_bytes();
    let [id_0, id_1, id_2, id_3] = e.id.to_le_bytes();
    let [
        tail_0,
        tail_1,
        tail_2,
        tail_3,
        tail_4,
        tail_5,
        tail_6,
        tail_7,
    ] = e.tail;
    let covered = [
        cycle, len_low, len_high, id_0, id_1, id_2, id_3, tail_0, tail_1, tail_2, tail_3, tail_4,
        tail_5, tail_6, tail_7,
    ];
    let crc = crc8(START, &covered);
    [
        crc, cycle, len_low, len_high, id_0, id_1, id_2, id_3, tail_0, tail_1, tail_2, tail_3,
        tail_4, tail_5, tail_6, tail_7,
    ]
}

/// The entry that sixteen bytes spell, whether their CRC matches or not.
pub fn zentry_fields(bytes: &[u8]) -> ZEntry
    requires { length bytes.now ≡ 16 }
    ensures { result ≡ entry_of bytes.now }
{
    let mut tail = [0; 8];
    tail.copy_from_slice(&bytes[8..16]);
    ZEntry {
        cycle: bytes[1],
        len: u16::from_le_bytes([bytes[2], bytes[3]]),
        id: u32::from_le_bytes([bytes[4], bytes[5], bytes[6], bytes[7]]),
        tail,
    }
}

/// The entry in sixteen bytes; `None` exactly if their CRC does not match.
#[tactic(auto, unfolding(crate::specs::Entries::decoded))]
pub fn decode_zentry(bytes: &[u8]) -> Option<ZEntry>
    requires { length bytes.now ≡ 16 }
    ensures { result ≡ decoded bytes.now }
{
    if !checks(&bytes[1..], bytes[0]) {
        return None;
    }
    Some(zentry_fields(bytes))
}

/// The fill unit: sixteen bytes that never pass as an entry.
#[tactic(auto, unfolding(crate::specs::Entries::fill))]
pub fn fill_unit() -> [u8; 16]
    ensures { result ≡ fill }
{
    [0x6F, 0, 0, 0, 0, 0, 0, 0, 0, 0, 0, 0, 0, 0, 0, 0]
}
