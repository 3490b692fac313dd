// Functions that answer from their words alone: rows of a table, and one loop for each.
use crate::holds;
use backend_api::is_behind;
use crc8_entry::{checks, crc8};
use fcb_ring::record_cost;
use flash_map::Geometry;
use flash_sim::Kind;
use image_file::{ImageFault, ImageWhy, SpecFault, read_image, read_spec};
use nvs_store::{Entry, decode_entry, encode_entry, fits, scan_sector, used_count};
use setting_name::{Name, NameFault};
use std::alloc::Global;
use std::fmt::Display;
use std::process::Abort;
use text_parts::{cut_at, one_part, read_number};
use zms_cycle::{
    SectorState, SlotEntry, ZEntry, decode_zentry, encode_zentry, entry_in, fill_unit, offset_of,
    read_sector,
};

// Bytes, and their CRC from the start value FF: of an entry of NVS, of one of ZMS, of a record.
static CRCS: [(&[u8], u8); 13] = [
    (&[], 0xFF),
    (&[0xFF], 0x00),
    (&[0x00], 0xF3),
    (b"\x00\x80\x00\x00\x02\x00\xFF", 0x8D),
    (b"\xFF\xFF\xE0\x01\x00\x00\xFF", 0x71),
    (b"\x01\x00\x00\x00\x01\x00\xFF", 0x03),
    (b"\x01\xFF\xFF\xFF\xFF\xFF\xFF\0\0\0\0\0\0\0\0", 0x61),
    (b"\x01\x01\x00\x20\x29\x00\xC0\x01\0\0\0\0\0\0\0", 0x62),
    (b"\x01\x01\x00\x20\x29\x00\x80\x61\0\0\0\0\0\0\0", 0xCA),
    (b"\x03\x61\x3D\x01", 0x52),
    (b"\x02\x61\x3D", 0xAE),
    (b"\x08\x61\x3D\x00\xA4\x01\x02\x03\x04", 0xC2),
    (b"\x02\x01\xFE", 0x1C),
];

#[test]
fn crcs(rt: HostRuntime) {
    for (bytes, crc) in CRCS.iter() {
        let is_checked = checks(bytes, *crc) & !checks(bytes, *crc ^ 1);
        holds(&rt, "a CRC", is_checked & (crc8(0xFF, bytes) == *crc));
    }
}

// A text, its first part, the rest after it, and the rest if it is one part.
static PARTS: [(&[u8], &[u8], Option<&[u8]>, Option<&[u8]>); 4] = [
    (b"nvs/main//2", b"nvs", Some(b"main//2"), None),
    (b"/2", b"", Some(b"2"), Some(b"2")),
    (b"/", b"", Some(b""), Some(b"")),
    (b"main", b"main", None, None),
];

// A word, and the number below 256 that it is.
static NUMBERS: [(&[u8], Option<u64>); 10] = [
    (b"0", Some(0)),
    (b"255", Some(255)),
    (b"256", None),
    (b"00", None),
    (b"+1", None),
    (b"-1", None),
    (b"", None),
    (b"1 ", None),
    (b"18446744073709551616", None),
    (b"\xFF", None),
];

#[test]
fn texts(rt: HostRuntime) {
    for (text, first, rest, last) in PARTS.iter() {
        let cut = cut_at(text, b'/') == (*first, *rest);
        holds(&rt, "a part", cut & (one_part(*rest, b'/') == *last));
    }
    for (word, number) in NUMBERS.iter() {
        holds(&rt, "a number", read_number(word, 256) == *number);
    }
}

// A text, and why it is no name.
static NAMES: [(&str, Option<NameFault>); 8] = [
    (
        "a/b/c/d/e/f/g/90123456789012345678901234567890123456789012345678",
        None,
    ),
    ("!~", None),
    ("", Some(NameFault::Empty)),
    (
        "a/b/c/d/e/f/g/901234567890123456789012345678901234567890123456789=",
        Some(NameFault::TooLong),
    ),
    ("a=b", Some(NameFault::BadByte(1))),
    ("a//b", Some(NameFault::EmptyPart(2))),
    ("a/", Some(NameFault::EmptyPart(2))),
    ("1/2/3/4/5/6/7/8/9", Some(NameFault::TooDeep)),
];

// A name, what is left of it after `bt`, and whether it is behind `bt`.
static LEFT: [(&str, Option<&[u8]>, bool); 6] = [
    ("bt", Some(b""), false),
    ("bt/x", Some(b"x"), true),
    ("bt/mesh/iv", Some(b"mesh/iv"), true),
    ("btx/y", None, true),
    ("b/t", None, false),
    ("b", None, false),
];

pub(crate) fn name_of<R: Abort>(rt: &R, text: &str) -> Name {
    Name::read(text.as_bytes()).expect(rt, text)
}

#[test]
fn names(rt: HostRuntime) {
    for (text, fault) in NAMES.iter() {
        holds(&rt, text, Name::read(text.as_bytes()).err() == *fault);
    }
    let key = name_of(&rt, "bt");
    for (text, rest, behind) in LEFT.iter() {
        let name = name_of(&rt, text);
        let is_behind = is_behind(text.as_bytes(), Some(&key)) == *behind;
        holds(&rt, text, is_behind & (Name::matches(&name, &key) == *rest));
        let joined = Name::join(&key, rest.unwrap_or(b"a//b"));
        let fault = rest.is_none().then_some(NameFault::EmptyPart(5));
        holds(&rt, text, joined.as_ref().err().copied() == fault);
        holds(&rt, text, joined.is_err() | (joined.ok() == Some(name)));
    }
    let other = name_of(&rt, "b/c");
    let order = !is_behind(b"b/b", Some(&other)) & is_behind(b"b/c/a", Some(&other));
    holds(
        &rt,
        "order",
        order & !is_behind(b"b/c", Some(&other)) & is_behind(b"c", Some(&other)),
    );
    let slash = name_of(&rt, "a/b");
    holds(
        &rt,
        "a.b",
        (name_of(&rt, "a.b") < slash) & (slash.copy() == slash),
    );
    holds(&rt, "!", is_behind(b"!", None));
}

// A word, and the number of its first unlawful item.
static WORDS: [(&str, u32); 28] = [
    ("version=2", 2),
    ("version=2,", 2),
    ("version=1,bank=erasing/4/512/2,area=nvs/a/0/0/2", 1),
    ("version=2,version=2", 2),
    ("bank=erasing/4/4096/2,version=2", 2),
    ("version=2,bank=erasing/4/512/2,area=nvs/a/0/0/2", 2),
    ("bank=rewritable/8/512/2,area=zms/a/0/0/2", 2),
    ("", 1),
    ("bank=erasing/4/512/2", 2),
    ("bank=erasing/4/512/2,", 2),
    ("area=nvs/main/0/0/2", 1),
    ("bank=erasing/4/512/4,area=nvs/a/0/0/2,area=nvs/b/0/2/2", 4),
    (
        "bank=erasing/4/512/6,area=nvs/a/0/0/2,area=sel/s/0/2/2,area=sel/t/0/4/2",
        4,
    ),
    (
        "bank=erasing/4/512/2,area=nvs/main/0/0/2,bank=erasing/4/512/2",
        3,
    ),
    ("bank=erasing/04/512/2", 1),
    ("bank=erasing/4/+512/2", 1),
    ("bank=erasing/4/512/2/2", 1),
    ("bank=erasing/5/512/2", 1),
    ("bank=flat/4/512/2", 1),
    ("tank=erasing/4/512/2", 1),
    ("bank=erasing/4/512/4,area=nvs/a/0/0/2,area=nvs/a/0/2/2", 3),
    ("bank=erasing/4/512/4,area=nvs/a/0/0/2,area=nvs/b/0/1/2", 3),
    ("bank=erasing/4/512/4,area=zms/a/0/0/2", 2),
    ("bank=erasing/4/512/4,area=nvs/A/0/0/2", 2),
    ("bank=erasing/4/512/4,area=nvs/a/1/0/2", 2),
    ("bank=erasing/4/512/4,area=nvs/a/0/0", 2),
    (
        "bank=erasing/4/512/2,bank=erasing/4/512/2,bank=erasing/4/512/2",
        3,
    ),
    ("bank=erasing/4/512/2,area=sel/s/0/0/2", 3),
];

// An image file without what its bank holds.
const HEADER: [u8; 36] = *b"ZSIM\x01\x01\x01\x00\x00\x04\0\0\0\x02\0\0\x04\0\0\0\
    \x01\0\0\0\x04\0\x04\0main\0\0\0\0";

#[test]
fn specs(rt: HostRuntime) {
    let mut file = vec![in rt.alloc(); 255u8; 2085].expect(&rt, "memory");
    file[..36].copy_from_slice(&HEADER);
    let (at, why) = (2084, ImageWhy::Long);
    let long = read_image(rt.alloc(), &file).err() == Some(ImageFault::Bad { at, why });
    let image = read_image(rt.alloc(), file.get(..2084).unwrap_or(b"")).expect(&rt, "an image");
    let area = image.map.at(0).expect(&rt, "an area");
    holds(&rt, "a byte too many", long & (area.version == 1));
    for (word, item) in WORDS.iter() {
        let fault = read_spec(rt.alloc(), word).err();
        holds(&rt, word, fault == Some(SpecFault::BadSpec { item: *item }));
    }
}

fn says<E: Display, R: Abort>(rt: &R, alloc: Global, fault: &E, message: &str) {
    let text = fault.to_string(alloc).expect(rt, "memory");
    holds(rt, message, text.as_str() == message);
}

#[test]
fn messages(rt: HostRuntime) {
    let alloc = rt.alloc();
    let why = ImageWhy::BadVersion;
    let bad = ImageFault::Bad { at: 4, why };
    says(
        &rt,
        alloc,
        &bad,
        "no image file: byte 4 departs from the format",
    );
    says(&rt, alloc, &ImageFault::NoMemory, "out of memory");
    says(
        &rt,
        alloc,
        &SpecFault::BadSpec { item: 2 },
        "item 2 is refused",
    );
    says(&rt, alloc, &SpecFault::NoMemory, "out of memory");
}

// The id, the offset and the length of an entry of NVS, and its bytes.
static NVS: [(u16, u16, u16, [u8; 8]); 3] = [
    (0x8000, 0, 2, [0x00, 0x80, 0, 0, 2, 0, 0xFF, 0x8D]),
    (0xFFFF, 480, 0, [0xFF, 0xFF, 0xE0, 1, 0, 0, 0xFF, 0x71]),
    (1, 0, 1, [1, 0, 0, 0, 1, 0, 0xFF, 0x03]),
];

const AREA: Geometry = Geometry {
    unit: 4,
    sector: 512,
    sectors: 2,
    kind: Kind::Erasing,
};

#[test]
fn nvs_sectors(rt: HostRuntime) {
    for (id, offset, len, bytes) in NVS.iter() {
        let entry = Entry {
            id: *id,
            offset: *offset,
            len: *len,
            part: 0xFF,
        };
        let is_read = decode_entry(bytes) == Some(entry);
        holds(&rt, "an entry", is_read & (encode_entry(&entry) == *bytes));
    }
    let wrong = [0xFF, 0xFF, 0xE0, 1, 0, 0, 0xFF, 0x70];
    holds(&rt, "a wrong CRC", decode_entry(&wrong).is_none());
    let costs = (
        nvs_store::cost(4, 256),
        nvs_store::cost(16, 1),
        nvs_store::capacity(4, 512),
    );
    holds(&rt, "costs", costs == (264, 32, 480));
    let blank = scan_sector(&[0xFFu8; 512], 4, 0);
    let fits = fits(&AREA, &blank, 472) & !fits(&AREA, &blank, 473);
    holds(&rt, "room", fits & (blank.low == 504));
    let mut sector = [0xFFu8; 512];
    sector[496..504].copy_from_slice(&[1, 0, 0, 0, 0xEC, 1, 0xFF, 0x49]);
    holds(&rt, "used", used_count(&sector, 4) == 1);
    let records = [
        record_cost(4, 102),
        record_cost(8, 102),
        record_cost(16, 2113),
    ];
    holds(&rt, "records", records == [112, 120, 2160]);
}

// The cycle's byte, the length, the id and the tail of an entry of ZMS, and its bytes.
static ZMS: [(u16, u32, [u8; 8], [u8; 16]); 7] = [
    (
        1,
        0xC000_2920,
        [1, 0, 0, 0, 0, 0, 0, 0],
        *b"\x62\x01\x01\0\x20\x29\0\xC0\x01\0\0\0\0\0\0\0",
    ),
    (
        1,
        0x8000_2920,
        *b"a\0\0\0\0\0\0\0",
        *b"\xCA\x01\x01\0\x20\x29\0\x80a\0\0\0\0\0\0\0",
    ),
    (
        0xFFFF,
        0xFFFF_FFFF,
        [0; 8],
        *b"\x61\x01\xFF\xFF\xFF\xFF\xFF\xFF\0\0\0\0\0\0\0\0",
    ),
    (
        2,
        8,
        [5, 6, 0, 0, 0, 0, 0, 0],
        *b"\x9D\x01\x02\0\x08\0\0\0\x05\x06\0\0\0\0\0\0",
    ),
    (9, 7, [0; 8], *b"\x69\x01\x09\0\x07\0\0\0\0\0\0\0\0\0\0\0"),
    (
        0,
        0xFFFF_FFFF,
        [0xC0, 1, 0, 0, 1, 0, 0, 0],
        *b"\x29\x01\0\0\xFF\xFF\xFF\xFF\xC0\x01\0\0\x01\0\0\0",
    ),
    (
        0,
        0xFFFF_FFFF,
        [16, 0, 0, 0, 2, 0, 0, 0],
        *b"\x98\x01\0\0\xFF\xFF\xFF\xFF\x10\0\0\0\x02\0\0\0",
    ),
];

fn zentry(len: u16, id: u32, tail: [u8; 8]) -> ZEntry {
    ZEntry {
        cycle: 1,
        len,
        id,
        tail,
    }
}

#[test]
fn zms_entries(rt: HostRuntime) {
    for (len, id, tail, bytes) in ZMS.iter() {
        let entry = zentry(*len, *id, *tail);
        let is_read = decode_zentry(bytes) == Some(entry);
        holds(&rt, "an entry", is_read & (encode_zentry(&entry) == *bytes));
    }
    let none = decode_zentry(&fill_unit()).is_none() & decode_zentry(&[0xFF; 16]).is_none();
    holds(&rt, "no entry", none);
    for (len, data) in [(0, 0), (8, 0), (9, 16), (16, 16), (17, 32)].iter() {
        let cost = zms_cycle::cost(*len) == *data + 16;
        holds(&rt, "data", cost & (zms_cycle::data_len(*len) == *data));
    }
    let room = (zms_cycle::capacity(512) == 432) & (zms_cycle::capacity(64) == 0);
    holds(&rt, "capacity", room);
}

// Six units: the empty entry, an entry in slot 2, and the same under an erased unit, where it is
// ignored.
#[test]
fn one_sector_of_zms(rt: HostRuntime) {
    let mut sector = [0xFF; 96];
    let entry = zentry(9, 7, [16, 0, 0, 0, 0, 0, 0, 0]);
    sector[80..].copy_from_slice(&encode_zentry(&zentry(0xFFFF, 0xFFFF_FFFF, [0; 8])));
    sector[48..64].copy_from_slice(&encode_zentry(&entry));
    sector[16..32].copy_from_slice(&encode_zentry(&entry));
    let state = SectorState::Used {
        cycle: 1,
        closed: false,
        slots: 1,
        data_end: 32,
        gc_done: false,
    };
    let is_read = read_sector(&sector, Kind::Rewritable) == state;
    holds(&rt, "state", is_read & (offset_of(&entry) == 16));
    let second = entry_in(&sector, 2) == Some(SlotEntry { slot: 2, entry });
    holds(&rt, "entries", second & entry_in(&sector, 0).is_none());
}
