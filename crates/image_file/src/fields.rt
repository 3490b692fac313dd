// The fields of a file.
ghost use Rattle.std.specs.Prelude.{◌≡◌, ◌+◌, ◌<◌, ◌≤◌, ◌==◌, length, take, MatchOption};
ghost use Rattle.std.specs.List.{list_all};
ghost use Rattle.std.specs.Int.{w16, w32, from_le_bytes};
ghost use Rattle.image_file.specs.declared.image.ImageWhy.TheVariants.{Short};
ghost use Rattle.image_file.specs.Format.{kind_byte, role_byte, plain_area};
ghost use Rattle.image_file.specs.Lawful.{IsLabel};
ghost use Rattle.image_file.specs.Said.{field_at, kind_said, role_said, bank_said, area_said};
ghost use Rattle.image_file.specs.Table.{IsBankText, IsSpelled, IsLabelText};
ghost use Rattle.image_file.specs.Reading.{Reads};

use crate::image::{ImageFault, ImageWhy};
use crate::lawful::{is_label, is_lawful_bank};
use arrayvec::ArrayString;
use flash_map::{Area, Role};
use flash_sim::{Bank, Kind};

/// The bytes of a field: `size` of them from the place `at` on.
///
/// # Errors
/// `Bad`, with `Short` at the file's end, if the file ends inside the field.
pub fn field(bytes: &[u8], at: usize, size: usize) -> Result<&[u8], ImageFault>
    requires { at ≤ length bytes.now }
    ensures { Reads
        (λ text. (at + size ≤ length bytes.now) × (text.now ≡ field_at bytes.now at size)
        × (length text.now ≡ size))
        (λ place why. (length bytes.now < at + size) × (place ≡ length bytes.now) × (why ≡ Short))
        result }
{
    let (_, rest) = bytes.split_at(at);
    if rest.len() < size {
        return Err(ImageFault::Bad {
            at: bytes.len() as u64,
            why: ImageWhy::Short,
        });
    }
    Ok(rest.split_at(size).0)
}

fn u16_at(text: &[u8], at: usize) -> u16
    requires { at + 2 ≤ length text.now }
    ensures { result ≡ from_le_bytes w16 (field_at text.now at 2) }
{
    let (_, rest) = text.split_at(at);
    u16::from_le_bytes([rest[0], rest[1]])
}

fn u32_at(text: &[u8], at: usize) -> u32
    requires { at + 4 ≤ length text.now }
    ensures { result ≡ from_le_bytes w32 (field_at text.now at 4) }
{
    let (_, rest) = text.split_at(at);
    u32::from_le_bytes([rest[0], rest[1], rest[2], rest[3]])
}

fn kind_of(byte: u8) -> Option<Kind>
    ensures { MatchOption result (1 < byte)
        (λ kind. (kind ≡ kind_said byte) × (kind_byte kind ≡ byte)) }
{
    match byte {
        0 => Some(Kind::Erasing),
        1 => Some(Kind::Rewritable),
        _ => None,
    }
}

fn role_of(byte: u8) -> Option<Role>
    ensures { MatchOption result (role_byte (role_said byte) ≡ byte → ⊥)
        (λ role. (role ≡ role_said byte) × (role_byte role ≡ byte)) }
{
    match byte {
        1 => Some(Role::Nvs),
        2 => Some(Role::Zms),
        3 => Some(Role::Fcb),
        4 => Some(Role::Sel),
        _ => None,
    }
}

/// The bank that a field spells in a file of this version; `None` if it spells no lawful one.
#[tactic(auto, unfolding(crate::specs::Said::bank_said))]
pub fn bank_of(version: u8, text: &[u8]) -> Option<Bank>
    requires { length text.now ≡ 12 }
    ensures { MatchOption result (IsBankText version text.now → ⊥)
        (λ bank. (bank ≡ bank_said text.now) × IsBankText version text.now) }
{
    let kind = kind_of(text[0])?;
    let bank = Bank {
        kind,
        unit: u32::from(text[1]),
        sector: u32_at(text, 4),
        count: u32_at(text, 8),
    };
    if text[2] == 0 && text[3] == 0 && is_lawful_bank(version, &bank) {
        Some(bank)
    } else {
        None
    }
}

/// The area that a field spells, wherever it lies; `None` if it spells none with a lawful label.
#[tactic(auto, unfolding(crate::specs::Said::area_said))]
pub fn area_of(version: u8, text: &[u8]) -> Option<Area>
    requires { length text.now ≡ 16 }
    ensures { MatchOption result (IsSpelled version text.now → ⊥)
        (λ area. (plain_area area ≡ area_said version text.now) × IsSpelled version text.now) }
{
    let role = role_of(text[0])?;
    if text[7] != 0 {
        return None;
    }
    let label = label_of(text[6], text.split_at(8).1)?;
    Some(Area::new(
        label,
        role,
        usize::from(text[1]),
        u32::from(u16_at(text, 2)),
        u32::from(u16_at(text, 4)),
        version,
    ))
}

// The label of this length in eight bytes, with zeros behind it.
fn label_of(len: u8, text: &[u8]) -> Option<ArrayString<8>>
    requires { length text.now ≡ 8 }
    ensures { MatchOption result (IsLabelText len text.now → ⊥)
        (λ label. (label.bytes ≡ take len text.now) × IsLabelText len text.now) }
{
    let len = usize::from(len);
    if len > text.len() {
        return None;
    }
    let (label, rest) = text.split_at(len);
    if !all_zero(rest) {
        return None;
    }
    label_from(label)
}

fn all_zero(bytes: &[u8]) -> bool
    ensures { result ≡ list_all (λ b. b == 0) bytes.now }
{
    bytes.iter().all(|byte| *byte == 0)
}

/// The label that these bytes spell; `None` if they spell no lawful one.
pub fn label_from(label: &[u8]) -> Option<ArrayString<8>>
    ensures { MatchOption result (IsLabel label.now → ⊥)
        (λ text. (text.bytes ≡ label.now) × IsLabel label.now) }
{
    if !is_label(label) {
        return None;
    }
    let Ok(text) = str::from_utf8(label) else {
        return None;
    };
    ArrayString::from(text).ok()
}
