// Writing an image's file.
ghost use Rattle.std.specs.Prelude.{◌≡◌, ◌<◌, ◌≤◌, ◌++◌, ℕ, length, replicate, IfOk, OnOk};
ghost use Rattle.std.specs.List.{All, flat_map, concat};
ghost use Rattle.std.specs.Int.{w32, to_le_bytes};
ghost use Rattle.flash_sim.specs.Bank.{bank_at};
ghost use Rattle.flash_sim.specs.Contents.{contents};
ghost use Rattle.image_file.specs.Format.{kind_byte, role_byte, bank_text, area_text, version_of, plain_of, file_of};
ghost use Rattle.image_file.specs.Lawful.{IsImage, IsImageBank, FitsText};
ghost use Rattle.image_file.specs.Reading.{IsImageFile};

use flash_map::{Area, FlashMap, Role};
use flash_sim::{Bank, Kind, NoMemory};
use std::alloc::{AllocError, Global};

fn kind_byte(kind: Kind) -> u8
    ensures { result ≡ kind_byte kind }
{
    match kind {
        Kind::Erasing => 0,
        Kind::Rewritable => 1,
    }
}

fn role_byte(role: Role) -> u8
    ensures { result ≡ role_byte role }
{
    match role {
        Role::Nvs => 1,
        Role::Zms => 2,
        Role::Fcb => 3,
        Role::Sel => 4,
    }
}

fn put_bank(file: &mut Vec<u8>, bank: &Bank) -> Result<(), AllocError>
    requires { (version : ℕ) × IsImageBank version bank.now }
    ensures { OnOk result (file.new.items ≡ file.old.items ++ bank_text bank.now) }
{
    file.extend_from_slice(&[kind_byte(bank.kind), bank.unit as u8, 0, 0])?;
    put_number(file, bank.sector)?;
    put_number(file, bank.count)
}

fn put_number(file: &mut Vec<u8>, number: u32) -> Result<(), AllocError>
    ensures { OnOk result (file.new.items ≡ file.old.items ++ to_le_bytes w32 number) }
{
    file.extend_from_slice(&number.to_le_bytes())
}

fn put_banks(file: &mut Vec<u8>, banks: &[Bank]) -> Result<(), AllocError>
    requires { (version : ℕ)
        × ((i : ℕ) → i < length banks.now → IsImageBank version (bank_at banks.now i)) }
    ensures { OnOk result (file.new.items ≡ file.old.items ++ flat_map bank_text banks.now) }
{
    for bank in banks {
        put_bank(file, bank)?;
    }
    Ok(())
}

static ZEROS: [u8; 8] = [0; 8];

fn zeros(count: usize) -> &'static [u8]
    requires { count ≤ 8 }
    ensures { result.now ≡ replicate count 0 }
{
    &ZEROS[..count]
}

fn put_area(file: &mut Vec<u8>, area: &Area) -> Result<(), AllocError>
    requires { FitsText area.now }
    ensures { OnOk result (file.new.items ≡ file.old.items ++ area_text area.now) }
{
    let label = area.label.as_str().as_bytes();
    file.extend_from_slice(&[role_byte(area.role), area.bank as u8])?;
    file.extend_from_slice(&(area.first as u16).to_le_bytes())?;
    file.extend_from_slice(&(area.sectors as u16).to_le_bytes())?;
    file.extend_from_slice(&[label.len() as u8, 0])?;
    file.extend_from_slice(label)?;
    file.extend_from_slice(zeros(8 - label.len()))
}

fn put_areas(file: &mut Vec<u8>, areas: &FlashMap) -> Result<(), AllocError>
    requires { All FitsText areas.now }
    ensures { OnOk result (file.new.items ≡ file.old.items ++ flat_map area_text areas.now) }
{
    for area in areas {
        put_area(file, area)?;
    }
    Ok(())
}

fn put_contents(file: &mut Vec<u8>, bytes: &[Vec<u8>]) -> Result<(), AllocError>
    ensures { OnOk result (file.new.items ≡ file.old.items ++ concat (contents bytes.now)) }
{
    for copy in bytes {
        file.extend_from_slice(copy.as_slice())?;
    }
    Ok(())
}

// The version of the areas.
fn version_of(areas: &FlashMap) -> u8
    ensures { result ≡ version_of areas.now }
{
    match areas.at(0) {
        Some(area) => area.version,
        None => 1,
    }
}

fn put_image(
    file: &mut Vec<u8>,
    banks: &[Bank],
    areas: &FlashMap,
    bytes: &[Vec<u8>],
) -> Result<(), AllocError>
    requires { IsImage (plain_of banks.now areas.now bytes.now) }
    ensures { OnOk result
        (file.new.items ≡ file.old.items ++ file_of (plain_of banks.now areas.now bytes.now)) }
{
    let bank_count = banks.len() as u8;
    let area_count = areas.len() as u8;
    let version = version_of(areas);
    file.extend_from_slice(&[b'Z', b'S', b'I', b'M', version, bank_count, area_count, 0])?;
    put_banks(file, banks)?;
    put_areas(file, areas)?;
    put_contents(file, bytes)
}

/// The file of a lawful image with these banks, areas and bytes of each bank.
///
/// # Errors
/// Out of memory, and nothing else.
pub fn write_image(
    alloc: Global,
    banks: &[Bank],
    map: &FlashMap,
    bytes: &[Vec<u8>],
) -> Result<Vec<u8>, NoMemory>
    requires { IsImage (plain_of banks.now map.now bytes.now) }
    ensures { IfOk result (λ file. IsImageFile file.items (plain_of banks.now map.now bytes.now)) }
{
    let mut file = Vec::new(alloc);
    put_image(&mut file, banks, map, bytes)?;
    Ok(file)
}
