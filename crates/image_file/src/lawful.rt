// Which banks and areas an image may have.
ghost use Rattle.std.specs.Prelude.{◌≡◌, ℕ, ◌<◌, ◌≤◌, ◌↔◌, IsTrue, length, map, count_by};
ghost use Rattle.std.specs.List.{All, list_all};
ghost use Rattle.flash_map.specs.Map.{HasVersion};
ghost use Rattle.flash_sim.specs.Bank.{capacity};
ghost use Rattle.image_file.specs.Format.{plain_area};
ghost use Rattle.image_file.specs.Lawful.{IsImageBank, IsLabel, StandsOn, HasNeeded, is_label_byte, is_selector};
ghost use Rattle.image_file.specs.Takes.{TakesArea};

use flash_map::{AddFault, Area, FlashMap, MOST_SECTORS, Role};
use flash_sim::{Bank, Kind, NoMemory};

/// The fewest bytes of a sector.
pub const LEAST_SECTOR: u32 = 512;

/// The fewest bytes of a sector in an image of version 2, which has longer values.
pub const LEAST_LONG_SECTOR: u32 = 4096;

/// The most bytes of a sector.
pub const MOST_SECTOR: u32 = 32_768;

/// The most banks of an image.
pub const MOST_BANKS: usize = 2;

/// The most areas of an image.
pub const MOST_AREAS: usize = 8;

/// Whether an image of this version may have the bank.
pub fn is_lawful_bank(version: u8, bank: &Bank) -> bool
    ensures { IsTrue result ↔ IsImageBank version bank.now }
{
    matches!(bank.unit, 4 | 8 | 16)
        && (LEAST_SECTOR..=MOST_SECTOR).contains(&bank.sector)
        && (version != 2 || bank.sector >= LEAST_LONG_SECTOR)
        && bank.sector % 64 == 0
        && (2..=MOST_SECTORS).contains(&bank.count)
}

/// Whether a label has 1 to 8 bytes of `a` to `z` and `0` to `9`.
pub fn is_label(label: &[u8]) -> bool
    ensures { IsTrue result ↔ IsLabel label.now }
{
    (1..=8).contains(&label.len()) && all_label_bytes(label)
}

fn all_label_bytes(label: &[u8]) -> bool
    ensures { result ≡ list_all is_label_byte label.now }
{
    label.iter().all(|byte| is_label_byte(*byte))
}

fn is_label_byte(byte: u8) -> bool
    ensures { result ≡ is_label_byte byte }
{
    byte.is_ascii_lowercase() || byte.is_ascii_digit()
}

fn stands_on(role: Role, bank: &Bank) -> bool
    ensures { IsTrue result ↔ StandsOn role bank.now }
{
    match role {
        Role::Zms => bank.unit == 16,
        Role::Nvs | Role::Fcb | Role::Sel => bank.kind == Kind::Erasing,
    }
}

/// Adds the area if it may stand beside those of the map, and says whether it may. A refusal leaves
/// the map as it was.
///
/// # Errors
/// Out of memory, and nothing else.
pub fn take_area(areas: &mut FlashMap, banks: &[Bank], area: Area) -> Result<bool, NoMemory>
    requires label { IsLabel area.label.bytes }
    requires version { All (HasVersion area.version) areas.old }
    ensures { TakesArea banks.now areas.old areas.new area result }
{
    let Some(bank) = banks.get(area.bank) else {
        return Ok(false);
    };
    if !stands_on(area.role, bank) {
        return Ok(false);
    }
    match areas.add(banks, area) {
        Ok(()) => Ok(true),
        Err(fault) => {
            if fault == AddFault::NoMemory {
                Err(NoMemory)
            } else {
                Ok(false)
            }
        }
    }
}

/// Whether the areas are those that an image needs: at least one store, at most one selector, and a
/// selector if there are two stores or more.
pub fn has_needed(areas: &FlashMap) -> bool
    ensures { IsTrue result ↔ HasNeeded (map plain_area areas.now) }
{
    let selectors = count_selectors(areas);
    let stores = areas.len() - selectors;
    stores >= 1 && selectors <= 1 && (stores < 2 || selectors == 1)
}

fn is_selector(area: &Area) -> bool
    ensures { result ≡ is_selector area.now }
{
    area.role == Role::Sel
}

/// How many areas are selectors.
pub fn count_selectors(areas: &FlashMap) -> usize
    ensures value { result ≡ count_by is_selector (map plain_area areas.now) }
    ensures at_most { result ≤ length areas.now }
{
    areas.iter().filter(|area| is_selector(area)).count()
}

/// How many bytes a bank has.
pub fn capacity(bank: &Bank) -> usize
    requires { (version : ℕ) × IsImageBank version bank.now }
    ensures { result ≡ capacity bank.now }
{
    bank.sector as usize * bank.count as usize
}
