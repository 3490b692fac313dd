// Reading the word that describes a blank image.
ghost use Rattle.std.specs.Prelude.{◌≡◌, ◌<◌, ◌↔◌, ℕ, true, length, map, count_by, replicate, IsTrue, IfOk, IfSome};
ghost use Rattle.std.specs.List.{All};
ghost use Rattle.flash_map.specs.Map.{HasVersion};
ghost use Rattle.flash_sim.specs.Bank.{bank_at, capacity};
ghost use Rattle.flash_sim.specs.Contents.{contents};
ghost use Rattle.image_file.specs.Format.{plain_area};
ghost use Rattle.image_file.specs.Items.{IsListed, TakesVersion, TakesBank, TakesListed, TakesFound, TakesItem, ReadsItems};
ghost use Rattle.image_file.specs.Lawful.{IsImageBank, IsLabel, is_sel, is_selector};
ghost use Rattle.image_file.specs.Spec.{listed, version_word, ReadsSpec};

use crate::image::{Image, SpecFault};
use crate::lawful::{
    MOST_AREAS, MOST_BANKS, capacity, count_selectors, has_needed, is_lawful_bank, take_area,
};
use crate::numbers::{area_item, bank_item};
use flash_map::{Area, FlashMap, Role};
use flash_sim::{Bank, NoMemory};
use std::alloc::{AllocError, Global};
use text_parts::cut_at;

// The version, the banks and the areas of a word, and how many items it has.
#[derive(Drop)]
struct Items {
    version: u8,
    banks: Vec<Bank>,
    areas: FlashMap,
    count: u32,
}

// Adds a bank that may be added, and says whether it may.
#[tactic(auto, using(std::proofs::lemmas::List::nil_from_length))]
fn take_bank(
    version: u8,
    banks: &mut Vec<Bank>,
    areas: &FlashMap,
    bank: Bank,
) -> Result<bool, NoMemory>
    ensures { TakesBank version banks.old.items banks.new.items areas.now bank result }
{
    if areas.len() > 0 {
        return Ok(false);
    }
    if banks.len() >= MOST_BANKS {
        return Ok(false);
    }
    if !is_lawful_bank(version, &bank) {
        return Ok(false);
    }
    banks.push(bank)?;
    Ok(true)
}

// Whether the area is not a second selector.
fn is_alone(areas: &FlashMap, role: Role) -> bool
    ensures { IsTrue result
        ↔ (is_sel role ≡ true → count_by is_selector (map plain_area areas.now) ≡ 0) }
{
    match role {
        Role::Sel => count_selectors(areas) == 0,
        Role::Nvs | Role::Zms | Role::Fcb => true,
    }
}

// Adds an area that may be added, and says whether it may.
fn take_listed(areas: &mut FlashMap, banks: &[Bank], area: Area) -> Result<bool, NoMemory>
    requires label { IsLabel area.label.bytes }
    requires version { All (HasVersion area.version) areas.old }
    ensures { TakesListed banks.now areas.old areas.new area result }
{
    if areas.len() >= MOST_AREAS {
        return Ok(false);
    }
    if !is_alone(areas, area.role) {
        return Ok(false);
    }
    take_area(areas, banks, area)
}

fn take_found(
    version: u8,
    banks: &mut Vec<Bank>,
    areas: &mut FlashMap,
    bank: Option<Bank>,
    area: Option<Area>,
) -> Result<bool, NoMemory>
    requires label { IfSome area (λ a. IsLabel a.label.bytes) }
    requires version { IfSome area (λ a. All (HasVersion a.version) areas.old) }
    ensures { TakesFound version banks.old.items banks.new.items areas.old areas.new bank area
        result }
{
    match bank {
        Some(bank) => take_bank(version, banks, areas, bank),
        None => match area {
            Some(area) => take_listed(areas, banks, area),
            None => Ok(false),
        },
    }
}

fn is_version(item: &[u8]) -> bool
    ensures { IsTrue result ↔ (item.now ≡ version_word) }
{
    item == b"version=2".as_slice()
}

// Takes version 2 if nothing was added yet, and says whether it did.
fn take_version(version: &mut u8, banks: &[Bank], areas: &FlashMap) -> bool
    ensures { TakesVersion (listed version.old banks.now areas.now)
        (listed version.new banks.now areas.now) result }
{
    if *version == 1 && banks.is_empty() && areas.len() == 0 {
        *version = 2;
        return true;
    }
    false
}

// Adds what an item describes, if it may be added, and says whether it may.
fn take_item(
    item: &[u8],
    version: &mut u8,
    banks: &mut Vec<Bank>,
    areas: &mut FlashMap,
) -> Result<bool, SpecFault>
    requires { IsListed (listed version.old banks.old.items areas.old) }
    ensures { TakesItem item.now (listed version.old banks.old.items areas.old)
        (listed version.new banks.new.items areas.new) result }
{
    if is_version(item) {
        return Ok(take_version(version, banks, areas));
    }
    let bank = bank_item(item);
    let area = area_item(item, *version);
    let taken = take_found(*version, banks, areas, bank, area)?;
    Ok(taken)
}

fn read_items(alloc: Global, word: &[u8]) -> Result<Items, SpecFault>
    ensures { ReadsItems word.now result }
{
    let mut version = 1u8;
    let mut banks = Vec::new(alloc);
    let mut areas = FlashMap::new(alloc);
    let mut count = 0u32;
    let mut rest = Some(word);
    while let Some(items) = rest {
        let (item, after) = cut_at(items, b',');
        count += 1;
        let taken = take_item(item, &mut version, &mut banks, &mut areas)?;
        if !taken {
            return Err(SpecFault::BadSpec { item: count });
        }
        rest = after;
    }
    Ok(Items {
        version,
        banks,
        areas,
        count,
    })
}

fn blank_bytes(alloc: Global, len: usize) -> Result<Vec<u8>, AllocError>
    ensures { IfOk result (λ v. v.items ≡ replicate len 255) }
{
    vec![in alloc; 255u8; len]
}

fn blank_banks(alloc: Global, banks: &[Bank]) -> Result<Vec<Vec<u8>>, AllocError>
    requires { (version : ℕ)
        × ((i : ℕ) → i < length banks.now → IsImageBank version (bank_at banks.now i)) }
    ensures { IfOk result
        (λ copies. contents copies.items ≡ map (λ bank. replicate (capacity bank) 255) banks.now) }
{
    let mut copies = Vec::new(alloc);
    for bank in banks {
        let copy = blank_bytes(alloc, capacity(bank))?;
        copies.push(copy)?;
    }
    Ok(copies)
}

/// The blank image that a word describes. All its bytes are FF.
///
/// Commas separate the items. The first may be `version=2`; without it the version is 1. Then come
/// the banks, `bank=KIND/UNIT/SECTOR/COUNT`, with unit and sector in bytes. The areas follow,
/// `area=ROLE/LABEL/BANK/FIRST/SECTORS`, with the bank and the first sector counted from 0.
///
/// # Errors
/// `BadSpec` if the word describes no image. It gives the first item that may not be added to those
/// before it, counted from 1; if an area that an image needs is missing, the number of items plus
/// 1. `NoMemory` if memory runs out.
pub fn read_spec(alloc: Global, word: &str) -> Result<Image, SpecFault>
    ensures { ReadsSpec word.now result }
{
    let items = read_items(alloc, word.as_bytes())?;
    if !has_needed(&items.areas) {
        return Err(SpecFault::BadSpec {
            item: items.count + 1,
        });
    }
    let bytes = blank_banks(alloc, &items.banks)?;
    Ok(Image {
        banks: items.banks,
        map: items.areas,
        bytes,
    })
}
