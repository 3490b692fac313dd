// Reading an image's file.
ghost use Rattle.std.specs.Prelude.{◌≡◌, ◌∷◌, [], ℕ, ◌+◌, ◌*◌, ◌<◌, ◌≤◌, ◌↔◌, length, map, slice_index, IsTrue};
ghost use Rattle.flash_sim.specs.Bank.{bank_at, capacity};
ghost use Rattle.flash_sim.specs.Contents.{contents};
ghost use Rattle.image_file.specs.declared.image.ImageFault.TheVariants.{Bad};
ghost use Rattle.image_file.specs.declared.image.ImageWhy.TheVariants.{Short};
ghost use Rattle.image_file.specs.declared.lawful.TheConstants.{MOST_BANKS, MOST_AREAS};
ghost use Rattle.image_file.specs.Format.{plain_area};
ghost use Rattle.image_file.specs.Lawful.{IsImageBank};
ghost use Rattle.image_file.specs.Said.{bank_said, version_said, field_at, bank_place, area_place, bank_count, area_count, banks_said, areas_said, all_banks, all_areas, contents_place, contents_said};
ghost use Rattle.image_file.specs.Table.{BankAt, AreaAt, ContentsAt, Departs, FirstFault, Holds, AllHold, header_rows, rows_of, contents_rows};
ghost use Rattle.image_file.specs.Reading.{Reads, ByteWithin, ByteFault, ReadsImage};

use crate::fields::{area_of, bank_of, field};
use crate::image::{Image, ImageFault, ImageWhy};
use crate::lawful::{capacity, has_needed, take_area};
use flash_map::FlashMap;
use flash_sim::Bank;
use std::alloc::Global;

// The version of a file, and how many banks and areas it has.
#[derive(Clone, Copy)]
struct Counts {
    version: u8,
    banks: usize,
    areas: usize,
}

fn bad(at: usize, why: ImageWhy) -> ImageFault
    ensures { result ≡ Bad at why }
{
    ImageFault::Bad { at: at as u64, why }
}

fn byte_at(bytes: &[u8], at: usize) -> Result<u8, ImageFault>
    requires { at ≤ length bytes.now }
    ensures { Reads (λ byte. (at + 1 ≤ length bytes.now) × (byte ≡ slice_index bytes.now at))
        (λ place why. (length bytes.now < at + 1) × (place ≡ length bytes.now) × (why ≡ Short))
        result }
{
    let text = field(bytes, at, 1)?;
    Ok(text[0])
}

// The byte at this place, if it is from `least` to `most`.
fn byte_within(
    bytes: &[u8],
    at: usize,
    least: u8,
    most: u8,
    why: ImageWhy,
) -> Result<u8, ImageFault>
    requires { at ≤ length bytes.now }
    ensures { Reads (ByteWithin bytes.now at least most) (ByteFault bytes.now at least most why)
        result }
{
    let byte = byte_at(bytes, at)?;
    if !(least..=most).contains(&byte) {
        return Err(bad(at, why));
    }
    Ok(byte)
}

// Whether a text is the letters that a file begins with.
fn is_magic(text: &[u8]) -> bool
    ensures { IsTrue result ↔ (text.now ≡ 0x5A ∷ 0x53 ∷ 0x49 ∷ 0x4D ∷ []) }
{
    text == b"ZSIM".as_slice()
}

// The first eight bytes.
fn read_header(bytes: &[u8]) -> Result<Counts, ImageFault>
    ensures { Reads
        (λ counts. AllHold bytes.now header_rows × (counts.version ≡ version_said bytes.now)
        × (counts.banks ≡ bank_count bytes.now) × (counts.areas ≡ area_count bytes.now))
        (FirstFault bytes.now header_rows) result }
{
    if !is_magic(field(bytes, 0, 4)?) {
        return Err(bad(0, ImageWhy::BadMagic));
    }
    let version = byte_within(bytes, 4, 1, 2, ImageWhy::BadVersion)?;
    let banks = byte_within(bytes, 5, 1, 2, ImageWhy::BadBank)?;
    let areas = byte_within(bytes, 6, 1, 8, ImageWhy::BadArea)?;
    byte_within(bytes, 7, 0, 0, ImageWhy::BadVersion)?;
    Ok(Counts {
        version,
        banks: usize::from(banks),
        areas: usize::from(areas),
    })
}

// The bank of this number.
fn read_bank(bytes: &[u8], version: u8, i: usize) -> Result<Bank, ImageFault>
    requires version { version ≡ version_said bytes.now }
    requires few { i < MOST_BANKS }
    requires there { bank_place i ≤ length bytes.now }
    ensures { Reads
        (λ bank. (bank ≡ bank_said (field_at bytes.now (bank_place i) 12))
        × Holds bytes.now (BankAt i)) (Departs bytes.now (BankAt i)) result }
{
    let at = 8 + 12 * i;
    let text = field(bytes, at, 12)?;
    let Some(bank) = bank_of(version, text) else {
        return Err(bad(at, ImageWhy::BadBank));
    };
    Ok(bank)
}

fn read_banks(
    alloc: Global,
    bytes: &[u8],
    version: u8,
    count: usize,
) -> Result<Vec<Bank>, ImageFault>
    requires version { version ≡ version_said bytes.now }
    requires few { count ≤ MOST_BANKS }
    requires there { 8 ≤ length bytes.now }
    ensures { Reads
        (λ banks. (banks.items ≡ banks_said bytes.now count)
        × AllHold bytes.now (rows_of BankAt count)) (FirstFault bytes.now (rows_of BankAt count))
        result }
{
    let mut banks = Vec::new(alloc);
    for i in 0..count {
        let bank = read_bank(bytes, version, i)?;
        banks.push(bank)?;
    }
    Ok(banks)
}

// Reads the area of this number and adds it to those before it.
fn read_area(
    bytes: &[u8],
    version: u8,
    i: usize,
    banks: &[Bank],
    areas: &mut FlashMap,
) -> Result<(), ImageFault>
    requires version { version ≡ version_said bytes.now }
    requires few { i < MOST_AREAS }
    requires few_banks { bank_count bytes.now ≤ MOST_BANKS }
    requires banks { banks.now ≡ all_banks bytes.now }
    requires areas { map plain_area areas.old ≡ areas_said bytes.now i }
    requires there { area_place bytes.now i ≤ length bytes.now }
    ensures { Reads
        (λ _. (map plain_area areas.new ≡ areas_said bytes.now (i + 1))
        × Holds bytes.now (AreaAt i)) (Departs bytes.now (AreaAt i)) result }
{
    let at = 8 + 12 * banks.len() + 16 * i;
    let text = field(bytes, at, 16)?;
    let Some(area) = area_of(version, text) else {
        return Err(ImageFault::Bad {
            at: at as u64,
            why: ImageWhy::BadArea,
        });
    };
    if !take_area(areas, banks, area)? {
        return Err(ImageFault::Bad {
            at: at as u64,
            why: ImageWhy::BadArea,
        });
    }
    Ok(())
}

fn read_areas(
    alloc: Global,
    bytes: &[u8],
    version: u8,
    banks: &[Bank],
    count: usize,
) -> Result<FlashMap, ImageFault>
    requires version { version ≡ version_said bytes.now }
    requires few { count ≤ MOST_AREAS }
    requires few_banks { bank_count bytes.now ≤ MOST_BANKS }
    requires banks { banks.now ≡ all_banks bytes.now }
    requires there { area_place bytes.now 0 ≤ length bytes.now }
    ensures { Reads
        (λ areas. (map plain_area areas ≡ areas_said bytes.now count)
        × AllHold bytes.now (rows_of AreaAt count)) (FirstFault bytes.now (rows_of AreaAt count))
        result }
{
    let mut areas = FlashMap::new(alloc);
    for i in 0..count {
        read_area(bytes, version, i, banks, &mut areas)?;
    }
    Ok(areas)
}

// The bytes of each bank, and nothing behind them.
fn read_contents(
    alloc: Global,
    bytes: &[u8],
    banks: &[Bank],
    start: usize,
) -> Result<Vec<Vec<u8>>, ImageFault>
    requires banks { banks.now ≡ all_banks bytes.now }
    requires lawful { (i : ℕ) → i < length banks.now
        → IsImageBank (version_said bytes.now) (bank_at banks.now i) }
    requires start { start ≡ contents_place bytes.now 0 }
    requires there { start ≤ length bytes.now }
    ensures { Reads
        (λ copies. (contents copies.items ≡ contents_said bytes.now (bank_count bytes.now))
        × AllHold bytes.now (contents_rows bytes.now))
        (FirstFault bytes.now (contents_rows bytes.now)) result }
{
    let mut copies = Vec::new(alloc);
    let mut at = start;
    for bank in banks {
        let text = field(bytes, at, capacity(bank))?;
        let copy = Vec::from_slice(alloc, text)?;
        copies.push(copy)?;
        at += text.len();
    }
    if at < bytes.len() {
        return Err(ImageFault::Bad {
            at: at as u64,
            why: ImageWhy::Long,
        });
    }
    Ok(copies)
}

/// Reads the bytes of a file as an image.
///
/// # Errors
/// `Bad` if the bytes are no image's file: it gives the first byte that departs from the format,
/// counted from 0, and how it departs. `NoMemory` if memory runs out.
pub fn read_image(alloc: Global, bytes: &[u8]) -> Result<Image, ImageFault>
    ensures { ReadsImage bytes.now result }
{
    let counts = read_header(bytes)?;
    let banks = read_banks(alloc, bytes, counts.version, counts.banks)?;
    let map = read_areas(alloc, bytes, counts.version, &banks, counts.areas)?;
    if !has_needed(&map) {
        return Err(ImageFault::Bad {
            at: 6,
            why: ImageWhy::BadArea,
        });
    }
    let start = 8 + 12 * counts.banks + 16 * counts.areas;
    let copies = read_contents(alloc, bytes, &banks, start)?;
    Ok(Image {
        banks,
        map,
        bytes: copies,
    })
}
