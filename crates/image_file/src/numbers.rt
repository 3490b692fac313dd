// Words of items.
ghost use Rattle.std.specs.Prelude.{◌≡◌};
ghost use Rattle.image_file.specs.Spec.{IsBankKind, IsRole, IsNumber, IsBankItem, IsAreaItem, bank_from, area_from};

use crate::fields::label_from;
use crate::parts::{five_words, four_words};
use arrayvec::ArrayString;
use flash_map::{Area, Role};
use flash_sim::{Bank, Kind};
use text_parts::read_number;

/// Numbers in items are below this.
const NUMBERS_END: u64 = 4_294_967_296;

// The number that a word is.
fn number_of(word: &[u8]) -> Option<u32>
    ensures { IsNumber word.now result }
{
    let n = read_number(word, NUMBERS_END)?;
    Some(n as u32)
}

fn kind_of(word: &[u8]) -> Option<Kind>
    ensures { IsBankKind word.now result }
{
    if word == b"bank=erasing".as_slice() {
        Some(Kind::Erasing)
    } else if word == b"bank=rewritable".as_slice() {
        Some(Kind::Rewritable)
    } else {
        None
    }
}

// The role in the first word of an area's item.
fn role_of(word: &[u8]) -> Option<Role>
    ensures { IsRole word.now result }
{
    if word == b"area=nvs".as_slice() {
        Some(Role::Nvs)
    } else if word == b"area=zms".as_slice() {
        Some(Role::Zms)
    } else if word == b"area=fcb".as_slice() {
        Some(Role::Fcb)
    } else if word == b"area=sel".as_slice() {
        Some(Role::Sel)
    } else {
        None
    }
}

fn bank_from(
    kind: Option<Kind>,
    unit: Option<u32>,
    sector: Option<u32>,
    count: Option<u32>,
) -> Option<Bank>
    ensures { result ≡ bank_from kind unit sector count }
{
    let kind = kind?;
    let unit = unit?;
    let sector = sector?;
    let count = count?;
    Some(Bank {
        kind,
        unit,
        sector,
        count,
    })
}

/// The bank that an item describes; `None` only if it describes no lawful one.
pub fn bank_item(item: &[u8]) -> Option<Bank>
    ensures { IsBankItem item.now result }
{
    let (kind, unit, sector, count) = four_words(item)?;
    bank_from(
        kind_of(kind),
        number_of(unit),
        number_of(sector),
        number_of(count),
    )
}

fn area_from(
    version: u8,
    role: Option<Role>,
    label: ArrayString<8>,
    bank: Option<u32>,
    first: Option<u32>,
    sectors: Option<u32>,
) -> Option<Area>
    ensures { result ≡ area_from version role label bank first sectors }
{
    let role = role?;
    let bank = bank?;
    let first = first?;
    let sectors = sectors?;
    Some(Area::new(label, role, bank as usize, first, sectors, version))
}

/// The area of an image of this version that an item describes; `None` only if it describes none
/// with a lawful label and numbers below 2^32.
pub fn area_item(item: &[u8], version: u8) -> Option<Area>
    ensures { IsAreaItem version item.now result }
{
    let (role, label, bank, first, sectors) = five_words(item)?;
    let label = label_from(label)?;
    area_from(
        version,
        role_of(role),
        label,
        number_of(bank),
        number_of(first),
        number_of(sectors),
    )
}
