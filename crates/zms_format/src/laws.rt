//! What the list of an area is made of, which sector is open, and what the first entry of a sector
//! spends. The functions do nothing: their contracts are the laws.

ghost use Rattle.zms_format.specs.Opens.{EachHasOneOpen, DamageHasThreeKinds};
ghost use Rattle.zms_format.specs.Parts.{EachHasItsPart};
ghost use Rattle.zms_format.specs.Units.{FirstEntryIsKnown};

/// In an area without damage each sector that counts, with at least 48 bytes, is not overfull: its
/// part of the area's list is its pairs. The list is made of the pairs of the sectors that count,
/// so it takes none from an overfull sector.
pub fn parts_of_list()
    ensures parts { EachHasItsPart }
{}

/// The units of the first entry in a sector without a cycle, its guard included, follow from the
/// bytes that the sector has before it is emptied for that entry.
pub fn first_entry_is_known()
    ensures known { FirstEntryIsKnown }
{}

/// The open sector of an area's list is the one that its damage goes by: in every image of a
/// rewritable bank, and on an erasing bank wherever there is no damage, a sector is closed, or each
/// sector may be closed. On a rewritable bank damage has three kinds: no sector is `Dirty` there.
pub fn open_sector_is_one()
    ensures one { EachHasOneOpen }
    ensures three { DamageHasThreeKinds }
{}
