// Ranges of ids.
ghost use Rattle.std.specs.Bool.{MatchBool};
ghost use Rattle.named_items.specs.CandidateIds.{IsCandidateId};

use item_store::IdRange;

/// Whether the id is one of the range.
pub(crate) fn contains(ids: &IdRange, id: u32) -> bool
    ensures { MatchBool result (IsCandidateId ids.now id) (¬ IsCandidateId ids.now id) }
{
    ids.least <= id && id <= ids.most
}
