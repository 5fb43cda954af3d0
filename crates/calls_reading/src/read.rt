// The calls that read a reading copy; the lookup keeps the finger found.
ghost use Rattle.model.specs.Numbered.{numbered};
ghost use Rattle.std.specs.Prelude.{◌≡◌};
ghost use Rattle.model.specs.State.{state};
ghost use Rattle.model.specs.Kind.{reading};
ghost use Rattle.model.specs.Row as row;
ghost use Rattle.model.specs.Row.{moved};
ghost use Rattle.model.specs.Answer.{number_answer, compared_answer};
ghost use Rattle.model.specs.ById.{tree_step};
ghost use Rattle.calls_by_id.specs.Answer.{looked_answer, following_answer};

use model::answer::Reply;
use model::head::Head;
use model::number::EntryId;
use model::refusal::Refusal;
use std::cmp::Ordering;

// The entry that holds a position, the offset into it, and its own position, twice: as the effect one and as that in view 0.
pub fn lookup(
    head: Head,
    leaves: &[u32],
    inners: &[u32],
    homes: &[u32],
    index: u32,
) -> Reply<(EntryId, u32, u32, u32)>
    ensures { moved (state result.head leaves.now inners.now homes.now) (looked_answer (numbered result.answer)) ≡ tree_step reading (state head leaves.now inners.now homes.now) (row.lookup 0 index) }
{
    calls_by_id::any::locate(1, 0, head, leaves, inners, homes, 0, index)
}

// The position of the entry id: the lengths before it.
pub fn rank(
    head: Head,
    leaves: &[u32],
    inners: &[u32],
    homes: &[u32],
    id: EntryId,
) -> Result<u32, Refusal>
    ensures { moved (state head leaves.now inners.now homes.now) (number_answer (numbered result)) ≡ tree_step reading (state head leaves.now inners.now homes.now) (row.rank 0 id.0) }
{
    calls_by_id::order::rank(1, head, leaves, inners, homes, 0, id)
}

// The entry after the entry id, or nothing after the last.
pub fn next(
    head: Head,
    leaves: &[u32],
    inners: &[u32],
    homes: &[u32],
    id: EntryId,
) -> Result<Option<EntryId>, Refusal>
    ensures { moved (state head leaves.now inners.now homes.now) (following_answer (numbered result)) ≡ tree_step reading (state head leaves.now inners.now homes.now) (row.next id.0) }
{
    calls_by_id::order::next(1, head, leaves, inners, homes, id)
}

// How the entry id stands to the entry other.
pub fn compare(
    head: Head,
    leaves: &[u32],
    inners: &[u32],
    homes: &[u32],
    id: EntryId,
    other: EntryId,
) -> Result<Ordering, Refusal>
    ensures { moved (state head leaves.now inners.now homes.now) (compared_answer (numbered result)) ≡ tree_step reading (state head leaves.now inners.now homes.now) (row.compare id.0 other.0) }
{
    calls_by_id::order::cmp(1, head, leaves, inners, homes, id, other)
}
