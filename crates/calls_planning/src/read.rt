// The calls that read a planning tree.
ghost use Rattle.model.specs.Numbered.{numbered};
ghost use Rattle.std.specs.Prelude.{◌≡◌};
ghost use Rattle.model.specs.State.{state};
ghost use Rattle.model.specs.Kind.{planning};
ghost use Rattle.model.specs.Row.{moved};
ghost use Rattle.model.specs.Answer.{number_answer};
ghost use Rattle.model.specs.Audit.{audit};
ghost use Rattle.model.specs.Calls.{entry_lengths};
ghost use Rattle.model.specs.Plan as plan;
ghost use Rattle.model.specs.Plan.{tree_plan};
ghost use Rattle.calls_by_id.specs.Answer.{following_answer};
ghost use Rattle.calls_planning.specs.Bounds.{ranged_answer};

use crate::bounds::Bounds;
use calls_by_id::order::rank;
use calls_read::any::cursor;
use model::head::{Cursor, Head};
use model::number::EntryId;
use model::refusal::Refusal;

// The lengths of the entry at a cursor.
fn lengths_of(
    head: Head,
    leaves: &[u32],
    inners: &[u32],
    homes: &[u32],
    at: Cursor,
) -> Result<Bounds, Refusal>
    ensures { ranged_answer (numbered result) ≡ entry_lengths planning (state head leaves.now inners.now homes.now) at }
{
    let mut x: [u32; 4] = [0; 4];
    calls_read::any::lengths(2, head, leaves, inners, homes, at, &mut x)?;
    Ok(Bounds {
        lowest: x[1],
        highest: x[2],
    })
}

// The lengths of the entry id.
pub fn lengths(
    head: Head,
    leaves: &[u32],
    inners: &[u32],
    homes: &[u32],
    id: EntryId,
) -> Result<Bounds, Refusal>
    ensures { moved (state head leaves.now inners.now homes.now) (ranged_answer (numbered result)) ≡ tree_plan (state head leaves.now inners.now homes.now) (plan.lengths id.0) }
{
    let c = cursor(2, head, leaves, inners, homes, id)?;
    lengths_of(head, leaves, inners, homes, c)
}

// How many entries the tree has.
pub fn count(head: Head, leaves: &[u32], inners: &[u32], homes: &[u32]) -> Result<u32, Refusal>
    ensures { moved (state head leaves.now inners.now homes.now) (number_answer (numbered result)) ≡ tree_plan (state head leaves.now inners.now homes.now) plan.count }
{
    calls_by_id::any::len(2, head, leaves, inners, homes)
}

// The entry after the entry id, or nothing after the last.
pub fn next(
    head: Head,
    leaves: &[u32],
    inners: &[u32],
    homes: &[u32],
    id: EntryId,
) -> Result<Option<EntryId>, Refusal>
    ensures { moved (state head leaves.now inners.now homes.now) (following_answer (numbered result)) ≡ tree_plan (state head leaves.now inners.now homes.now) (plan.next id.0) }
{
    calls_by_id::order::next(2, head, leaves, inners, homes, id)
}

// The least position that the entry id can have: the lowest lengths before it.
pub fn earliest(
    head: Head,
    leaves: &[u32],
    inners: &[u32],
    homes: &[u32],
    id: EntryId,
) -> Result<u32, Refusal>
    ensures { moved (state head leaves.now inners.now homes.now) (number_answer (numbered result)) ≡ tree_plan (state head leaves.now inners.now homes.now) (plan.earliest id.0) }
{
    rank(2, head, leaves, inners, homes, 0, id)
}

// The greatest: the highest lengths before it.
pub fn latest(
    head: Head,
    leaves: &[u32],
    inners: &[u32],
    homes: &[u32],
    id: EntryId,
) -> Result<u32, Refusal>
    ensures { moved (state head leaves.now inners.now homes.now) (number_answer (numbered result)) ≡ tree_plan (state head leaves.now inners.now homes.now) (plan.latest id.0) }
{
    rank(2, head, leaves, inners, homes, 1, id)
}

// Whether the tree is sound.
pub fn audit(head: Head, leaves: &[u32], inners: &[u32], homes: &[u32]) -> Result<bool, Refusal>
    ensures { numbered result ≡ audit planning (state head leaves.now inners.now homes.now) }
{
    calls_audit::any::audit(2, 1, true, head, leaves, inners, homes)
}
