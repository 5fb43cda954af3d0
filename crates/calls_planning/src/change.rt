// The calls that change lengths of a planning tree or add an entry.
ghost use Rattle.model.specs.Numbered.{numbered};
ghost use Rattle.std.specs.Prelude.{◌≡◌};
ghost use Rattle.model.specs.State.{state};
ghost use Rattle.model.specs.Row.{moved};
ghost use Rattle.model.specs.Answer.{outcome_answer, inserted_answer};
ghost use Rattle.model.specs.ById.{divided_id_answer};
ghost use Rattle.model.specs.Plan as plan;
ghost use Rattle.model.specs.Plan.{tree_plan};
ghost use Rattle.calls_planning.specs.Bounds.{bounds_of};

use crate::bounds::Bounds;
use model::answer::Reply;
use model::head::{Cursor, Head};
use model::number::EntryId;

// An entry before the entry id or at the end: its id and its latest position.
pub fn insert(
    head: Head,
    leaves: &mut [u32],
    inners: &mut [u32],
    homes: &mut [u32],
    id: EntryId,
    bounds: Bounds,
) -> Reply<(EntryId, u32)>
    ensures { moved (state result.head leaves.new inners.new homes.new) (inserted_answer (numbered result.answer)) ≡ tree_plan (state head leaves.old inners.old homes.old) (plan.insert id.0 (bounds_of bounds)) }
{
    let next = head.entries;
    let x: [u32; 4] = [next, bounds.lowest, bounds.highest, 0];
    calls_by_id::change::insert(2, 1, true, head, leaves, inners, homes, id, &x)
}

// The lengths leave the entry id for a new one, just before it or just after.
pub fn split(
    head: Head,
    leaves: &mut [u32],
    inners: &mut [u32],
    homes: &mut [u32],
    id: EntryId,
    bounds: Bounds,
    before: bool,
) -> Reply<(EntryId, Cursor, Cursor)>
    ensures { moved (state result.head leaves.new inners.new homes.new) (divided_id_answer (numbered result.answer)) ≡ tree_plan (state head leaves.old inners.old homes.old) (plan.split before id.0 (bounds_of bounds)) }
{
    let next = head.entries;
    let x: [u32; 4] = [next, bounds.lowest, bounds.highest, 0];
    calls_by_id::change::split_entry(2, true, head, leaves, inners, homes, id, &x, before)
}

// Other lengths for the entry id.
pub fn set(
    head: Head,
    leaves: &mut [u32],
    inners: &mut [u32],
    homes: &[u32],
    id: EntryId,
    bounds: Bounds,
) -> Reply<()>
    ensures { moved (state result.head leaves.new inners.new homes.now) (outcome_answer (numbered result.answer)) ≡ tree_plan (state head leaves.old inners.old homes.now) (plan.set_lengths id.0 (bounds_of bounds)) }
{
    let x: [u32; 4] = [0, bounds.lowest, bounds.highest, 0];
    calls_by_id::change::set_lengths(2, 1, true, head, leaves, inners, homes, id, &x)
}
