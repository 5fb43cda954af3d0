// The calls that change lengths of a reading copy or add an entry.
ghost use Rattle.model.specs.Numbered.{numbered};
ghost use Rattle.std.specs.Prelude.{◌≡◌, [], ◌∷◌};
ghost use Rattle.model.specs.State.{state};
ghost use Rattle.model.specs.Kind.{reading};
ghost use Rattle.model.specs.Row as row;
ghost use Rattle.model.specs.Row.{moved};
ghost use Rattle.model.specs.Answer.{outcome_answer, inserted_answer};
ghost use Rattle.model.specs.ById.{divided_id_answer, tree_step};

use model::answer::Reply;
use model::head::{Cursor, Head};
use model::number::EntryId;

// An entry before the entry id or at the end: its id and its position.
pub fn insert(
    head: Head,
    leaves: &mut [u32],
    inners: &mut [u32],
    homes: &mut [u32],
    id: EntryId,
    length: u32,
) -> Reply<(EntryId, u32)>
    ensures { moved (state result.head leaves.new inners.new homes.new) (inserted_answer (numbered result.answer)) ≡ tree_step reading (state head leaves.old inners.old homes.old) (row.insert id.0 (length ∷ [])) }
{
    let next = head.entries;
    let x: [u32; 4] = [next, length, 0, 0];
    calls_by_id::change::insert(1, 0, false, head, leaves, inners, homes, id, &x)
}

// The length leaves the entry id for a new one, just before it or just after.
pub fn split(
    head: Head,
    leaves: &mut [u32],
    inners: &mut [u32],
    homes: &mut [u32],
    id: EntryId,
    length: u32,
    before: bool,
) -> Reply<(EntryId, Cursor, Cursor)>
    ensures { moved (state result.head leaves.new inners.new homes.new) (divided_id_answer (numbered result.answer)) ≡ tree_step reading (state head leaves.old inners.old homes.old) (row.split before id.0 (length ∷ [])) }
{
    let next = head.entries;
    let x: [u32; 4] = [next, length, 0, 0];
    calls_by_id::change::split_entry(1, false, head, leaves, inners, homes, id, &x, before)
}

// Another length for the entry id.
pub fn set(
    head: Head,
    leaves: &mut [u32],
    inners: &mut [u32],
    homes: &[u32],
    id: EntryId,
    length: u32,
) -> Reply<()>
    ensures { moved (state result.head leaves.new inners.new homes.now) (outcome_answer (numbered result.answer)) ≡ tree_step reading (state head leaves.old inners.old homes.now) (row.set_lengths id.0 (length ∷ [])) }
{
    let x: [u32; 4] = [0, length, 0, 0];
    calls_by_id::change::set_lengths(1, 0, false, head, leaves, inners, homes, id, &x)
}
