// The calls that read a count or one entry.
ghost use Rattle.model.specs.Numbered.{numbered};
ghost use Rattle.std.specs.Prelude.{◌≡◌};
ghost use Rattle.model.specs.State.{state};
ghost use Rattle.model.specs.Kind.{base};
ghost use Rattle.model.specs.Answer.{measured_answer};
ghost use Rattle.model.specs.Calls as calls;

use model::head::{Cursor, Head};
use model::length::Lengths;
use model::number::EntryId;
use model::refusal::Refusal;
use tree_open::open::bad_size;

// How many entries the tree has.
pub fn len(head: Head) -> Result<u32, Refusal>
    ensures { numbered result ≡ calls.len head }
{
    if bad_size(head.fan, head.limit) {
        return Err(Refusal::Size);
    }
    Ok(head.entries)
}

// No: a tree has at least one entry.
pub fn is_empty(head: Head) -> Result<bool, Refusal>
    ensures { numbered result ≡ calls.is_empty head }
{
    if bad_size(head.fan, head.limit) {
        return Err(Refusal::Size);
    }
    Ok(false)
}

// The id of the entry at a cursor.
pub fn id(
    head: Head,
    leaves: &[u32],
    inners: &[u32],
    homes: &[u32],
    at: Cursor,
) -> Result<EntryId, Refusal>
    ensures { numbered result ≡ calls.id base (state head leaves.now inners.now homes.now) at }
{
    crate::any::id(3, head, leaves, inners, homes, at)
}

// The lengths of the entry at a cursor.
pub fn lengths(
    head: Head,
    leaves: &[u32],
    inners: &[u32],
    homes: &[u32],
    at: Cursor,
) -> Result<Lengths, Refusal>
    ensures { measured_answer (numbered result) ≡ calls.entry_lengths base (state head leaves.now inners.now homes.now) at }
{
    let mut x: [u32; 4] = [0; 4];
    crate::any::lengths(3, head, leaves, inners, homes, at, &mut x)?;
    Ok(Lengths {
        prepare: x[1],
        effect: x[2],
        lines: x[3],
    })
}

// The cursor of an entry.
pub fn cursor(
    head: Head,
    leaves: &[u32],
    inners: &[u32],
    homes: &[u32],
    id: EntryId,
) -> Result<Cursor, Refusal>
    ensures { numbered result ≡ calls.cursor base (state head leaves.now inners.now homes.now) id.0 }
{
    crate::any::cursor(3, head, leaves, inners, homes, id)
}
