// The calls by id that follow the order of the entries.
ghost use Rattle.model.specs.Numbered.{numbered};
ghost use Rattle.std.specs.Prelude.{◌≡◌};
ghost use Rattle.model.specs.State.{state};
ghost use Rattle.model.specs.Kind.{base};
ghost use Rattle.model.specs.Row as row;
ghost use Rattle.model.specs.Row.{moved};
ghost use Rattle.model.specs.Answer.{named_answer};
ghost use Rattle.model.specs.Calls as calls;
ghost use Rattle.model.specs.ById.{next_answer, tree_step};
ghost use Rattle.calls_by_id.specs.Answer.{following_answer};

use calls_read::read::id;
use model::head::{Cursor, Head};
use model::number::EntryId;
use model::refusal::Refusal;

// The first entry.
pub fn first(head: Head, leaves: &[u32], inners: &[u32], homes: &[u32]) -> Result<EntryId, Refusal>
    ensures { moved (state head leaves.now inners.now homes.now) (named_answer (numbered result)) ≡ tree_step base (state head leaves.now inners.now homes.now) row.first }
{
    let c = calls_read::order::first(head, leaves, inners, homes)?;
    id(head, leaves, inners, homes, c)
}

// The id of the entry after the one at a cursor, or nothing after the last.
pub fn next(
    head: Head,
    leaves: &[u32],
    inners: &[u32],
    homes: &[u32],
    at: Cursor,
) -> Result<Option<EntryId>, Refusal>
    ensures { following_answer (numbered result) ≡ next_answer base (state head leaves.now inners.now homes.now) (calls.next_after base (state head leaves.now inners.now homes.now) at) }
{
    crate::any::next(3, head, leaves, inners, homes, at)
}
