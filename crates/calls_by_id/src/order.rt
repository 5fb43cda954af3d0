// The calls by id that follow the order of the entries.
ghost use Rattle.model.specs.Numbered.{numbered};
ghost use Rattle.std.specs.Prelude.{◌≡◌, ℕ, ◌<◌, ◌≤◌};
ghost use Rattle.model.specs.State.{state};
ghost use Rattle.model.specs.Kind.{kind};
ghost use Rattle.model.specs.Row as row;
ghost use Rattle.model.specs.Row.{moved};
ghost use Rattle.model.specs.Answer.{number_answer, compared_answer};
ghost use Rattle.model.specs.ById.{tree_move};
ghost use Rattle.calls_by_id.specs.Answer.{following_answer};

use calls_read::any::cursor;
use model::head::Head;
use model::number::EntryId;
use model::refusal::Refusal;
use std::cmp::Ordering;

// The position in a view of the entry id: the lengths before it.
pub fn rank(
    views: usize,
    head: Head,
    leaves: &[u32],
    inners: &[u32],
    homes: &[u32],
    view: usize,
    id: EntryId,
) -> Result<u32, Refusal>
    requires { (1 ≤ views) × (views ≤ 3) × (view < views) }
    ensures { (effect : ℕ) → moved (state head leaves.now inners.now homes.now) (number_answer (numbered result)) ≡ tree_move (kind views effect) (state head leaves.now inners.now homes.now) (row.rank view id.0) }
{
    let c = cursor(views, head, leaves, inners, homes, id)?;
    calls_read::any::entry_to_char_index(views, head, leaves, inners, homes, view, c)
}

// The entry after the entry id, or nothing after the last.
pub fn next(
    views: usize,
    head: Head,
    leaves: &[u32],
    inners: &[u32],
    homes: &[u32],
    id: EntryId,
) -> Result<Option<EntryId>, Refusal>
    requires { (1 ≤ views) × (views ≤ 3) }
    ensures { (effect : ℕ) → moved (state head leaves.now inners.now homes.now) (following_answer (numbered result)) ≡ tree_move (kind views effect) (state head leaves.now inners.now homes.now) (row.next id.0) }
{
    let c = cursor(views, head, leaves, inners, homes, id)?;
    crate::any::next(views, head, leaves, inners, homes, c)
}

// How the entry id stands to the entry other.
pub fn cmp(
    views: usize,
    head: Head,
    leaves: &[u32],
    inners: &[u32],
    homes: &[u32],
    id: EntryId,
    other: EntryId,
) -> Result<Ordering, Refusal>
    requires { (1 ≤ views) × (views ≤ 3) }
    ensures { (effect : ℕ) → moved (state head leaves.now inners.now homes.now) (compared_answer (numbered result)) ≡ tree_move (kind views effect) (state head leaves.now inners.now homes.now) (row.compare id.0 other.0) }
{
    let a = cursor(views, head, leaves, inners, homes, id)?;
    let b = cursor(views, head, leaves, inners, homes, other)?;
    calls_read::any::cmp(views, head, leaves, inners, homes, a, b)
}
