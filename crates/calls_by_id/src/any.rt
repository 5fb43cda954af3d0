// The count, and the calls whose answer names an entry by its id, on a tree with views lengths an entry, positions answered in view effect.
ghost use Rattle.model.specs.Numbered.{numbered};
ghost use Rattle.std.specs.Prelude.{◌≡◌, ℕ, ◌<◌, ◌≤◌};
ghost use Rattle.model.specs.State.{state};
ghost use Rattle.model.specs.Kind.{kind};
ghost use Rattle.model.specs.Row as row;
ghost use Rattle.model.specs.Row.{moved};
ghost use Rattle.model.specs.Answer.{number_answer};
ghost use Rattle.model.specs.Calls as calls;
ghost use Rattle.model.specs.ById.{located_answer, next_answer, tree_move};
ghost use Rattle.calls_by_id.specs.Answer.{looked_answer, following_answer};

use calls_read::any::id;
use model::answer::Reply;
use model::head::{Cursor, Head};
use model::number::EntryId;
use model::refusal::Refusal;
use tree_open::open::open_areas;

// What a lookup answered, with the id in the cursor's place.
fn at_id(
    views: usize,
    head: Head,
    leaves: &[u32],
    inners: &[u32],
    homes: &[u32],
    found: Result<(Cursor, u32, u32, u32), Refusal>,
) -> Result<(EntryId, u32, u32, u32), Refusal>
    requires { (1 ≤ views) × (views ≤ 3) }
    ensures { (effect : ℕ) → looked_answer (numbered result) ≡ located_answer (kind views effect) (state head leaves.now inners.now homes.now) (numbered found) }
{
    let (at, offset, position, prepare) = found?;
    let i = id(views, head, leaves, inners, homes, at)?;
    Ok((i, offset, position, prepare))
}

// The entry that holds a position in a view, the offset into it, and its effect and prepare positions.
pub fn locate(
    views: usize,
    effect: usize,
    head: Head,
    leaves: &[u32],
    inners: &[u32],
    homes: &[u32],
    view: usize,
    index: u32,
) -> Reply<(EntryId, u32, u32, u32)>
    requires { (1 ≤ views) × (views ≤ 3) × (effect < views) × (view < views) }
    ensures { moved (state result.head leaves.now inners.now homes.now) (looked_answer (numbered result.answer)) ≡ tree_move (kind views effect) (state head leaves.now inners.now homes.now) (row.lookup view index) }
{
    let r = calls_read::any_lookup::locate(views, effect, head, leaves, inners, homes, view, index);
    Reply {
        head: r.head,
        answer: at_id(views, r.head, leaves, inners, homes, r.answer),
    }
}

// The id of the entry after the one at a cursor, or nothing after the last.
pub fn next(
    views: usize,
    head: Head,
    leaves: &[u32],
    inners: &[u32],
    homes: &[u32],
    at: Cursor,
) -> Result<Option<EntryId>, Refusal>
    requires { (1 ≤ views) × (views ≤ 3) }
    ensures { (effect : ℕ) → following_answer (numbered result) ≡ next_answer (kind views effect) (state head leaves.now inners.now homes.now) (calls.next_after (kind views effect) (state head leaves.now inners.now homes.now) at) }
{
    let Some(c) = calls_read::any::next(views, head, leaves, inners, homes, at)? else {
        return Ok(None);
    };
    let i = id(views, head, leaves, inners, homes, c)?;
    Ok(Some(i))
}

// How many entries the tree has.
pub fn len(
    views: usize,
    head: Head,
    leaves: &[u32],
    inners: &[u32],
    homes: &[u32],
) -> Result<u32, Refusal>
    requires { (1 ≤ views) × (views ≤ 3) }
    ensures { (effect : ℕ) → moved (state head leaves.now inners.now homes.now) (number_answer (numbered result)) ≡ tree_move (kind views effect) (state head leaves.now inners.now homes.now) row.count }
{
    let fan = head.fan;
    let limit = head.limit;
    let _ = open_areas(views, fan, limit, leaves, inners, homes)?;
    calls_read::read::len(head)
}
