// The calls by id that change lengths or add an entry.
ghost use Rattle.model.specs.Numbered.{numbered};
ghost use Rattle.std.specs.Prelude.{◌≡◌, ℕ, ◌<◌, ◌≤◌, length, get_or};
ghost use Rattle.model.specs.State.{state};
ghost use Rattle.model.specs.Length.{lengths_in};
ghost use Rattle.model.specs.Kind.{kind, kind_of};
ghost use Rattle.model.specs.Row as row;
ghost use Rattle.model.specs.Row.{moved};
ghost use Rattle.model.specs.Answer.{outcome_answer, inserted_answer};
ghost use Rattle.model.specs.ById.{divided_id_answer, tree_move};
ghost use Rattle.calls_by_id.specs.Place.{place_of};

use crate::target::target;
use calls_read::any::cursor;
use calls_size::size::unnumbered;
use model::answer::Reply;
use model::head::{Cursor, Head};
use model::number::{EntryId, LeafNo, NONE};
use model::refusal::Refusal;
use tree_seats::rule::without;

// The cursor of the entry before which a new one comes; at the end there is none, and one of no account stands for it.
fn place(
    views: usize,
    head: Head,
    leaves: &[u32],
    inners: &[u32],
    homes: &[u32],
    id: EntryId,
) -> Result<Cursor, Refusal>
    requires { (1 ≤ views) × (views ≤ 3) }
    ensures { (effect : ℕ) → numbered result ≡ place_of (kind views effect) (state head leaves.now inners.now homes.now) id.0 }
{
    let i = id.0;
    if i == NONE {
        return Ok(Cursor {
            leaf: LeafNo(0),
            slot: 0,
            stamp: 0,
        });
    }
    cursor(views, head, leaves, inners, homes, id)
}

// The entry x, which is the next, before the entry id or at the end: its id and its position.
pub fn insert(
    views: usize,
    effect: usize,
    ordered: bool,
    head: Head,
    leaves: &mut [u32],
    inners: &mut [u32],
    homes: &mut [u32],
    id: EntryId,
    x: &[u32; 4],
) -> Reply<(EntryId, u32)>
    requires { (1 ≤ views) × (views ≤ 3) × (effect < views) × (get_or x.now 0 0 ≡ head.entries) × (length x.now ≡ 4) }
    ensures { moved (state result.head leaves.new inners.new homes.new) (inserted_answer (numbered result.answer)) ≡ tree_move (kind_of views effect ordered) (state head leaves.old inners.old homes.old) (row.insert id.0 (lengths_in views x.now)) }
{
    match place(views, head, leaves, inners, homes, id) {
        Err(why) => Reply {
            head,
            answer: Err(why),
        },
        Ok(c) => {
            let to = target(id, c);
            let room = without(head.limit, head.entries);
            calls_insert::any::insert(
                views, effect, ordered, room, head, leaves, inners, homes, to, x,
            )
        }
    }
}

// The lengths of x leave the entry id for the entry x, which is the next, just before it or just after.
pub fn split_entry(
    views: usize,
    ordered: bool,
    head: Head,
    leaves: &mut [u32],
    inners: &mut [u32],
    homes: &mut [u32],
    id: EntryId,
    x: &[u32; 4],
    before: bool,
) -> Reply<(EntryId, Cursor, Cursor)>
    requires { (1 ≤ views) × (views ≤ 3) × (get_or x.now 0 0 ≡ head.entries) × (length x.now ≡ 4) }
    ensures { (effect : ℕ) → moved (state result.head leaves.new inners.new homes.new) (divided_id_answer (numbered result.answer)) ≡ tree_move (kind_of views effect ordered) (state head leaves.old inners.old homes.old) (row.split before id.0 (lengths_in views x.now)) }
{
    match cursor(views, head, leaves, inners, homes, id) {
        Err(why) => Reply {
            head,
            answer: Err(why),
        },
        Ok(c) => {
            let room = without(head.limit, head.entries);
            calls_split::any::split_entry(
                views, ordered, room, head, leaves, inners, homes, c, x, before,
            )
        }
    }
}

// Other lengths for the entry id.
pub fn set_lengths(
    views: usize,
    effect: usize,
    ordered: bool,
    head: Head,
    leaves: &mut [u32],
    inners: &mut [u32],
    homes: &[u32],
    id: EntryId,
    new: &[u32; 4],
) -> Reply<()>
    requires { (1 ≤ views) × (views ≤ 3) × (effect < views) × (length new.now ≡ 4) }
    ensures { moved (state result.head leaves.new inners.new homes.now) (outcome_answer (numbered result.answer)) ≡ tree_move (kind_of views effect ordered) (state head leaves.old inners.old homes.now) (row.set_lengths id.0 (lengths_in views new.now)) }
{
    match cursor(views, head, leaves, inners, homes, id) {
        Err(why) => Reply {
            head,
            answer: Err(why),
        },
        Ok(c) => {
            let r = calls_size::any::resize(
                views, effect, ordered, head, leaves, inners, homes, c, new, false,
            );
            Reply {
                head: r.head,
                answer: unnumbered(r.answer),
            }
        }
    }
}
