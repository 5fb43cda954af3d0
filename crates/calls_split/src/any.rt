// One entry divided in two, of a tree with views lengths an entry, the first two a lowest and a highest one where they are ordered.
ghost use Rattle.model.specs.Numbered.{numbered, number_of};
ghost use Rattle.std.specs.Prelude.{◌≡◌, ℕ, ◌<◌, ◌≤◌, List, length, slice_index};
ghost use Rattle.model.specs.Length.{lengths_in};
ghost use Rattle.model.specs.Kind.{kind_of};
ghost use Rattle.model.specs.Lists.{Cause, refusal};
ghost use Rattle.model.specs.State.{state, next_stamp};
ghost use Rattle.model.specs.Refuse.{shape_of};
ghost use Rattle.model.specs.Calls as calls;
ghost use Rattle.model.specs.Calls.{reply, divided_at, split_causes};
ghost use Rattle.tree_open.specs.Open.{opened_by, replied};

use model::answer::Reply;
use model::head::{Cursor, Head};
use model::number::{EntryId, LeafNo};
use model::refusal::Refusal;
use model::shape::Shape;
use tree_open::lengths::{crossed_part, hollow_part, lengths_at, too_many_lines, too_much};
use tree_open::open::open_at;
use tree_place::entry::divide;

// What split_entry tests, too many line ends before all else, and whether there is room behind all else.
fn open_split(
    views: usize,
    ordered: bool,
    room: Result<(), Refusal>,
    head: Head,
    leaves: &[u32],
    inners: &[u32],
    homes: &[u32],
    at: Cursor,
    x: &[u32; 4],
) -> Result<Shape, Refusal>
    requires { (1 ≤ views) × (views ≤ 3) × (length x.now ≡ 4) }
    ensures { (effect : ℕ) (causes : List Cause) → refusal causes ≡ number_of room → numbered result ≡ opened_by (split_causes (kind_of views effect ordered) causes (state head leaves.now inners.now homes.now) at (lengths_in views x.now)) (shape_of (kind_of views effect ordered) head) }
{
    if too_many_lines(views, x) {
        return Err(Refusal::Field);
    }
    let g = open_at(views, head, leaves, inners, homes, at)?;
    let mut own: [u32; 4] = [0; 4];
    lengths_at(leaves, g, at.leaf, at.slot, &mut own);
    if too_much(g, x, &own) {
        return Err(Refusal::Split);
    }
    if hollow_part(g, x, &own) {
        return Err(Refusal::Hollow);
    }
    if crossed_part(views, ordered, x, &own) {
        return Err(Refusal::Bounds);
    }
    room?;
    Ok(g)
}

// The new entry's id, and the cursors of both entries in order, which bear the stamp after this one.
fn divided_at(id: EntryId, stamp: u64, leaf: LeafNo, slot: u32) -> (EntryId, Cursor, Cursor)
    requires { slot < 4294967295 }
    ensures { Ok result ≡ divided_at id.0 (next_stamp stamp) leaf.0 slot }
{
    let stamp = stamp.wrapping_add(1);
    let first = Cursor { leaf, slot, stamp };
    let second = Cursor {
        slot: slot + 1,
        ..first
    };
    (id, first, second)
}

// All that split_entry does, with the head after it. room: whether there is space.
fn split(
    views: usize,
    ordered: bool,
    room: Result<(), Refusal>,
    head: Head,
    leaves: &mut [u32],
    inners: &mut [u32],
    homes: &mut [u32],
    at: Cursor,
    x: &[u32; 4],
    before: bool,
) -> Result<(Head, (EntryId, Cursor, Cursor)), Refusal>
    requires { (1 ≤ views) × (views ≤ 3) × (slice_index x.now 0 ≡ head.entries) × (length x.now ≡ 4) × (number_of room ≡ 0 → head.entries < head.limit) }
    ensures { (effect : ℕ) (causes : List Cause) → refusal causes ≡ number_of room → replied head result leaves.new inners.new homes.new ≡ calls.split_by (kind_of views effect ordered) causes (state head leaves.old inners.old homes.old) at (lengths_in views x.now) before }
{
    let g = open_split(views, ordered, room, head, leaves, inners, homes, at, x)?;
    let r = divide(
        views, head, leaves, inners, homes, g, before, at.leaf, at.slot, x,
    )?;
    let id = EntryId(head.entries);
    Ok((r.head, divided_at(id, head.stamp, r.leaf, r.slot)))
}

// The lengths of x leave the entry at a cursor for the entry x, which is the next, just before it or just after. room: whether there
// is space.
pub fn split_entry(
    views: usize,
    ordered: bool,
    room: Result<(), Refusal>,
    head: Head,
    leaves: &mut [u32],
    inners: &mut [u32],
    homes: &mut [u32],
    at: Cursor,
    x: &[u32; 4],
    before: bool,
) -> Reply<(EntryId, Cursor, Cursor)>
    requires { (1 ≤ views) × (views ≤ 3) × (slice_index x.now 0 ≡ head.entries) × (length x.now ≡ 4) × (number_of room ≡ 0 → head.entries < head.limit) }
    ensures { (effect : ℕ) (causes : List Cause) → refusal causes ≡ number_of room → reply (state result.head leaves.new inners.new homes.new) (numbered result.answer) ≡ calls.split_by (kind_of views effect ordered) causes (state head leaves.old inners.old homes.old) at (lengths_in views x.now) before }
{
    match split(
        views, ordered, room, head, leaves, inners, homes, at, x, before,
    ) {
        Ok((head, made)) => Reply {
            head,
            answer: Ok(made),
        },
        Err(why) => Reply {
            head,
            answer: Err(why),
        },
    }
}
