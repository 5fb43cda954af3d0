// One entry more in a tree with views lengths an entry, positions answered in view effect; ordered: the first two are a lowest and a
// highest one.
ghost use Rattle.model.specs.Numbered.{numbered, number_of};
ghost use Rattle.std.specs.Prelude.{◌≡◌, List, ◌++◌, ℕ, ◌<◌, ◌≤◌, length, get_or};
ghost use Rattle.model.specs.Length.{lengths_in};
ghost use Rattle.model.specs.Kind.{kind, kind_of};
ghost use Rattle.model.specs.Lists.{Cause, refusal};
ghost use Rattle.model.specs.State.{state};
ghost use Rattle.model.specs.Refuse.{shape_of, opening};
ghost use Rattle.model.specs.Calls as calls;
ghost use Rattle.model.specs.Calls.{reply, target_causes, insert_causes};
ghost use Rattle.model.specs.declared.shape.Kind.{Kind};
ghost use Rattle.tree_area.specs.Area.{AreaHolds};
ghost use Rattle.tree_open.specs.Open.{opened_by, replied};
ghost use Rattle.calls_insert.specs.Put.{aimed};

use model::answer::Reply;
use model::head::{Cursor, Head};
use model::number::{EntryId, LeafNo};
use model::refusal::Refusal;
use model::shape::Shape;
use model::way::Broken;
use tree_area::word::len_of;
use tree_open::lengths::{crossed, past, too_many_lines};
use tree_open::open::{open, open_at};
use tree_place::entry::place;
use tree_place::size::way_sum;
use tree_walk::down::last_down;

// The slot before which an entry comes.
#[derive(Clone, Copy)]
pub struct Aim {
    pub leaf: LeafNo,
    pub slot: u32,
}

// What is tested of the tree and of a cursor.
fn open_for(
    views: usize,
    head: Head,
    leaves: &[u32],
    inners: &[u32],
    homes: &[u32],
    before: Option<Cursor>,
) -> Result<Shape, Refusal>
    requires { (1 ≤ views) × (views ≤ 3) }
    ensures { (effect : ℕ) → numbered result ≡ opened_by (opening (kind views effect) (state head leaves.now inners.now homes.now) ++ target_causes (kind views effect) (state head leaves.now inners.now homes.now) before) (shape_of (kind views effect) head) }
{
    match before {
        Some(at) => open_at(views, head, leaves, inners, homes, at),
        None => open(views, head, leaves, inners, homes),
    }
}

// All that insert tests: too many line ends before all else; behind the tree and a cursor, whether the lengths are in order, whether a
// total would pass u32, and then whether there is room.
fn open_insert(
    views: usize,
    ordered: bool,
    room: Result<(), Refusal>,
    head: Head,
    leaves: &[u32],
    inners: &[u32],
    homes: &[u32],
    before: Option<Cursor>,
    x: &[u32; 4],
) -> Result<Shape, Refusal>
    requires { (1 ≤ views) × (views ≤ 3) × (length x.now ≡ 4) }
    ensures { (effect : ℕ) (causes : List Cause) → refusal causes ≡ number_of room → numbered result ≡ opened_by (insert_causes (kind_of views effect ordered) causes (state head leaves.now inners.now homes.now) before (lengths_in views x.now)) (shape_of (kind_of views effect ordered) head) }
{
    if too_many_lines(views, x) {
        return Err(Refusal::Field);
    }
    let g = open_for(views, head, leaves, inners, homes, before)?;
    if crossed(views, ordered, x) {
        return Err(Refusal::Bounds);
    }
    let none: [u32; 4] = [0; 4];
    if past(head.root, inners, views, g.fan, g.nodes, &none, x) {
        return Err(Refusal::Total);
    }
    room?;
    Ok(g)
}

// The slot behind the last in use (last_leaf); broken where that leaf isn't one in use, or says more slots than it has.
fn aim_end(head: Head, leaves: &[u32], inners: &[u32], g: Shape) -> Result<Aim, Broken>
    requires { AreaHolds g (length leaves.now) × AreaHolds g (length inners.now) }
    ensures { (K : Kind) (hs : List ℕ) → g ≡ shape_of K head → result ≡ aimed K (state head leaves.now inners.now hs) None }
{
    let Some(k) = last_down(inners, g, head.levels, head.root)? else {
        return Err(Broken);
    };
    if head.leaves <= k.0 {
        return Err(Broken);
    }
    let len = len_of(leaves, g, k.0);
    if g.fan < len as usize {
        return Err(Broken);
    }
    Ok(Aim { leaf: k, slot: len })
}

// The slot before which the entry comes: the cursor's, or the one behind the last.
fn aim_at(
    head: Head,
    leaves: &[u32],
    inners: &[u32],
    g: Shape,
    before: Option<Cursor>,
) -> Result<Aim, Broken>
    requires { AreaHolds g (length leaves.now) × AreaHolds g (length inners.now) }
    ensures { (K : Kind) (hs : List ℕ) → g ≡ shape_of K head → result ≡ aimed K (state head leaves.now inners.now hs) before }
{
    match before {
        Some(at) => Ok(Aim {
            leaf: at.leaf,
            slot: at.slot,
        }),
        None => aim_end(head, leaves, inners, g),
    }
}

// All that insert does, with the head after it. room: whether there is space.
fn enter(
    views: usize,
    effect: usize,
    ordered: bool,
    room: Result<(), Refusal>,
    head: Head,
    leaves: &mut [u32],
    inners: &mut [u32],
    homes: &mut [u32],
    before: Option<Cursor>,
    x: &[u32; 4],
) -> Result<(Head, (EntryId, u32)), Refusal>
    requires { (1 ≤ views) × (views ≤ 3) × (effect < views) × (get_or x.now 0 0 ≡ head.entries) × (length x.now ≡ 4) × (number_of room ≡ 0 → head.entries < head.limit) }
    ensures { (causes : List Cause) → refusal causes ≡ number_of room → replied head result leaves.new inners.new homes.new ≡ calls.insert_by (kind_of views effect ordered) causes (state head leaves.old inners.old homes.old) before (lengths_in views x.now) }
{
    let g = open_insert(views, ordered, room, head, leaves, inners, homes, before, x)?;
    let to = aim_at(head, leaves, inners, g, before)?;
    let r = place(views, head, leaves, inners, homes, g, to.leaf, to.slot, x)?;
    let levels = r.head.levels;
    let sum = way_sum(
        leaves, inners, views, effect, g.fan, g.nodes, x[1], x[2], x[3], levels, r.leaf, r.slot,
    )?;
    let position = (sum % 4294967296) as u32;
    Ok((r.head, (EntryId(head.entries), position)))
}

// The entry x, which is the next, before a cursor's or at the end: its id and its position. room: whether there is space.
pub fn insert(
    views: usize,
    effect: usize,
    ordered: bool,
    room: Result<(), Refusal>,
    head: Head,
    leaves: &mut [u32],
    inners: &mut [u32],
    homes: &mut [u32],
    before: Option<Cursor>,
    x: &[u32; 4],
) -> Reply<(EntryId, u32)>
    requires { (1 ≤ views) × (views ≤ 3) × (effect < views) × (get_or x.now 0 0 ≡ head.entries) × (length x.now ≡ 4) × (number_of room ≡ 0 → head.entries < head.limit) }
    ensures { (causes : List Cause) → refusal causes ≡ number_of room → reply (state result.head leaves.new inners.new homes.new) (numbered result.answer) ≡ calls.insert_by (kind_of views effect ordered) causes (state head leaves.old inners.old homes.old) before (lengths_in views x.now) }
{
    match enter(
        views, effect, ordered, room, head, leaves, inners, homes, before, x,
    ) {
        Ok((head, made)) => Reply {
            head,
            answer: Ok(made),
        },
        Err(why) => Reply {
            head,
            answer: Err(why),
        },
    }
}
