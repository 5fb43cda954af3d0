// The calls that read one entry or follow the order of the entries, on a tree with views lengths an entry.
ghost use Rattle.model.specs.Numbered.{numbered, number_of};
ghost use Rattle.std.specs.Prelude.{◌≡◌, ℕ, ◌<◌, ◌≤◌, [], length};
ghost use Rattle.model.specs.Kind.{kind};
ghost use Rattle.model.specs.Length.{lengths_in};
ghost use Rattle.model.specs.Node.{used, index_from};
ghost use Rattle.model.specs.State.{state, node_at};
ghost use Rattle.model.specs.Calls as calls;
ghost use Rattle.tree_area.specs.Area.{AreaHolds};
ghost use Rattle.calls_read.specs.Read.{cursor_in, lengths_by};
ghost use Rattle.model.specs.Climb.{steps_up};
ghost use Rattle.tree_walk.specs.PathSteps.{steps_by};

use model::head::{Cursor, Head, Path};
use model::number::{EntryId, LeafNo, NodeNo};
use model::refusal::Refusal;
use model::shape::Shape;
use std::cmp::Ordering;
use tree_area::word::{at_of, child_of, len_of, parent_of, start_in};
use tree_open::lengths::lengths_at;
use tree_open::open::{current, open, open_at};
use tree_walk::climb::{in_order, rank_up, steps_up};
use tree_walk::down::{first_down, next_up};

// The id of the entry at a cursor.
pub fn id(
    views: usize,
    head: Head,
    leaves: &[u32],
    inners: &[u32],
    homes: &[u32],
    at: Cursor,
) -> Result<EntryId, Refusal>
    requires { (1 ≤ views) × (views ≤ 3) }
    ensures { (effect : ℕ) → numbered result ≡ calls.id (kind views effect) (state head leaves.now inners.now homes.now) at }
{
    let g = open_at(views, head, leaves, inners, homes, at)?;
    let id = child_of(leaves, g, at.leaf.0, at.slot as usize);
    Ok(EntryId(id))
}

// The lengths of the entry at a cursor, into x.
pub fn lengths(
    views: usize,
    head: Head,
    leaves: &[u32],
    inners: &[u32],
    homes: &[u32],
    at: Cursor,
    x: &mut [u32; 4],
) -> Result<(), Refusal>
    requires { (1 ≤ views) × (views ≤ 3) × (length x.old ≡ 4) }
    ensures { ((effect : ℕ) → lengths_by (number_of result) (lengths_in views x.new) ≡ calls.entry_lengths (kind views effect) (state head leaves.now inners.now homes.now) at) × (length x.new ≡ 4) }
{
    let g = open_at(views, head, leaves, inners, homes, at)?;
    lengths_at(leaves, g, at.leaf, at.slot, x);
    Ok(())
}

// The slot of leaf k that holds the entry id.
fn slot_of(leaves: &[u32], g: Shape, k: LeafNo, id: EntryId) -> Option<usize>
    requires { AreaHolds g (length leaves.now) × (k.0 < g.nodes) × ((node_at g k.0 leaves.now).len ≤ g.fan) }
    ensures { result ≡ index_from id.0 0 (used (node_at g k.0 leaves.now)) }
{
    let a = k.0 as usize * g.size;
    tree_node::read::index_of(&leaves[a..a + g.size], g, id.0).place
}

// The cursor of the entry id, where leaf k holds it.
fn cursor_in(
    leaves: &[u32],
    g: Shape,
    k: LeafNo,
    id: EntryId,
    stamp: u64,
) -> Result<Cursor, Refusal>
    requires { AreaHolds g (length leaves.now) × (k.0 < g.nodes) }
    ensures { numbered result ≡ cursor_in g leaves.now k.0 id.0 stamp }
{
    if len_of(leaves, g, k.0) as usize > g.fan {
        return Err(Refusal::Link);
    }
    let i = slot_of(leaves, g, k, id).ok_or(Refusal::Link)?;
    Ok(Cursor {
        leaf: k,
        slot: i as u32,
        stamp,
    })
}

// The cursor of an entry.
pub fn cursor(
    views: usize,
    head: Head,
    leaves: &[u32],
    inners: &[u32],
    homes: &[u32],
    id: EntryId,
) -> Result<Cursor, Refusal>
    requires { (1 ≤ views) × (views ≤ 3) }
    ensures { (effect : ℕ) → numbered result ≡ calls.cursor (kind views effect) (state head leaves.now inners.now homes.now) id.0 }
{
    let g = open(views, head, leaves, inners, homes)?;
    let i = id.0;
    if head.entries <= i {
        return Err(Refusal::Id);
    }
    let k = homes[i as usize];
    if k >= head.leaves {
        return Err(Refusal::Link);
    }
    cursor_in(leaves, g, LeafNo(k), id, head.stamp)
}

// The position in a view of the entry at a cursor: the lengths before it.
pub fn entry_to_char_index(
    views: usize,
    head: Head,
    leaves: &[u32],
    inners: &[u32],
    homes: &[u32],
    view: usize,
    at: Cursor,
) -> Result<u32, Refusal>
    requires { (1 ≤ views) × (views ≤ 3) × (view < views) }
    ensures { (effect : ℕ) → numbered result ≡ calls.entry_to_char_index (kind views effect) (state head leaves.now inners.now homes.now) view at }
{
    let g = open_at(views, head, leaves, inners, homes, at)?;
    let k = at.leaf.0;
    let before = start_in(leaves, g, view, k, at.slot);
    let parent = parent_of(leaves, g, k);
    let place = at_of(leaves, g, k);
    let n = rank_up(inners, g, view, head.levels, NodeNo(parent), place, before)?;
    Ok((n % 4294967296) as u32)
}

// The cursor of the first entry.
pub fn first(
    views: usize,
    head: Head,
    leaves: &[u32],
    inners: &[u32],
    homes: &[u32],
) -> Result<Cursor, Refusal>
    requires { (1 ≤ views) × (views ≤ 3) }
    ensures { (effect : ℕ) → numbered result ≡ calls.first (kind views effect) (state head leaves.now inners.now homes.now) }
{
    let g = open(views, head, leaves, inners, homes)?;
    let leaf = first_down(inners, g, head.levels, head.root.0)?.ok_or(Refusal::Link)?;
    Ok(Cursor {
        leaf,
        slot: 0,
        stamp: head.stamp,
    })
}

// The cursor of the entry after the one at a cursor, or nothing after the last.
pub fn next(
    views: usize,
    head: Head,
    leaves: &[u32],
    inners: &[u32],
    homes: &[u32],
    at: Cursor,
) -> Result<Option<Cursor>, Refusal>
    requires { (1 ≤ views) × (views ≤ 3) }
    ensures { (effect : ℕ) → numbered result ≡ calls.next_after (kind views effect) (state head leaves.now inners.now homes.now) at }
{
    let g = open_at(views, head, leaves, inners, homes, at)?;
    let stamp = head.stamp;
    let k = at.leaf.0;
    let i = at.slot + 1;
    if i < len_of(leaves, g, k) {
        return Ok(Some(Cursor {
            leaf: at.leaf,
            slot: i,
            stamp,
        }));
    }
    let parent = parent_of(leaves, g, k);
    let place = at_of(leaves, g, k);
    let after = next_up(inners, g, head.levels, NodeNo(parent), place)?;
    // By arms: of a `map` no edit of the end alone is refused for its value.
    match after {
        Some(leaf) => Ok(Some(Cursor {
            leaf,
            slot: 0,
            stamp,
        })),
        None => Ok(None),
    }
}

// The steps from the root down to leaf k, into the front of steps; whether the way was whole.
fn path(
    leaves: &[u32],
    inners: &[u32],
    g: Shape,
    levels: u32,
    k: LeafNo,
    steps: &mut [u8; 16],
) -> bool
    requires { AreaHolds g (length leaves.now) × AreaHolds g (length inners.now) × (k.0 < g.nodes) × (levels ≤ 15) × (length steps.old ≡ 16) }
    ensures { (steps_by result levels steps.new ≡ steps_up g levels (node_at g k.0 leaves.now).parent (node_at g k.0 leaves.now).at [] inners.now) × (length steps.new ≡ 16) }
{
    let parent = parent_of(leaves, g, k.0);
    let place = at_of(leaves, g, k.0);
    steps_up(inners, g, levels, NodeNo(parent), place, steps)
}

// The leaves a and b by their paths. The steps are lent, not copied: bytes written one by one and then read as one block stall the
// processor.
fn by_path(
    leaves: &[u32],
    inners: &[u32],
    g: Shape,
    levels: u32,
    a: LeafNo,
    b: LeafNo,
) -> Result<Ordering, Refusal>
    requires { AreaHolds g (length leaves.now) × AreaHolds g (length inners.now) × (a.0 < g.nodes) × (b.0 < g.nodes) × (1 ≤ levels) × (levels ≤ 15) }
    ensures { numbered result ≡ calls.by_path (steps_up g levels (node_at g a.0 leaves.now).parent (node_at g a.0 leaves.now).at [] inners.now) (steps_up g levels (node_at g b.0 leaves.now).parent (node_at g b.0 leaves.now).at [] inners.now) }
{
    let len = levels as usize;
    let mut x = Path {
        steps: [0; 16],
        len,
    };
    let mut y = Path {
        steps: [0; 16],
        len,
    };
    if !path(leaves, inners, g, levels, a, &mut x.steps)
        || !path(leaves, inners, g, levels, b, &mut y.steps)
    {
        return Err(Refusal::Link);
    }
    in_order(&x.steps, &y.steps, x.len)
}

// How the entry at a stands to the entry at b.
pub fn cmp(
    views: usize,
    head: Head,
    leaves: &[u32],
    inners: &[u32],
    homes: &[u32],
    a: Cursor,
    b: Cursor,
) -> Result<Ordering, Refusal>
    requires { (1 ≤ views) × (views ≤ 3) }
    ensures { (effect : ℕ) → numbered result ≡ calls.cmp (kind views effect) (state head leaves.now inners.now homes.now) a b }
{
    let g = open(views, head, leaves, inners, homes)?;
    current(head, leaves, g, a)?;
    current(head, leaves, g, b)?;
    if a.leaf.0 == b.leaf.0 {
        return Ok(a.slot.cmp(&b.slot));
    }
    by_path(leaves, inners, g, head.levels, a.leaf, b.leaf)
}
