// One entry more in a leaf, which is split first if it is full. Both functions call `split_leaf` themselves: with one caller it
// would be compiled into it, and that function would then be too large to be compiled into the calls.
ghost use Rattle.std.specs.Prelude.{◌≡◌, ◌<◌, ◌≤◌, length};
ghost use Rattle.model.specs.Length.{lengths_in};
ghost use Rattle.model.specs.State.{state, node_at};
ghost use Rattle.model.specs.Place.{place, divide};
ghost use Rattle.tree_place.specs.Room.{changed_to, settled_in, Entering};

use crate::change::{HeadChange, Room, entered, halved};
use crate::room::{roomy, split_leaf};
use model::head::Head;
use model::number::LeafNo;
use model::shape::Shape;
use model::way::Broken;
use tree_area::word::len_of;
use tree_area::write::{insert, split_child};

// The entry x comes before slot i of leaf k (place).
pub fn place(
    views: usize,
    head: Head,
    leaves: &mut [u32],
    inners: &mut [u32],
    homes: &mut [u32],
    g: Shape,
    k: LeafNo,
    i: u32,
    x: &[u32; 4],
) -> Result<HeadChange, Broken>
    requires { Entering views g head leaves.old inners.old homes.old k.0 x.now × (i ≤ (node_at g k.0 leaves.old).len) × (length x.now ≡ 4) }
    ensures { changed_to result head leaves.new inners.new homes.new ≡ settled_in head (place g (state head leaves.old inners.old homes.old) k.0 i (lengths_in views x.now)) }
{
    let fan = g.fan;
    let used = head.leaves;
    let entries = head.entries;
    let mut top = [head.inners, head.root.0, head.levels];
    let mut room = Room {
        leaves: used,
        leaf: k,
        slot: i,
    };
    if len_of(leaves, g, k.0) as usize == fan {
        split_leaf(
            leaves, inners, homes, views, fan, g.nodes, used, &mut top, entries, k,
        )?;
        room = halved(fan, used, k, i);
        if !roomy(leaves, g, room.leaf, room.slot, 0) {
            return Err(Broken);
        }
    }
    insert(leaves, g, room.leaf.0, room.slot as usize, x);
    homes[entries as usize] = room.leaf.0;
    Ok(entered(head, &top, room))
}

// The lengths of x leave the entry in slot i of leaf k for the entry x, just before it or just after (split_entry).
pub fn divide(
    views: usize,
    head: Head,
    leaves: &mut [u32],
    inners: &mut [u32],
    homes: &mut [u32],
    g: Shape,
    before: bool,
    k: LeafNo,
    i: u32,
    x: &[u32; 4],
) -> Result<HeadChange, Broken>
    requires { Entering views g head leaves.old inners.old homes.old k.0 x.now × (i < (node_at g k.0 leaves.old).len) × (length x.now ≡ 4) }
    ensures { changed_to result head leaves.new inners.new homes.new ≡ settled_in head (divide g before (state head leaves.old inners.old homes.old) k.0 i (lengths_in views x.now)) }
{
    let fan = g.fan;
    let used = head.leaves;
    let entries = head.entries;
    let mut top = [head.inners, head.root.0, head.levels];
    let mut room = Room {
        leaves: used,
        leaf: k,
        slot: i,
    };
    if len_of(leaves, g, k.0) as usize == fan {
        split_leaf(
            leaves, inners, homes, views, fan, g.nodes, used, &mut top, entries, k,
        )?;
        room = halved(fan, used, k, i);
        if !roomy(leaves, g, room.leaf, room.slot, 1) {
            return Err(Broken);
        }
    }
    split_child(leaves, g, room.leaf.0, before, room.slot as usize, x);
    homes[entries as usize] = room.leaf.0;
    Ok(entered(head, &top, room))
}
