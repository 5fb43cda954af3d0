// Room in a leaf for one entry more.
ghost use Rattle.std.specs.Prelude.{◌≡◌, ℕ, ◌<◌, ◌≤◌, length, slice_index};
ghost use Rattle.model.specs.Numbered.{broken_number};
ghost use Rattle.model.specs.State.{shape_for, state};
ghost use Rattle.model.specs.Place.{split_leaf};
ghost use Rattle.model.specs.declared.head.Head.{Head};
ghost use Rattle.tree_area.specs.Area.{AreaHolds};
ghost use Rattle.tree_links.specs.Fits.{AreasHold};
ghost use Rattle.tree_links.specs.Tops.{top_in};
ghost use Rattle.tree_place.specs.Room.{counted, settled_in, split_to, roomy_in};

use crate::home::rehome;
use model::number::{LeafNo, NodeNo};
use model::shape::{Shape, shape_for};
use model::way::Broken;
use tree_area::word::{len_of, parent_of};
use tree_links::grow::add_child;
use tree_node::split::split_off;

// The slots of leaf k from half on go to the next unused leaf, which gets its slot above (split_leaf). top: the inner nodes
// in use, the root, the levels.
#[inline(never)]
pub fn split_leaf(
    leaves: &mut [u32],
    inners: &mut [u32],
    homes: &mut [u32],
    views: usize,
    fan: usize,
    nodes: usize,
    used: u32,
    top: &mut [u32; 3],
    entries: u32,
    k: LeafNo,
) -> Result<(), Broken>
    requires { AreasHold (shape_for views fan nodes) (length leaves.old) (length inners.old) × (k.0 < used) × (slice_index top.old 0 ≤ nodes) × (1 ≤ slice_index top.old 2) × (slice_index top.old 2 ≤ 15) × (entries ≤ length homes.old) × (length top.old ≡ 3) }
    ensures { ((h : Head) (i : ℕ) → settled_in h (split_to (broken_number result) fan used (top_in top.new) entries h k.0 i leaves.new inners.new homes.new) ≡ settled_in h (split_leaf (shape_for views fan nodes) (state (counted used (top_in top.old) entries h) leaves.old inners.old homes.old) k.0 i)) × (length top.new ≡ 3) }
{
    let g = shape_for(views, fan, nodes);
    let levels = top[2];
    if nodes <= used as usize {
        return Err(Broken);
    }
    split_off(leaves, views, fan, nodes, k.0 as usize, used as usize);
    rehome(leaves, homes, g, entries, LeafNo(used))?;
    let parent = NodeNo(parent_of(leaves, g, k.0));
    add_child(
        leaves,
        inners,
        views,
        fan,
        nodes,
        top,
        1,
        parent,
        k.0,
        used,
        levels - 1,
    )
}

// Whether leaf k is in the area and has room, with at least w slots in use from slot i on.
pub fn roomy(leaves: &[u32], g: Shape, k: LeafNo, i: u32, w: u32) -> bool
    requires { AreaHolds g (length leaves.now) × (w ≤ 1) }
    ensures { result ≡ roomy_in g k.0 i w leaves.now }
{
    if k.0 as usize >= g.nodes {
        return false;
    }
    let len = len_of(leaves, g, k.0) as usize;
    i as usize + w as usize <= len && len < g.fan
}
