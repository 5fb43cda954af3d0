// A new child for an inner node; a full one is divided, and its upper half is a new child one level up.
ghost use Rattle.model.specs.Numbered.{broken_number};
ghost use Rattle.std.specs.Prelude.{◌≡◌, ◌<◌, ◌≤◌, length, get_or};
ghost use Rattle.model.specs.State.{shape_for};
ghost use Rattle.model.specs.Grow.{areas, split_node, add_to, above_of};
ghost use Rattle.tree_links.specs.Fits.{AreasHold};
ghost use Rattle.tree_links.specs.Tops.{top_in, grown_in};
ghost use Rattle.tree_links.specs.Standing.{standing};

use crate::link::link;
use crate::parts::{word, word_of};
use crate::split::{divide, grow_root};
use model::number::NodeNo;
use model::shape::{Shape, shape_for};
use model::way::Broken;

// The place of node after in inner node p, behind which node new comes; every number and place is tested.
fn standing(
    leaves: &[u32],
    inners: &[u32],
    g: Shape,
    used: u32,
    level: u32,
    p: NodeNo,
    after: u32,
    new: u32,
) -> Option<usize>
    requires { AreasHold g (length leaves.now) (length inners.now) × (used ≤ g.nodes) }
    ensures { result ≡ standing g used level p.0 after new (areas leaves.now inners.now) }
{
    if p.0 >= used || after as usize >= g.nodes || new as usize >= g.nodes {
        return None;
    }
    let i = word_of(leaves, inners, g, level, after as usize, 2) as usize;
    let len = word(inners, g, p.0 as usize, 0) as usize;
    if i >= len || len > g.fan {
        return None;
    }
    Some(i)
}

// Node new of the level's area comes just behind the node after in inner node p; left levels stand above p. top: the inner
// nodes in use, the root, the levels. `link` is called in one place, so that it is compiled into it.
#[cycle(add_child_split_node)]
pub fn add_child(
    leaves: &mut [u32],
    inners: &mut [u32],
    views: usize,
    fan: usize,
    nodes: usize,
    top: &mut [u32; 3],
    level: u32,
    p: NodeNo,
    after: u32,
    new: u32,
    left: u32,
) -> Result<(), Broken>
    requires { AreasHold (shape_for views fan nodes) (length leaves.old) (length inners.old) × (get_or top.old 0 0 ≤ nodes) × (get_or top.old 2 0 ≤ 16) × (length top.old ≡ 3) }
    ensures { (grown_in (broken_number result) top.new leaves.new inners.new ≡ add_to (shape_for views fan nodes) (above_of (shape_for views fan nodes) left) (top_in top.old) level p.0 after new (areas leaves.old inners.old)) × (length top.new ≡ 3) }
{
    let g = shape_for(views, fan, nodes);
    let used = top[0];
    let Some(i) = standing(leaves, inners, g, used, level, p, after, new) else {
        return Err(Broken);
    };
    let mut to = p.0;
    let mut at = i;
    if word(inners, g, p.0 as usize, 0) as usize == fan {
        if used as usize >= nodes {
            return Err(Broken);
        }
        split_node(leaves, inners, views, fan, nodes, top, level, p, left)?;
        if i >= fan / 2 {
            to = used;
            at = i - fan / 2;
        }
    }
    link(leaves, inners, g, level, NodeNo(to), at, new)
}

// A full inner node is divided, and its upper half takes the next unused number before its parent does.
#[cycle(add_child_split_node)]
pub fn split_node(
    leaves: &mut [u32],
    inners: &mut [u32],
    views: usize,
    fan: usize,
    nodes: usize,
    top: &mut [u32; 3],
    level: u32,
    k: NodeNo,
    left: u32,
) -> Result<(), Broken>
    requires { AreasHold (shape_for views fan nodes) (length leaves.old) (length inners.old) × (k.0 < get_or top.old 0 0) × (get_or top.old 0 0 < nodes) × (get_or top.old 2 0 ≤ 16) × (length top.old ≡ 3) }
    ensures { (grown_in (broken_number result) top.new leaves.new inners.new ≡ split_node (shape_for views fan nodes) (above_of (shape_for views fan nodes) left) (top_in top.old) level k.0 (areas leaves.old inners.old)) × (length top.new ≡ 3) }
{
    let g = shape_for(views, fan, nodes);
    let used = top[0];
    let m = NodeNo(used);
    let divided = divide(leaves, inners, views, fan, nodes, level, k, m);
    top[0] = used + 1;
    divided?;
    if left == 0 {
        return grow_root(leaves, inners, views, fan, nodes, top, k, m);
    }
    let up = NodeNo(word(inners, g, k.0 as usize, 1));
    add_child(
        leaves,
        inners,
        views,
        fan,
        nodes,
        top,
        2,
        up,
        k.0,
        used,
        left - 1,
    )
}
