// An inner node divided in two, and a new root above two inner nodes.
ghost use Rattle.model.specs.Numbered.{broken_number};
ghost use Rattle.std.specs.Prelude.{◌≡◌, ◌<◌, ◌≤◌, length, get_or};
ghost use Rattle.model.specs.State.{shape_for};
ghost use Rattle.model.specs.Grow.{areas, linked, divide, grow_root};
ghost use Rattle.tree_links.specs.Fits.{AreasHold};
ghost use Rattle.tree_links.specs.Tops.{top_in, grown_in};

use crate::link::sum_node;
use crate::parts::adopt_all;
use model::length::Slot;
use model::number::NodeNo;
use model::shape::shape_for;
use model::way::Broken;
use tree_area::write::new_two;

// The upper half of inner node k goes to node m, and its children learn it.
pub fn divide(
    leaves: &mut [u32],
    inners: &mut [u32],
    views: usize,
    fan: usize,
    nodes: usize,
    level: u32,
    k: NodeNo,
    m: NodeNo,
) -> Result<(), Broken>
    requires { AreasHold (shape_for views fan nodes) (length leaves.old) (length inners.old) × (k.0 < m.0) × (m.0 < nodes) }
    ensures { linked (broken_number result) (areas leaves.new inners.new) ≡ divide (shape_for views fan nodes) level k.0 m.0 (areas leaves.old inners.old) }
{
    let g = shape_for(views, fan, nodes);
    tree_node::split::split_off(inners, views, fan, nodes, k.0 as usize, m.0 as usize);
    adopt_all(leaves, inners, g, level, m, 0, fan - fan / 2)
}

// A new root above the inner nodes k and m, which are its children. top: the inner nodes in use, the root, the levels.
pub fn grow_root(
    leaves: &mut [u32],
    inners: &mut [u32],
    views: usize,
    fan: usize,
    nodes: usize,
    top: &mut [u32; 3],
    k: NodeNo,
    m: NodeNo,
) -> Result<(), Broken>
    requires { AreasHold (shape_for views fan nodes) (length leaves.old) (length inners.old) × (k.0 < nodes) × (m.0 < nodes) × (get_or top.old 0 0 ≤ nodes) × (get_or top.old 2 0 ≤ 16) × (length top.old ≡ 3) }
    ensures { (grown_in (broken_number result) top.new leaves.new inners.new ≡ grow_root (shape_for views fan nodes) (top_in top.old) k.0 m.0 (areas leaves.old inners.old)) × (length top.new ≡ 3) }
{
    let g = shape_for(views, fan, nodes);
    let used = top[0];
    if used as usize >= nodes {
        return Err(Broken);
    }
    let mut x: [u32; 4] = [0; 4];
    let mut y: [u32; 4] = [0; 4];
    let j = NodeNo(used);
    sum_node(inners, g, k.0, &mut x);
    sum_node(inners, g, m.0, &mut y);
    let empty = Slot::EMPTY;
    new_two(inners, g, used, empty.child, &x, &y);
    let adopted = adopt_all(leaves, inners, g, 2, j, 0, 2);
    top[0] = used + 1;
    top[1] = used;
    top[2] += 1;
    adopted
}
