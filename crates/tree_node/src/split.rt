// New nodes: with one slot or two, and with the upper half of a full node.
ghost use Rattle.std.specs.Prelude.{◌≡◌, suc, ◌+◌, ◌*◌, ◌<◌, ◌≤◌, [], ◌∷◌, length, take};
ghost use Rattle.model.specs.Node.{node_of, words_of, new_node, lower_half, upper_half};
ghost use Rattle.model.specs.State.{shape_for, node_at, put_node};
ghost use Rattle.model_laws.specs.Formed.{kept};
ghost use Rattle.tree_node.specs.Shaped.{Shaped};

use crate::write::put_slot;
use model::shape::{Shape, shape_for};
use tree_words::run::{clear, shift};

// The first m slots are kept, and the others are empty.
fn keep(node: &mut [u32], g: Shape, m: usize, parent: u32, at: u32)
    requires { Shaped g × (length node.old ≡ g.size) × (m ≤ g.fan) }
    ensures { node.new ≡ words_of (kept g.stride g.fan m parent at (node_of g.stride g.fan node.old)) }
{
    let stride = g.stride;
    let fan = g.fan;
    clear(node, stride, 3 + m * stride, fan - m);
    node[0] = m as u32;
    node[1] = parent;
    node[2] = at;
}

// The same of node k of an area.
fn keep_in(area: &mut [u32], g: Shape, k: usize, m: usize, parent: u32, at: u32)
    requires { Shaped g × (k * g.size + g.size ≤ length area.old) × (m ≤ g.fan) }
    ensures { area.new ≡ put_node g k (kept g.stride g.fan m parent at (node_at g k area.old)) area.old }
{
    let a = k * g.size;
    keep(&mut area[a..a + g.size], g, m, parent, at);
}

// A node with the one slot x (Node::new, then Node::insert).
pub fn new_one(node: &mut [u32], g: Shape, parent: u32, x: &[u32; 4])
    requires { Shaped g × (length node.old ≡ g.size) × (length x.now ≡ 4) }
    ensures { node.new ≡ words_of (new_node g.stride g.fan parent (take g.stride x.now ∷ [])) }
{
    put_slot(node, g, 3, x);
    keep(node, g, 1, parent, 0);
}

// A node with the two slots x and y.
pub fn new_two(node: &mut [u32], g: Shape, parent: u32, x: &[u32; 4], y: &[u32; 4])
    requires { Shaped g × (length node.old ≡ g.size) × (length x.now ≡ 4) × (length y.now ≡ 4) }
    ensures { node.new ≡ words_of (new_node g.stride g.fan parent (take g.stride x.now ∷ take g.stride y.now ∷ [])) }
{
    let stride = g.stride;
    put_slot(node, g, 3, x);
    put_slot(node, g, 3 + stride, y);
    keep(node, g, 2, parent, 0);
}

// The upper half of the full node k goes to the new node j (Node::split_off); of node k only the slots and their number change.
#[inline(always)]
pub fn split_off(area: &mut [u32], views: usize, fan: usize, nodes: usize, k: usize, j: usize)
    requires { Shaped (shape_for views fan nodes) × (k < j) × (j * (shape_for views fan nodes).size + (shape_for views fan nodes).size ≤ length area.old) }
    ensures { area.new ≡ put_node (shape_for views fan nodes) k (lower_half (suc views) fan (node_at (shape_for views fan nodes) k area.old)) (put_node (shape_for views fan nodes) j (upper_half (suc views) fan (node_at (shape_for views fan nodes) k area.old)) area.old) }
{
    let g = shape_for(views, fan, nodes);
    let stride = g.stride;
    let size = g.size;
    let half = fan / 2;
    let a = k * size;
    let from = a + 3 + half * stride;
    let parent = area[a + 1];
    shift(area, from, a + size, j * size + 3 - from);
    keep_in(area, g, j, fan - half, parent, 0);
    clear(area, stride, from, fan - half);
    area[a] = half as u32;
}
