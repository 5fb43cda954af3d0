// A slot for a new node in an inner node that has room.
ghost use Rattle.model.specs.Numbered.{broken_number};
ghost use Rattle.std.specs.Prelude.{◌≡◌, ◌+◌, ◌*◌, ◌<◌, ◌≤◌, length, take};
ghost use Rattle.model.specs.Node.{slot_for};
ghost use Rattle.model.specs.State.{node_at};
ghost use Rattle.model.specs.Grow.{areas, linked, node_in, link};
ghost use Rattle.tree_node.specs.Shaped.{Shaped};
ghost use Rattle.tree_links.specs.Fits.{AreasHold, NodeRoom};

use crate::parts::{adopt_all, word};
use model::number::NodeNo;
use model::shape::Shape;
use model::way::Broken;
use tree_area::write::split_child;

// The slot that stands for node k of an area in its parent.
pub fn sum_node(area: &[u32], g: Shape, k: u32, x: &mut [u32; 4])
    requires { Shaped g × (k < g.nodes) × (g.nodes * g.size ≤ length area.now) × (length x.old ≡ 4) }
    ensures { (take g.stride x.new ≡ slot_for g.stride k (node_at g k area.now)) × (length x.new ≡ 4) }
{
    let size = g.size;
    let a = k as usize * size;
    let e = a + size;
    tree_node::read::slot_for(&area[a..e], g, k, x);
}

// The same for a node of the area that the level names.
pub fn slot_of(leaves: &[u32], inners: &[u32], g: Shape, level: u32, k: u32, x: &mut [u32; 4])
    requires { AreasHold g (length leaves.now) (length inners.now) × (k < g.nodes) × (length x.old ≡ 4) }
    ensures { (take g.stride x.new ≡ slot_for g.stride k (node_in g level k (areas leaves.now inners.now))) × (length x.new ≡ 4) }
{
    if level == 1 {
        sum_node(leaves, g, k, x);
    } else {
        sum_node(inners, g, k, x);
    }
}

// Node new of the level's area gets its slot behind place i of inner node p.
pub fn link(
    leaves: &mut [u32],
    inners: &mut [u32],
    g: Shape,
    level: u32,
    p: NodeNo,
    i: usize,
    new: u32,
) -> Result<(), Broken>
    requires { AreasHold g (length leaves.old) (length inners.old) × (p.0 < g.nodes) × (new < g.nodes) × NodeRoom g p.0 i inners.old }
    ensures { linked (broken_number result) (areas leaves.new inners.new) ≡ link g level p.0 i new (areas leaves.old inners.old) }
{
    let k = p.0 as usize;
    let len = word(inners, g, k, 0) as usize;
    let mut x: [u32; 4] = [0; 4];
    slot_of(leaves, inners, g, level, new, &mut x);
    split_child(inners, g, p.0, false, i, &x);
    adopt_all(leaves, inners, g, level, p, i + 1, len + 1)
}
