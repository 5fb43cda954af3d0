// Inner nodes from the lowest level up: sums, links of what is below, unused slots.
ghost use Rattle.std.specs.Prelude.{◌≡◌, [], ◌∷◌, ◌+◌, ◌*◌, ◌<◌, ◌≤◌, length, take};
ghost use Rattle.model.specs.Node.{slot_for};
ghost use Rattle.model.specs.State.{node_at};
ghost use Rattle.tree_area.specs.Area.{AreaHolds};
ghost use Rattle.tree_words.specs.Tally.{tallied};
ghost use Rattle.calls_repair_write.specs.Blank.{Blank};
ghost use Rattle.calls_repair_write.specs.Toward.{Goal, Empty, SlotGoal, SlotDone};
ghost use Rattle.calls_repair_write.specs.Nodes.{SlotsGoal, SlotsDone, SlotsAimed, NodeDone, NodesGoal, NodesAimed, NodesDone};

use crate::word::{empty, link, slot};
use model::shape::Shape;
use tree_area::word::{child_of, len_of};
use tree_links::link::sum_node;

// Node c, which slot i of inner node p holds: its link is written, and its sums are read into x.
fn below(area: &mut [u32], g: Shape, c: u32, p: u32, i: u32, x: &mut [u32; 4]) -> usize
    requires { AreaHolds g (length area.old) × (c < g.nodes) × (length x.old ≡ 4) }
    ensures { ((result, area.new) ≡ tallied (c * g.size + 1) (p ∷ i ∷ []) area.old) × (result ≤ 2) × (take g.stride x.new ≡ slot_for g.stride c (node_at g c area.new)) × (length x.new ≡ 4) }
{
    let n = link(area, g, c, p, i);
    sum_node(area, g, c, x);
    n
}

// Slot i of inner node p, which holds node c: a leaf on the lowest level, an inner node above it.
fn over(
    leaves: &mut [u32],
    inners: &mut [u32],
    g: Shape,
    lowest: bool,
    c: u32,
    p: u32,
    i: u32,
) -> usize
    requires { AreaHolds g (length leaves.old) × AreaHolds g (length inners.old) × (c < g.nodes) × (p < g.nodes) × (i < g.fan) }
    ensures { (result ≤ 6) × ((m : Goal) → SlotGoal g lowest c p i m leaves.old inners.old → SlotDone g lowest c p i m leaves.old inners.old result leaves.new inners.new) }
{
    let mut x: [u32; 4] = [0; 4];
    let n = if lowest {
        below(leaves, g, c, p, i, &mut x)
    } else {
        below(inners, g, c, p, i, &mut x)
    };
    n + slot(inners, g, p, i as usize, &x)
}

// The slots in use of inner node p.
fn slots(leaves: &mut [u32], inners: &mut [u32], g: Shape, lowest: bool, p: u32, len: u32) -> usize
    requires { AreaHolds g (length leaves.old) × AreaHolds g (length inners.old) × (p < g.nodes) × (len ≤ g.fan) × SlotsAimed g lowest p len leaves.old inners.old }
    ensures { (result ≤ 6 * len) × ((m : Goal) → SlotsGoal g lowest p len m leaves.old inners.old → SlotsDone g lowest p len m leaves.old inners.old result leaves.new inners.new) }
{
    let mut count: usize = 0;
    for i in 0..len {
        let c = child_of(inners, g, p, i as usize);
        count += over(leaves, inners, g, lowest, c, p, i);
    }
    count
}

// All slots of inner node p, of which len are in use.
fn node(
    leaves: &mut [u32],
    inners: &mut [u32],
    g: Shape,
    blank: &[u32],
    lowest: bool,
    p: u32,
    len: u32,
) -> usize
    requires { AreaHolds g (length leaves.old) × AreaHolds g (length inners.old) × Blank g.stride blank.now × (p < g.nodes) × (len ≤ g.fan) × SlotsAimed g lowest p len leaves.old inners.old }
    ensures { (result ≤ 320) × ((m : Goal) → SlotsGoal g lowest p len m leaves.old inners.old → Empty g m.beside p len → NodeDone g lowest p len m leaves.old inners.old result leaves.new inners.new) }
{
    let n = slots(leaves, inners, g, lowest, p, len);
    n + empty(inners, g, p, len as usize, blank)
}

// The first n inner nodes of the queue, the last first; those from last on hold leaves.
pub fn nodes(
    leaves: &mut [u32],
    inners: &mut [u32],
    g: Shape,
    blank: &[u32],
    order: &[u16],
    last: usize,
    n: usize,
) -> usize
    requires { AreaHolds g (length leaves.old) × AreaHolds g (length inners.old) × Blank g.stride blank.now × (n ≤ length order.now) × (n ≤ 65536) × NodesAimed g order.now last n leaves.old inners.old }
    ensures { (result ≤ 320 * n) × ((m : Goal) → NodesGoal g order.now last n m leaves.old inners.old → NodesDone g order.now last n m 0 leaves.old inners.old result leaves.new inners.new) }
{
    let mut count: usize = 0;
    for j in (0..n).rev() {
        let p = order[j] as u32;
        let len = len_of(inners, g, p);
        count += node(leaves, inners, g, blank, last <= j, p, len);
    }
    count
}
