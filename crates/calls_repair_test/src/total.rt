// The totals of the leaves that stand in a part of the queue.
ghost use Rattle.std.specs.Prelude.{◌≡◌, ◌+◌, ◌-◌, ◌<◌, ◌≤◌, leb, length};
ghost use Rattle.model.specs.Lists.{part};
ghost use Rattle.model.specs.Node.{total, used};
ghost use Rattle.model.specs.State.{node_at};
ghost use Rattle.model.specs.Audit.{every};
ghost use Rattle.tree_area.specs.Area.{AreaHolds};
ghost use Rattle.calls_repair_test.specs.Total.{within, total_in, QueueListed};

use model::shape::Shape;

// The lengths of the slots in use of leaf k: at most 32 words.
fn leaf_total(leaves: &[u32], g: Shape, view: usize, k: u32) -> u64
    requires { AreaHolds g (length leaves.now) × (k < g.nodes) × (view + 1 < g.stride) }
    ensures { (result ≡ total view (used (node_at g k leaves.now))) × (result ≤ 137438953440) }
{
    let start = k as usize * g.size;
    tree_node::read::used_total(&leaves[start..start + g.size], g, view)
}

// The same of the leaves in the queue from start up to end.
fn total(leaves: &[u32], g: Shape, order: &[u16], view: usize, start: usize, end: usize) -> u64
    requires { AreaHolds g (length leaves.now) × (view + 1 < g.stride) × (start ≤ end) × (end ≤ length order.now) × (end ≤ 131072) × QueueListed g.nodes start end order.now }
    ensures { result ≡ total_in g leaves.now view (part start (end - start) order.now) }
{
    order[start..end]
        .iter()
        .map(|k| leaf_total(leaves, g, view, *k as u32))
        .sum()
}

// Whether the totals are within u32, in every view.
pub fn totals(leaves: &[u32], g: Shape, order: &[u16], start: usize, end: usize) -> bool
    requires { AreaHolds g (length leaves.now) × (start ≤ end) × (end ≤ length order.now) × (end ≤ 131072) × QueueListed g.nodes start end order.now }
    ensures { result ≡ every (within g leaves.now (part start (end - start) order.now)) 0 (g.stride - 1) }
{
    let views = g.stride - 1;
    (0..views).all(|v| total(leaves, g, order, v, start, end) <= u64::from(u32::MAX))
}
