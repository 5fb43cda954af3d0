// Parents, places and children.
ghost use Rattle.std.specs.Prelude.{◌≡◌, [], ℕ, ◌<◌, ◌≤◌, length};
ghost use Rattle.model.specs.State.{state, node_at};
ghost use Rattle.model.specs.Refuse.{shape_of};
ghost use Rattle.model.specs.Sound.{least_inner};
ghost use Rattle.model.specs.Audit.{every, is_inner};
ghost use Rattle.model.specs.declared.shape.Kind.{Kind};
ghost use Rattle.tree_area.specs.Area.{AreaHolds};
ghost use Rattle.calls_audit.specs.Known.{Known};
ghost use Rattle.calls_audit.specs.Links.{depth_by, held_by, totals_by, child_by, root_by};

use crate::nodes::{is_filled, total_in};
use model::head::Head;
use model::length::Slot;
use model::number::NodeNo;
use model::shape::Shape;
use tree_area::word::{at_of, child_of, len_of, length_of, parent_of};

// How many inner nodes stand from the root down to node k; more than levels where a climb doesn't end at the root.
pub fn depth(inners: &[u32], g: Shape, used: u32, levels: u32, k: NodeNo) -> u32
    requires { AreaHolds g (length inners.now) × (used ≤ g.nodes) × (levels ≤ 15) }
    ensures { result ≡ depth_by g used inners.now levels k.0 }
{
    let mut node = k.0;
    for passed in 0..levels {
        if node == Slot::EMPTY.child {
            return passed;
        }
        if node >= used {
            return levels + 1;
        }
        node = parent_of(inners, g, node);
    }
    if node == Slot::EMPTY.child {
        levels
    } else {
        levels + 1
    }
}

// Whether inner node parent holds k, a leaf or an inner node, in its slot at.
pub fn is_held(inners: &[u32], g: Shape, used: u32, k: u32, parent: NodeNo, at: u32) -> bool
    requires { AreaHolds g (length inners.now) × (used ≤ g.nodes) }
    ensures { result ≡ held_by g used inners.now k parent.0 at }
{
    if parent.0 >= used {
        return false;
    }
    let len = len_of(inners, g, parent.0);
    at < len && len as usize <= g.fan && child_of(inners, g, parent.0, at as usize) == k
}

// Whether slot i of inner node k has the totals of node child of low, in every view.
fn has_totals(inners: &[u32], low: &[u32], g: Shape, k: NodeNo, i: u32, child: u32) -> bool
    requires { AreaHolds g (length inners.now) × AreaHolds g (length low.now) × (k.0 < g.nodes) × (i < g.fan) × (child < g.nodes) }
    ensures { result ≡ totals_by g low.now inners.now k.0 i child }
{
    (0..g.stride - 1).all(|v| {
        u64::from(length_of(inners, g, v, k.0, i as usize)) == total_in(low, g, v, child)
    })
}

// Whether the child in slot i of inner node k, a node of low, is in use, knows its parent and place, and the slot has its totals.
fn is_child(inners: &[u32], low: &[u32], g: Shape, used: u32, k: NodeNo, i: u32) -> bool
    requires { AreaHolds g (length inners.now) × AreaHolds g (length low.now) × (used ≤ g.nodes) × (k.0 < g.nodes) × (i < g.fan) }
    ensures { result ≡ child_by g used low.now inners.now k.0 i }
{
    let child = child_of(inners, g, k.0, i as usize);
    child < used
        && parent_of(low, g, child) == k.0
        && at_of(low, g, child) == i
        && has_totals(inners, low, g, k, i, child)
}

// The same of each slot in use.
#[inline(never)]
fn are_children(inners: &[u32], low: &[u32], g: Shape, used: u32, k: NodeNo, len: u32) -> bool
    requires { AreaHolds g (length inners.now) × AreaHolds g (length low.now) × (used ≤ g.nodes) × (k.0 < g.nodes) × (len ≤ g.fan) }
    ensures { result ≡ every (child_by g used low.now inners.now k.0) 0 len }
{
    (0..len).all(|i| is_child(inners, low, g, used, k, i))
}

// How few slots inner node k may use.
fn least_inner(head: Head, k: NodeNo) -> u32
    ensures { (s : ℕ) → result ≡ least_inner s (state head [] [] []) k.0 }
{
    if k.0 != head.root.0 {
        head.fan / 2
    } else if head.levels == 1 {
        1
    } else {
        2
    }
}

// Whether inner node k stands where it must: the root below nothing, any other node in its parent.
fn is_below(head: Head, inners: &[u32], g: Shape, k: NodeNo) -> bool
    requires { AreaHolds g (length inners.now) × (head.inners ≤ g.nodes) × (k.0 < g.nodes) }
    ensures { result ≡ root_by g head inners.now k.0 }
{
    let parent = parent_of(inners, g, k.0);
    let at = at_of(inners, g, k.0);
    if k.0 == head.root.0 {
        parent == Slot::EMPTY.child && at == 0
    } else {
        is_held(inners, g, head.inners, k.0, NodeNo(parent), at)
    }
}

pub fn is_inner(head: Head, leaves: &[u32], inners: &[u32], g: Shape, k: NodeNo) -> bool
    requires { Known head g (length leaves.now) (length inners.now) × (k.0 < head.inners) }
    ensures { (K : Kind) → g ≡ shape_of K head → result ≡ is_inner K (state head leaves.now inners.now []) k.0 }
{
    let d = depth(inners, g, head.inners, head.levels, k);
    if d < 1 || d > head.levels {
        return false;
    }
    let least = least_inner(head, k);
    if !is_filled(head, inners, g, k.0, least) || !is_below(head, inners, g, k) {
        return false;
    }
    let len = len_of(inners, g, k.0);
    if d == head.levels {
        are_children(inners, leaves, g, head.leaves, k, len)
    } else {
        are_children(inners, inners, g, head.inners, k, len)
    }
}
