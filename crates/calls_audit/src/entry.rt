// Leaves and their entries.
ghost use Rattle.std.specs.Prelude.{◌≡◌, [], ℕ, ◌-◌, ◌<◌, ◌≤◌, length, get_or};
ghost use Rattle.model.specs.Kind.{kind_of, crossed};
ghost use Rattle.model.specs.Node.{lengths};
ghost use Rattle.model.specs.State.{state, node_at};
ghost use Rattle.model.specs.Refuse.{shape_of};
ghost use Rattle.model.specs.Sound.{least_leaf};
ghost use Rattle.model.specs.Audit.{every, is_other, is_leaf};
ghost use Rattle.model.specs.declared.shape.Kind.{Kind};
ghost use Rattle.tree_area.specs.Area.{AreaHolds};
ghost use Rattle.calls_audit.specs.Known.{Known};
ghost use Rattle.calls_audit.specs.Links.{entry_by};

use crate::link::{depth, is_held};
use crate::nodes::is_filled;
use model::head::Head;
use model::number::{EntryId, LeafNo, NodeNo};
use model::shape::Shape;
use tree_area::word::{at_of, child_of, len_of, length_of, parent_of};
use tree_open::lengths::{crossed, lengths_at};

// Whether no slot of leaf k before slot i holds the id. By `for`: an audit of full leaves spends most of its time here, and with `all` LLVM makes
// seven instructions a turn of these five.
fn is_new(leaves: &[u32], g: Shape, k: LeafNo, i: u32, id: EntryId) -> bool
    requires { AreaHolds g (length leaves.now) × (k.0 < g.nodes) × (i < g.fan) }
    ensures { result ≡ every (is_other (node_at g k.0 leaves.now) id.0) 0 i }
{
    for j in 0..i {
        if child_of(leaves, g, k.0, j as usize) == id.0 {
            return false;
        }
    }
    true
}

// Whether slot i of leaf k has a lowest above a highest length, where they are ordered.
fn is_crossed(leaves: &[u32], g: Shape, ordered: bool, k: LeafNo, i: u32) -> bool
    requires { AreaHolds g (length leaves.now) × (k.0 < g.nodes) × (i < g.fan) }
    ensures { result ≡ crossed (kind_of (g.stride - 1) 0 ordered) (lengths (get_or (node_at g k.0 leaves.now).slots i [])) }
{
    let mut x = [0; 4];
    lengths_at(leaves, g, k, i, &mut x);
    crossed(g.stride - 1, ordered, &x)
}

// Whether the id in slot i of leaf k is below the count, lives in leaf k, and stands in no earlier slot, its line ends aren't too many, and
// its lengths are in order.
fn is_entry(
    leaves: &[u32],
    homes: &[u32],
    g: Shape,
    ordered: bool,
    entries: u32,
    k: LeafNo,
    i: u32,
) -> bool
    requires { AreaHolds g (length leaves.now) × (entries ≤ length homes.now) × (k.0 < g.nodes) × (i < g.fan) }
    ensures { result ≡ entry_by g ordered entries leaves.now homes.now k.0 i }
{
    let id = child_of(leaves, g, k.0, i as usize);
    id < entries
        && homes[id as usize] == k.0
        && (g.stride <= 3 || length_of(leaves, g, 2, k.0, i as usize) <= 65535)
        && !is_crossed(leaves, g, ordered, k, i)
        && is_new(leaves, g, k, i, EntryId(id))
}

// The same of each slot in use.
fn are_entries(
    leaves: &[u32],
    homes: &[u32],
    g: Shape,
    ordered: bool,
    entries: u32,
    k: LeafNo,
    len: u32,
) -> bool
    requires { AreaHolds g (length leaves.now) × (entries ≤ length homes.now) × (k.0 < g.nodes) × (len ≤ g.fan) }
    ensures { result ≡ every (entry_by g ordered entries leaves.now homes.now k.0) 0 len }
{
    (0..len).all(|i| is_entry(leaves, homes, g, ordered, entries, k, i))
}

// How few slots a leaf may use.
fn least_leaf(head: Head) -> u32
    ensures { (s : ℕ) → result ≡ least_leaf s (state head [] [] []) }
{
    if head.leaves == 1 { 1 } else { head.fan / 2 }
}

pub fn is_leaf(
    head: Head,
    leaves: &[u32],
    inners: &[u32],
    homes: &[u32],
    g: Shape,
    ordered: bool,
    k: LeafNo,
) -> bool
    requires { Known head g (length leaves.now) (length inners.now) × (head.entries ≤ length homes.now) × (k.0 < head.leaves) }
    ensures { (K : Kind) → g ≡ shape_of K head → K.ordered ≡ ordered → result ≡ is_leaf K (state head leaves.now inners.now homes.now) k.0 }
{
    let parent = parent_of(leaves, g, k.0);
    let at = at_of(leaves, g, k.0);
    let len = len_of(leaves, g, k.0);
    is_filled(head, leaves, g, k.0, least_leaf(head))
        && is_held(inners, g, head.inners, k.0, NodeNo(parent), at)
        && depth(inners, g, head.inners, head.levels, NodeNo(parent)) == head.levels
        && are_entries(leaves, homes, g, ordered, head.entries, k, len)
}
