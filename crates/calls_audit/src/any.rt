// The whole tree: its counts, every node in use, its totals and its finger.
ghost use Rattle.model.specs.Numbered.{numbered};
ghost use Rattle.std.specs.Prelude.{◌≡◌, Bool, [], ℕ, ◌+◌, ◌-◌, ◌<◌, ◌≤◌, length, leb};
ghost use Rattle.model.specs.Kind.{kind_of};
ghost use Rattle.model.specs.Lists.{sum_by, range};
ghost use Rattle.model.specs.Node.{total, used};
ghost use Rattle.model.specs.State.{state, node_at};
ghost use Rattle.model.specs.Refuse.{shape_of};
ghost use Rattle.model.specs.Audit.{every, is_sum, is_inner, is_leaf, is_finger, is_held_finger, is_sound, audit};
ghost use Rattle.model.specs.declared.shape.Kind.{Kind};
ghost use Rattle.tree_area.specs.Area.{AreaHolds};
ghost use Rattle.calls_audit.specs.Known.{Known};
ghost use Rattle.calls_audit.specs.Counts.{counts_by};
ghost use Rattle.calls_audit.specs.Part.{part_by, beside_by};

use crate::entry::is_leaf;
use crate::link::is_inner;
use crate::nodes::{start_any, total_in};
use model::head::{Finger, Head};
use model::number::{LeafNo, NodeNo};
use model::refusal::Refusal;
use model::shape::Shape;
use model::way::Broken;
use tree_area::word::{at_of, len_of, parent_of};
use tree_open::open::open_areas;
use tree_walk::climb::rank_up;

fn is_sum(n: u32, s: Result<u64, Broken>) -> bool
    ensures { result ≡ is_sum n s }
{
    match s {
        Ok(m) => u64::from(n) == m,
        Err(Broken) => false,
    }
}

// Whether a leaf starts there in view, and that much stands before a slot of it.
fn is_part(
    leaves: &[u32],
    inners: &[u32],
    g: Shape,
    levels: u32,
    view: usize,
    leaf: LeafNo,
    slot: u32,
    start: u32,
    within: u32,
) -> bool
    requires { AreaHolds g (length leaves.now) × AreaHolds g (length inners.now) × (levels ≤ 15) × (view + 1 < g.stride) × (leaf.0 < g.nodes) }
    ensures { result ≡ part_by g levels view (node_at g leaf.0 leaves.now) slot start within inners.now }
{
    let parent = parent_of(leaves, g, leaf.0);
    let at = at_of(leaves, g, leaf.0);
    let sum = rank_up(inners, g, view, levels, NodeNo(parent), at, 0);
    is_sum(start, sum) && u64::from(within) == start_any(leaves, g, view, leaf.0, slot)
}

// Whether the finger's sums in effect and in prepare are those that the links give.
fn is_beside(
    leaves: &[u32],
    inners: &[u32],
    g: Shape,
    levels: u32,
    effect: usize,
    f: Finger,
) -> bool
    requires { AreaHolds g (length leaves.now) × AreaHolds g (length inners.now) × (levels ≤ 15) × (effect + 1 < g.stride) × (f.leaf < g.nodes) }
    ensures { result ≡ beside_by g levels effect f leaves.now inners.now }
{
    let leaf = LeafNo(f.leaf);
    let holds_in = |view, start, within| is_part(
        leaves, inners, g, levels, view, leaf, f.slot, start, within,
    );
    holds_in(effect, f.effect, f.effect_within) && holds_in(0, f.prepare, f.prepare_within)
}

// Whether the finger stands at a slot in use, and its sums are those that the links give.
fn is_finger(head: Head, leaves: &[u32], inners: &[u32], g: Shape, effect: usize, f: Finger) -> bool
    requires { Known head g (length leaves.now) (length inners.now) × (effect + 1 < g.stride) }
    ensures { (views : ℕ) (ordered : Bool) → g ≡ shape_of (kind_of views effect ordered) head → result ≡ is_finger (kind_of views effect ordered) (state head leaves.now inners.now []) f }
{
    let view = f.view as usize;
    let leaf = LeafNo(f.leaf);
    let levels = head.levels;
    view + 1 < g.stride
        && f.leaf < head.leaves
        && f.slot < len_of(leaves, g, f.leaf)
        && is_part(
            leaves, inners, g, levels, view, leaf, f.slot, f.start, f.within,
        )
        && is_beside(leaves, inners, g, levels, effect, f)
}

fn is_held_finger(
    head: Head,
    leaves: &[u32],
    inners: &[u32],
    g: Shape,
    effect: usize,
    held: Option<Finger>,
) -> bool
    requires { Known head g (length leaves.now) (length inners.now) × (effect + 1 < g.stride) }
    ensures { (views : ℕ) (ordered : Bool) → g ≡ shape_of (kind_of views effect ordered) head → result ≡ is_held_finger (kind_of views effect ordered) (state head leaves.now inners.now []) held }
{
    match held {
        None => true,
        Some(f) => is_finger(head, leaves, inners, g, effect, f),
    }
}

// Counts within the limit, levels, and the root in use.
fn counts(head: Head, g: Shape) -> bool
    ensures { result ≡ counts_by head g }
{
    head.entries <= head.limit
        && head.leaves as usize <= g.nodes
        && head.inners as usize <= g.nodes
        && 1 <= head.levels
        && head.levels <= 15
        && head.root.0 < head.inners
}

fn every_inner(head: Head, leaves: &[u32], inners: &[u32], g: Shape, count: u32) -> bool
    requires { Known head g (length leaves.now) (length inners.now) × (count ≤ head.inners) }
    ensures { (K : Kind) → g ≡ shape_of K head → result ≡ every (is_inner K (state head leaves.now inners.now [])) 0 count }
{
    (0..count).all(|k| is_inner(head, leaves, inners, g, NodeNo(k)))
}

fn every_leaf(
    head: Head,
    leaves: &[u32],
    inners: &[u32],
    homes: &[u32],
    g: Shape,
    ordered: bool,
    count: u32,
) -> bool
    requires { Known head g (length leaves.now) (length inners.now) × (head.entries ≤ length homes.now) × (count ≤ head.leaves) }
    ensures { (K : Kind) → g ≡ shape_of K head → K.ordered ≡ ordered → result ≡ every (is_leaf K (state head leaves.now inners.now homes.now)) 0 count }
{
    (0..count).all(|k| is_leaf(head, leaves, inners, homes, g, ordered, LeafNo(k)))
}

// The slots in use of the first leaves.
fn slots_used(leaves: &[u32], g: Shape, count: u32) -> u64
    requires { AreaHolds g (length leaves.now) × (count ≤ g.nodes) }
    ensures { result ≡ sum_by (λ k. (node_at g k leaves.now).len) (range 0 count) }
{
    (0..count).map(|k| u64::from(len_of(leaves, g, k))).sum()
}

// The totals of the root within u32, in every view.
fn totals(inners: &[u32], g: Shape, root: NodeNo) -> bool
    requires { AreaHolds g (length inners.now) × (root.0 < g.nodes) }
    ensures { result ≡ every (λ v. leb (total v (used (node_at g root.0 inners.now))) 4294967295) 0 (g.stride - 1) }
{
    (0..g.stride - 1).all(|v| total_in(inners, g, v, root.0) <= u64::from(u32::MAX))
}

fn is_sound(
    head: Head,
    leaves: &[u32],
    inners: &[u32],
    homes: &[u32],
    g: Shape,
    effect: usize,
    ordered: bool,
) -> bool
    requires { AreaHolds g (length leaves.now) × AreaHolds g (length inners.now) × (effect + 1 < g.stride) × (head.limit ≤ length homes.now) }
    ensures { (views : ℕ) → g ≡ shape_of (kind_of views effect ordered) head → result ≡ is_sound (kind_of views effect ordered) (state head leaves.now inners.now homes.now) }
{
    counts(head, g)
        && every_inner(head, leaves, inners, g, head.inners)
        && every_leaf(head, leaves, inners, homes, g, ordered, head.leaves)
        && slots_used(leaves, g, head.leaves) == u64::from(head.entries)
        && totals(inners, g, head.root)
        && is_held_finger(head, leaves, inners, g, effect, head.finger)
}

// Whether a tree with views lengths an entry, positions answered in view effect, is sound; ordered: the first two lengths are a lowest and
// a highest one.
pub fn audit(
    views: usize,
    effect: usize,
    ordered: bool,
    head: Head,
    leaves: &[u32],
    inners: &[u32],
    homes: &[u32],
) -> Result<bool, Refusal>
    requires { (1 ≤ views) × (views ≤ 3) × (effect < views) }
    ensures { numbered result ≡ audit (kind_of views effect ordered) (state head leaves.now inners.now homes.now) }
{
    let g = open_areas(views, head.fan, head.limit, leaves, inners, homes)?;
    Ok(is_sound(head, leaves, inners, homes, g, effect, ordered))
}
