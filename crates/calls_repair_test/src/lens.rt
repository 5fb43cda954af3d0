// How many slots the nodes in use have in use, and the lengths in leaf slots.
ghost use Rattle.std.specs.Prelude.{◌≡◌, ◌&&◌, [], ℕ, ◌-◌, ◌<◌, ◌≤◌, leb, length, get_or};
ghost use Rattle.model.specs.Kind.{kind_of};
ghost use Rattle.model.specs.State.{state, node_at};
ghost use Rattle.model.specs.Refuse.{shape_of};
ghost use Rattle.model.specs.Sound.{least_leaf, least_inner};
ghost use Rattle.model.specs.Audit.{every};
ghost use Rattle.model.specs.Mend.{is_fit_slot, is_fit_inner, is_fit_leaf};
ghost use Rattle.model.specs.declared.shape.Kind.{Kind};
ghost use Rattle.tree_area.specs.Area.{AreaHolds};

use model::head::Head;
use model::number::LeafNo;
use model::shape::Shape;
use tree_area::word::len_of;
use tree_open::lengths::{crossed, lengths_at, too_many_lines};

// Whether a len is within its bounds.
fn is_long(len: u32, least: u32, fan: u32) -> bool
    ensures { result ≡ (leb least len && leb len fan) }
{
    least <= len && len <= fan
}

// How few slots a leaf may use.
fn least_leaf(head: Head) -> u32
    ensures { (s : ℕ) → result ≡ least_leaf s (state head [] [] []) }
{
    if head.leaves == 1 { 1 } else { head.fan / 2 }
}

// How few slots inner node k may use.
fn least_inner(head: Head, k: u32) -> u32
    ensures { (s : ℕ) → result ≡ least_inner s (state head [] [] []) k }
{
    if k != head.root.0 {
        head.fan / 2
    } else if head.levels == 1 {
        1
    } else {
        2
    }
}

// Whether every inner node of the first count has as many slots in use as it may.
pub fn every_inner(head: Head, inners: &[u32], g: Shape, count: u32) -> bool
    requires { AreaHolds g (length inners.now) × (count ≤ g.nodes) }
    ensures { (K : Kind) → g ≡ shape_of K head → result ≡ every (is_fit_inner K (state head [] inners.now [])) 0 count }
{
    (0..count).all(|k| is_long(len_of(inners, g, k), least_inner(head, k), head.fan))
}

// Whether the lengths in slot i of leaf k are such as an entry may have.
fn is_fit_slot(leaves: &[u32], g: Shape, ordered: bool, k: LeafNo, i: u32) -> bool
    requires { AreaHolds g (length leaves.now) × (k.0 < g.nodes) × (i < g.fan) }
    ensures { result ≡ is_fit_slot (kind_of (g.stride - 1) 0 ordered) (get_or (node_at g k.0 leaves.now).slots i []) }
{
    let views = g.stride - 1;
    let mut x: [u32; 4] = [0; 4];
    lengths_at(leaves, g, k, i, &mut x);
    !too_many_lines(views, &x) && !crossed(views, ordered, &x)
}

// The same of each slot in use.
fn are_fit_slots(leaves: &[u32], g: Shape, ordered: bool, k: LeafNo, len: u32) -> bool
    requires { AreaHolds g (length leaves.now) × (k.0 < g.nodes) × (len ≤ g.fan) }
    ensures { result ≡ every (λ i. is_fit_slot (kind_of (g.stride - 1) 0 ordered) (get_or (node_at g k.0 leaves.now).slots i [])) 0 len }
{
    (0..len).all(|i| is_fit_slot(leaves, g, ordered, k, i))
}

fn is_fit_leaf(head: Head, leaves: &[u32], g: Shape, ordered: bool, k: LeafNo) -> bool
    requires { AreaHolds g (length leaves.now) × (k.0 < g.nodes) × (g.fan ≡ head.fan) }
    ensures { (views effect : ℕ) → g ≡ shape_of (kind_of views effect ordered) head → result ≡ is_fit_leaf (kind_of views effect ordered) (state head leaves.now [] []) k.0 }
{
    let len = len_of(leaves, g, k.0);
    is_long(len, least_leaf(head), head.fan) && are_fit_slots(leaves, g, ordered, k, len)
}

// Whether every leaf of the first count has as many slots in use as it may, and lengths in them that entries may have.
pub fn every_leaf(head: Head, leaves: &[u32], g: Shape, ordered: bool, count: u32) -> bool
    requires { AreaHolds g (length leaves.now) × (count ≤ g.nodes) × (g.fan ≡ head.fan) }
    ensures { (views effect : ℕ) → g ≡ shape_of (kind_of views effect ordered) head → result ≡ every (is_fit_leaf (kind_of views effect ordered) (state head leaves.now [] [])) 0 count }
{
    (0..count).all(|k| is_fit_leaf(head, leaves, g, ordered, LeafNo(k)))
}
