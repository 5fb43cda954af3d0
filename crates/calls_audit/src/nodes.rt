// One node of an area: sums of its lengths, and whether it is filled as it must be.
ghost use Rattle.std.specs.Prelude.{◌≡◌, true, [], ◌+◌, ◌-◌, ◌<◌, ◌≤◌, length, get_or};
ghost use Rattle.model.specs.Kind.{stride};
ghost use Rattle.model.specs.Node.{total, used, start};
ghost use Rattle.model.specs.State.{state, node_at};
ghost use Rattle.model.specs.Refuse.{shape_of};
ghost use Rattle.model.specs.Audit.{every, is_empty_slot, is_filled};
ghost use Rattle.model.specs.declared.shape.Kind.{Kind};
ghost use Rattle.tree_area.specs.Area.{AreaHolds};

use model::head::Head;
use model::length::Slot;
use model::shape::Shape;
use tree_area::word::{child_of, len_of, length_of, start_in};
use tree_node::read::used_total;

// The lengths of the slots in use of node k.
pub fn total_in(area: &[u32], g: Shape, view: usize, k: u32) -> u64
    requires { AreaHolds g (length area.now) × (k < g.nodes) × (view + 1 < g.stride) }
    ensures { result ≡ total view (used (node_at g k area.now)) }
{
    let a = k as usize * g.size;
    used_total(&area[a..a + g.size], g, view)
}

// The lengths before slot i of node k, however large i is.
pub fn start_any(area: &[u32], g: Shape, view: usize, k: u32, i: u32) -> u64
    requires { AreaHolds g (length area.now) × (k < g.nodes) × (view + 1 < g.stride) }
    ensures { result ≡ start view i (node_at g k area.now) }
{
    start_in(area, g, view, k, i.min(g.fan as u32))
}

// Whether slot i of node k is empty: Slot::EMPTY's child, and 0 in every view.
fn is_empty_slot(area: &[u32], g: Shape, k: u32, i: usize) -> bool
    requires { AreaHolds g (length area.now) × (k < g.nodes) × (i < g.fan) }
    ensures { (K : Kind) → g.stride ≡ stride K → result ≡ is_empty_slot K (get_or (node_at g k area.now).slots i []) }
{
    child_of(area, g, k, i) == Slot::EMPTY.child
        && (0..g.stride - 1).all(|v| length_of(area, g, v, k, i) == 0)
}

// Whether the slots of node k are empty from slot len on.
fn is_empty_from(area: &[u32], g: Shape, k: u32, len: usize) -> bool
    requires { AreaHolds g (length area.now) × (k < g.nodes) }
    ensures { (K : Kind) → g.stride ≡ stride K → result ≡ every (λ i. is_empty_slot K (get_or (node_at g k area.now).slots i [])) len (g.fan - len) }
{
    (len..g.fan).all(|i| is_empty_slot(area, g, k, i))
}

// Whether the len of node k is within its bounds and its unused slots are empty.
pub fn is_filled(head: Head, area: &[u32], g: Shape, k: u32, least: u32) -> bool
    requires { AreaHolds g (length area.now) × (k < g.nodes) }
    ensures { ((K : Kind) → g ≡ shape_of K head → result ≡ is_filled K (state head [] [] []) least (node_at g k area.now)) × (result ≡ true → (node_at g k area.now).len ≤ g.fan) }
{
    let len = len_of(area, g, k);
    least <= len && len as usize <= g.fan && is_empty_from(area, g, k, len as usize)
}
