// What a call tests before it does anything: fan and limit, the areas, the head's counts, its cursor.
ghost use Rattle.model.specs.Numbered.{numbered, number_of};
ghost use Rattle.std.specs.Prelude.{◌≡◌, [], ◌++◌, ℕ, suc, ◌+◌, ◌*◌, ◌<◌, ◌≤◌, length, get_or};
ghost use Rattle.model.specs.Kind.{kind};
ghost use Rattle.model.specs.Lists.{refusal};
ghost use Rattle.model.specs.State.{state, shape, nodes_for, node_at};
ghost use Rattle.model.specs.Refuse.{bad_size, too_short, astray, shape_of, opening, stale, at_cursor};
ghost use Rattle.model.specs.Calls.{area_causes};
ghost use Rattle.model.specs.declared.shape.Kind.{Kind};
ghost use Rattle.tree_node.specs.Shaped.{Shaped};
ghost use Rattle.tree_area.specs.Area.{AreaHolds};
ghost use Rattle.tree_open.specs.Open.{opened_by};

use model::head::{Cursor, Head};
use model::refusal::Refusal;
use model::shape::{Shape, shape_for};
use tree_area::word::len_of;

pub fn bad_size(fan: u32, limit: u32) -> bool
    ensures { result ≡ (bad_size fan limit).applies }
{
    fan < 4 || 32 < fan || limit < 1 || 65536 < limit
}

// 2^21 over half, and a little more: what is multiplied by in place of a division by half, which costs more than all other
// tests of a call. Every remainder has its arm, so that the compiler makes a table of them and drops the last.
fn reciprocal(half: u32) -> u64
    requires { (2 ≤ half) × (half ≤ 16) }
    ensures { (2097152 < result * half) × (result * half ≤ 2097152 + half) × (result ≤ 1048577) }
{
    match half % 16 {
        0 => 131073,
        1 => 2097153,
        2 => 1048577,
        3 => 699051,
        4 => 524289,
        5 => 419431,
        6 => 349526,
        7 => 299594,
        8 => 262145,
        9 => 233017,
        10 => 209716,
        11 => 190651,
        12 => 174763,
        13 => 161320,
        14 => 149797,
        15 => 139811,
        _ => 2097152 / (half as u64) + 1,
    }
}

// The nodes that the leaf area and the inner area each need.
fn nodes_for(fan: u32, limit: u32) -> usize
    requires { (4 ≤ fan) × (fan ≤ 32) × (limit ≤ 65536) }
    ensures { (result ≡ nodes_for fan limit) × (result ≤ 65536) }
{
    let n = limit as u64 * reciprocal(fan / 2) / 2097152;
    n.max(1) as usize
}

// The sizes of everything, from a good fan and limit.
pub fn shape_of(views: usize, fan: u32, limit: u32) -> Shape
    requires { (1 ≤ views) × (views ≤ 3) × (4 ≤ fan) × (fan ≤ 32) × (limit ≤ 65536) }
    ensures { (result ≡ shape (suc views) fan limit) × Shaped result }
{
    let nodes = nodes_for(fan, limit);
    shape_for(views, fan as usize, nodes)
}

pub fn too_short(g: Shape, limit: u32, leaves: &[u32], inners: &[u32], homes: &[u32]) -> bool
    requires { Shaped g }
    ensures { result ≡ (too_short g limit leaves.now inners.now homes.now).applies }
{
    let words = g.nodes * g.size;
    leaves.len() < words || inners.len() < words || homes.len() < limit as usize
}

pub fn astray(g: Shape, head: Head) -> bool
    ensures { result ≡ (astray g head).applies }
{
    let nodes = g.nodes;
    nodes <= head.root.0 as usize
        || head.levels < 1
        || 15 < head.levels
        || nodes < head.leaves as usize
        || nodes < head.inners as usize
        || head.limit < head.entries
}

// What make and reset test of the areas, and audit too.
pub fn open_areas(
    views: usize,
    fan: u32,
    limit: u32,
    leaves: &[u32],
    inners: &[u32],
    homes: &[u32],
) -> Result<Shape, Refusal>
    requires { (1 ≤ views) × (views ≤ 3) }
    ensures { (effect : ℕ) → numbered result ≡ opened_by (area_causes (kind views effect) fan limit leaves.now inners.now homes.now) (shape (suc views) fan limit) }
{
    if bad_size(fan, limit) {
        return Err(Refusal::Size);
    }
    let g = shape_of(views, fan, limit);
    if too_short(g, limit, leaves, inners, homes) {
        return Err(Refusal::Area);
    }
    Ok(g)
}

// What every call tests that reads links.
pub fn open(
    views: usize,
    head: Head,
    leaves: &[u32],
    inners: &[u32],
    homes: &[u32],
) -> Result<Shape, Refusal>
    requires { (1 ≤ views) × (views ≤ 3) }
    ensures { (effect : ℕ) → numbered result ≡ opened_by (opening (kind views effect) (state head leaves.now inners.now homes.now)) (shape_of (kind views effect) head) }
{
    let fan = head.fan;
    let limit = head.limit;
    let g = open_areas(views, fan, limit, leaves, inners, homes)?;
    if astray(g, head) {
        return Err(Refusal::Link);
    }
    Ok(g)
}

// Whether a cursor is current: it bears the tree's stamp, its leaf is in use, and its slot is below the leaf's len.
pub fn current(head: Head, leaves: &[u32], g: Shape, c: Cursor) -> Result<(), Refusal>
    requires { AreaHolds g (length leaves.now) × (head.leaves ≤ g.nodes) }
    ensures { (K : Kind) → g ≡ shape_of K head → number_of result ≡ refusal (stale K (state head leaves.now [] []) c) }
{
    let k = c.leaf.0;
    if c.stamp != head.stamp {
        return Err(Refusal::Stamp);
    }
    if k >= head.leaves {
        return Err(Refusal::Leaf);
    }
    let len = len_of(leaves, g, k);
    if c.slot >= len {
        return Err(Refusal::Slot);
    }
    Ok(())
}

// What every call tests that takes a cursor.
#[inline(always)]
pub fn open_at(
    views: usize,
    head: Head,
    leaves: &[u32],
    inners: &[u32],
    homes: &[u32],
    c: Cursor,
) -> Result<Shape, Refusal>
    requires { (1 ≤ views) × (views ≤ 3) }
    ensures { (effect : ℕ) → numbered result ≡ opened_by (opening (kind views effect) (state head leaves.now inners.now homes.now) ++ at_cursor (kind views effect) (state head leaves.now inners.now homes.now) c) (shape_of (kind views effect) head) }
{
    let g = open(views, head, leaves, inners, homes)?;
    current(head, leaves, g, c)?;
    if g.fan < len_of(leaves, g, c.leaf.0) as usize {
        return Err(Refusal::Link);
    }
    Ok(g)
}
