// The lengths that a call tests: those of the entry at a cursor, and the tree's totals. Lengths are lent as a slot: four words, the
// child first; those count that a slot of the tree has.
ghost use Rattle.std.specs.Prelude.{◌≡◌, cond, true, [], ℕ, ◌+◌, ◌-◌, ◌*◌, ◌<◌, ◌≤◌, ltb, length, get_or, take, drop};
ghost use Rattle.model.specs.Kind.{kind, kind_of, too_many_lines, crossed};
ghost use Rattle.model.specs.Length.{lengths_in};
ghost use Rattle.model.specs.Node.{node_of, lengths, total, used};
ghost use Rattle.model.specs.State.{shape_for, node_at};
ghost use Rattle.model.specs.Refuse.{crossed_parts};
ghost use Rattle.tree_node.specs.Shaped.{Shaped};
ghost use Rattle.tree_area.specs.Area.{AreaHolds};
ghost use Rattle.tree_open.specs.Lengths.{more_in, hollow_in, past_in, below, Low, TotalsIn};

use model::number::{LeafNo, NodeNo};
use model::shape::{Shape, shape_for};
use tree_area::word::length_of;

// The lengths in slot i of leaf k; those that a slot doesn't have stay as they are.
pub fn lengths_at(leaves: &[u32], g: Shape, k: LeafNo, i: u32, x: &mut [u32; 4])
    requires { AreaHolds g (length leaves.now) × (k.0 < g.nodes) × (i < g.fan) × (length x.old ≡ 4) }
    ensures { (lengths_in (g.stride - 1) x.new ≡ lengths (get_or (node_at g k.0 leaves.now).slots i [])) × (length x.new ≡ 4) }
{
    let stride = g.stride;
    let at = i as usize;
    x[1] = length_of(leaves, g, 0, k.0, at);
    if 2 < stride {
        x[2] = length_of(leaves, g, 1, k.0, at);
    }
    if 3 < stride {
        x[3] = length_of(leaves, g, 2, k.0, at);
    }
}

// Whether lengths have more line ends than an entry may have: above 65,535 in the third view, where a slot has it.
pub fn too_many_lines(views: usize, x: &[u32; 4]) -> bool
    requires { (1 ≤ views) × (views ≤ 3) × (length x.now ≡ 4) }
    ensures { (effect : ℕ) → result ≡ too_many_lines (kind views effect) (lengths_in views x.now) }
{
    2 < views && 65535 < x[3]
}

// Whether lengths are more than an entry has, in some view.
pub fn too_much(g: Shape, given: &[u32; 4], own: &[u32; 4]) -> bool
    requires { Shaped g × (length given.now ≡ 4) × (length own.now ≡ 4) }
    ensures { result ≡ more_in (g.stride - 1) (lengths_in (g.stride - 1) given.now) (lengths_in (g.stride - 1) own.now) }
{
    let stride = g.stride;
    own[1] < given[1] || 2 < stride && own[2] < given[2] || 3 < stride && own[3] < given[3]
}

// Whether the moved part, or the part left behind, has zero in every length: what is moved isn't more than nothing, or the entry hasn't
// more than what is moved.
pub fn hollow_part(g: Shape, given: &[u32; 4], own: &[u32; 4]) -> bool
    requires { Shaped g × (length given.now ≡ 4) × (length own.now ≡ 4) }
    ensures { result ≡ hollow_in (g.stride - 1) (lengths_in (g.stride - 1) given.now) (lengths_in (g.stride - 1) own.now) }
{
    let nothing: [u32; 4] = [0; 4];
    !too_much(g, given, &nothing) || !too_much(g, own, given)
}

// Whether the first length is above the second, where they are a lowest and a highest one; a second that a slot doesn't have is 0.
pub fn crossed(views: usize, ordered: bool, x: &[u32; 4]) -> bool
    requires { (1 ≤ views) × (views ≤ 3) × (length x.now ≡ 4) }
    ensures { result ≡ crossed (kind_of views 0 ordered) (lengths_in views x.now) }
{
    let second = if 1 < views { x[2] } else { 0 };
    ordered && second < x[1]
}

// What is left of an entry's own length.
fn left(own: u32, given: u32) -> u32
    ensures { result ≡ own - given }
{
    own.saturating_sub(given)
}

// The same of what is moved or of what is left behind.
pub fn crossed_part(views: usize, ordered: bool, given: &[u32; 4], own: &[u32; 4]) -> bool
    requires { (1 ≤ views) × (views ≤ 3) × (length given.now ≡ 4) × (length own.now ≡ 4) }
    ensures { result ≡ (crossed_parts (kind_of views 0 ordered) (lengths_in views given.now) (lengths_in views own.now)).applies }
{
    let rest: [u32; 4] = [
        0,
        left(own[1], given[1]),
        left(own[2], given[2]),
        left(own[3], given[3]),
    ];
    crossed(views, ordered, given) || crossed(views, ordered, &rest)
}

// How many of a node's slots are in use: all where its len is past the fan.
fn in_use(len: usize, fan: usize) -> usize
    ensures { (result ≤ fan) × (result ≡ cond (ltb len fan) len fan) }
{
    len.min(fan)
}

// Whether the words of a node's first len slots are all below 2^26. The bits of each column are kept apart, so that the compiler takes
// a slot of four words by one load.
fn low(node: &[u32], g: Shape, len: usize) -> bool
    requires { Shaped g × (length node.now ≡ g.size) × (len ≤ g.fan) }
    ensures { Low result (take (len * g.stride) (drop 3 node.now)) }
{
    let stride = g.stride;
    let mut child: u32 = 0;
    let mut first: u32 = 0;
    let mut second: u32 = 0;
    let mut third: u32 = 0;
    for k in 0..len {
        let p = 3 + k * stride;
        child |= node[p];
        first |= node[p + 1];
        if 2 < stride {
            second |= node[p + 2];
        }
        if 3 < stride {
            third |= node[p + 3];
        }
    }
    (child | first | second | third) < 67108864
}

// The same of the slots in use of inner node k: then no total of theirs passes 2^31.
fn low_in(inners: &[u32], g: Shape, k: NodeNo) -> bool
    requires { AreaHolds g (length inners.now) × (k.0 < g.nodes) }
    ensures { result ≡ true → (v : ℕ) → v + 1 < g.stride → total v (used (node_at g k.0 inners.now)) ≤ 2147483648 }
{
    let size = g.size;
    let a = k.0 as usize * size;
    let e = a + size;
    let len = in_use(inners[a] as usize, g.fan);
    low(&inners[a..e], g, len)
}

// Whether every length is below 2^31.
fn small(g: Shape, new: &[u32; 4]) -> bool
    requires { Shaped g × (length new.now ≡ 4) }
    ensures { result ≡ true → below 2147483648 (lengths_in (g.stride - 1) new.now) }
{
    let stride = g.stride;
    let mut all = new[1];
    if 2 < stride {
        all |= new[2];
    }
    if 3 < stride {
        all |= new[3];
    }
    all < 2147483648
}

// The lengths of all slots in use of a node, view by view, with 0 for a view that there isn't.
#[derive(Clone, Copy)]
pub struct Totals {
    pub first: u64,
    pub second: u64,
    pub third: u64,
}

// The totals of one node, in one pass over its slots: at most 32 words each.
fn used_totals(node: &[u32], g: Shape) -> Totals
    requires { Shaped g × (length node.now ≡ g.size) }
    ensures { TotalsIn g (node_of g.stride g.fan node.now) result.first result.second result.third }
{
    let stride = g.stride;
    let len = in_use(node[0] as usize, g.fan);
    let mut first: u64 = 0;
    let mut second: u64 = 0;
    let mut third: u64 = 0;
    for k in 0..len {
        let p = 3 + k * stride;
        first += node[p + 1] as u64;
        if 2 < stride {
            second += node[p + 2] as u64;
        }
        if 3 < stride {
            third += node[p + 3] as u64;
        }
    }
    Totals {
        first,
        second,
        third,
    }
}

// The totals of inner node k.
pub fn totals_in(inners: &[u32], g: Shape, k: NodeNo) -> Totals
    requires { AreaHolds g (length inners.now) × (k.0 < g.nodes) }
    ensures { TotalsIn g (node_at g k.0 inners.now) result.first result.second result.third }
{
    let size = g.size;
    let a = k.0 as usize * size;
    let e = a + size;
    used_totals(&inners[a..e], g)
}

// Whether a total would pass u32 with new for old.
fn past_in(sum: u64, old: u32, new: u32) -> bool
    requires { sum ≤ 137438953440 }
    ensures { result ≡ ltb (4294967295 + old) (sum + new) }
{
    4294967295 + (old as u64) < sum + (new as u64)
}

// The same in some view.
fn past_some(root: NodeNo, inners: &[u32], g: Shape, old: &[u32; 4], new: &[u32; 4]) -> bool
    requires { AreaHolds g (length inners.now) × (root.0 < g.nodes) × (length old.now ≡ 4) × (length new.now ≡ 4) }
    ensures { result ≡ past_in g root.0 inners.now (lengths_in (g.stride - 1) old.now) (lengths_in (g.stride - 1) new.now) }
{
    let stride = g.stride;
    let t = totals_in(inners, g, root);
    past_in(t.first, old[1], new[1])
        || 2 < stride && past_in(t.second, old[2], new[2])
        || 3 < stride && past_in(t.third, old[3], new[3])
}

// Whether one of the root's totals would pass u32 with new for old. Most often one look at the words says no, and nothing is summed up.
pub fn past(
    root: NodeNo,
    inners: &[u32],
    views: usize,
    fan: usize,
    nodes: usize,
    old: &[u32; 4],
    new: &[u32; 4],
) -> bool
    requires { AreaHolds (shape_for views fan nodes) (length inners.now) × (root.0 < nodes) × (length old.now ≡ 4) × (length new.now ≡ 4) }
    ensures { result ≡ past_in (shape_for views fan nodes) root.0 inners.now (lengths_in views old.now) (lengths_in views new.now) }
{
    let g = shape_for(views, fan, nodes);
    if small(g, new) && low_in(inners, g, root) {
        return false;
    }
    past_some(root, inners, g, old, new)
}
