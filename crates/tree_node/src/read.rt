// What is read from one node: sums of lengths, the slot of a position, the slot of a child.
ghost use Rattle.std.specs.Prelude.{◌≡◌, ◌+◌, ◌^◌, ◌<◌, ◌≤◌, length, take, drop, slice_index};
ghost use Rattle.model.specs.Node.{node_of, used, total, start, find_from, index_from, scan, slot_for, wrap};
ghost use Rattle.tree_node.specs.Shaped.{Shaped};

use model::shape::{Scan, Shape};

// The lengths before slot i (Node::start): at most 32 words. Both sums are called for few slots, and keep their place by hand: of
// 3 + k * stride LLVM makes a product behind its loop over four slots. A step_by passes the words between one by one, with a test each.
pub fn start(node: &[u32], g: Shape, view: usize, i: usize) -> u64
    requires { Shaped g × (length node.now ≡ g.size) × (view + 1 < g.stride) × (i ≤ g.fan) }
    ensures { (result ≡ start view i (node_of g.stride g.fan node.now)) × (result ≤ 137438953440) }
{
    let stride = g.stride;
    let mut sum = 0;
    let mut p = 3 + view + 1;
    for _ in 0..i {
        sum += u64::from(node[p]);
        p += stride;
    }
    sum
}

// The same modulo 2^32, in which a position is stored.
pub fn start_low(node: &[u32], g: Shape, view: usize, i: usize) -> u32
    requires { Shaped g × (length node.now ≡ g.size) × (view + 1 < g.stride) × (i ≤ g.fan) }
    ensures { result ≡ wrap (start view i (node_of g.stride g.fan node.now)) }
{
    let stride = g.stride;
    let mut sum: u32 = 0;
    let mut p = 3 + view + 1;
    for _ in 0..i {
        sum = sum.wrapping_add(node[p]);
        p += stride;
    }
    sum
}

// The lengths of all slots in use: at most 32 words.
pub fn used_total(node: &[u32], g: Shape, view: usize) -> u64
    requires { Shaped g × (length node.now ≡ g.size) × (view + 1 < g.stride) }
    ensures { (result ≡ total view (used (node_of g.stride g.fan node.now))) × (result ≤ 137438953440) }
{
    let fan = g.fan;
    let len = node[0] as usize;
    start(node, g, view, len.min(fan))
}

// The first slot from slot `from` on that holds position `index` of view, counted from there; `effects` and the effect
// lengths before it, `prepares` and the prepare lengths (Node::find).
pub fn find(
    node: &[u32],
    g: Shape,
    view: usize,
    effect: usize,
    from: usize,
    index: u32,
    effects: u64,
    prepares: u64,
) -> Option<(usize, u32, u64, u64)>
    requires { Shaped g × (length node.now ≡ g.size) × (view + 1 < g.stride) × (effect + 1 < g.stride) × (slice_index node.now 0 ≤ g.fan) × (from ≤ slice_index node.now 0) × (effects ≤ 2 ^ 48) × (prepares ≤ 2 ^ 48) }
    ensures { result ≡ find_from view effect from index effects prepares (drop from (used (node_of g.stride g.fan node.now))) }
{
    let stride = g.stride;
    let len = node[0] as usize;
    let mut rest = index;
    let mut before = effects;
    let mut prior = prepares;
    for k in from..len {
        let p = 3 + k * stride + 1;
        let here = node[p + view];
        if rest < here {
            return Some((k, rest, before, prior));
        }
        rest -= here;
        before += u64::from(node[p + effect]);
        prior += u64::from(node[p]);
    }
    None
}

// The same from the first slot on, in prepare: its lengths before the slot are what the index has lost.
fn find_prepare(
    node: &[u32],
    g: Shape,
    effect: usize,
    index: u32,
    effects: u64,
    prepares: u64,
) -> Option<(usize, u32, u64, u64)>
    requires { Shaped g × (length node.now ≡ g.size) × (effect + 1 < g.stride) × (slice_index node.now 0 ≤ g.fan) × (effects ≤ 2 ^ 48) × (prepares ≤ 2 ^ 48) }
    ensures { result ≡ find_from 0 effect 0 index effects prepares (used (node_of g.stride g.fan node.now)) }
{
    let stride = g.stride;
    let len = node[0] as usize;
    let mut rest = index;
    let mut sum = effects;
    for k in 0..len {
        let p = 3 + k * stride + 1;
        let here = node[p];
        if rest < here {
            return Some((k, rest, sum, prepares + u64::from(index - rest)));
        }
        rest -= here;
        sum += u64::from(node[p + effect]);
    }
    None
}

// The same in effect. The two stay apart: one loop for both would answer three numbers, put together in either way by find_first,
// and need a definition of its own.
fn find_effect(
    node: &[u32],
    g: Shape,
    effect: usize,
    index: u32,
    effects: u64,
    prepares: u64,
) -> Option<(usize, u32, u64, u64)>
    requires { Shaped g × (length node.now ≡ g.size) × (effect + 1 < g.stride) × (slice_index node.now 0 ≤ g.fan) × (effects ≤ 2 ^ 48) × (prepares ≤ 2 ^ 48) }
    ensures { result ≡ find_from effect effect 0 index effects prepares (used (node_of g.stride g.fan node.now)) }
{
    let stride = g.stride;
    let len = node[0] as usize;
    let mut rest = index;
    let mut sum = prepares;
    for k in 0..len {
        let p = 3 + k * stride + 1;
        let here = node[p + effect];
        if rest < here {
            return Some((k, rest, effects + u64::from(index - rest), sum));
        }
        rest -= here;
        sum += u64::from(node[p]);
    }
    None
}

// The same in any view: two sums a slot are faster than three.
pub fn find_first(
    node: &[u32],
    g: Shape,
    view: usize,
    effect: usize,
    index: u32,
    effects: u64,
    prepares: u64,
) -> Option<(usize, u32, u64, u64)>
    requires { Shaped g × (length node.now ≡ g.size) × (view + 1 < g.stride) × (effect + 1 < g.stride) × (slice_index node.now 0 ≤ g.fan) × (effects ≤ 2 ^ 48) × (prepares ≤ 2 ^ 48) }
    ensures { result ≡ find_from view effect 0 index effects prepares (used (node_of g.stride g.fan node.now)) }
{
    if view == 0 {
        find_prepare(node, g, effect, index, effects, prepares)
    } else if view == effect {
        find_effect(node, g, effect, index, effects, prepares)
    } else {
        find(node, g, view, effect, 0, index, effects, prepares)
    }
}

// The slot that holds the child, and how many slots were read to know it (Node::index_of): the loop ends where the child is met. The count
// goes up behind each read, so that it says what the loop did.
pub fn index_of(node: &[u32], g: Shape, child: u32) -> Scan
    requires { Shaped g × (length node.now ≡ g.size) × (slice_index node.now 0 ≤ g.fan) }
    ensures { result ≡ scan (slice_index node.now 0) (index_from child 0 (used (node_of g.stride g.fan node.now))) }
{
    let stride = g.stride;
    let len = node[0] as usize;
    let mut read: usize = 0;
    for k in 0..len {
        let here = node[3 + k * stride];
        read += 1;
        if here == child {
            return Scan {
                place: Some(k),
                read,
            };
        }
    }
    Scan { place: None, read }
}

// The slot for node k in its parent: its number and its totals, summed up in one pass, with a 0 for each length that a slot doesn't
// have.
pub fn slot_for(node: &[u32], g: Shape, k: u32, x: &mut [u32; 4])
    requires { Shaped g × (length node.now ≡ g.size) × (length x.old ≡ 4) }
    ensures { (take g.stride x.new ≡ slot_for g.stride k (node_of g.stride g.fan node.now)) × (length x.new ≡ 4) }
{
    let stride = g.stride;
    let fan = g.fan;
    let mut first: u32 = 0;
    let mut second: u32 = 0;
    let mut third: u32 = 0;
    for i in 0..fan {
        let p = 3 + i * stride + 1;
        first = first.wrapping_add(node[p]);
        if 2 < stride {
            second = second.wrapping_add(node[p + 1]);
        }
        if 3 < stride {
            third = third.wrapping_add(node[p + 2]);
        }
    }
    *x = [k, first, second, third];
}
