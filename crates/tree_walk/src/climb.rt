// Up from a place in an inner node to the root.
ghost use Rattle.model.specs.Numbered.{numbered};
ghost use Rattle.std.specs.Prelude.{◌≡◌, ◌+◌, ◌-◌, ◌<◌, ◌≤◌, [], length, take};
ghost use Rattle.model.specs.Climb.{rank_up, climb_up, steps_up};
ghost use Rattle.model.specs.Calls.{in_order};
ghost use Rattle.tree_area.specs.Area.{AreaHolds};
ghost use Rattle.tree_walk.specs.Raise.{raise_up};
ghost use Rattle.tree_walk.specs.Low.{low_way};
ghost use Rattle.tree_walk.specs.PathSteps.{steps_by};

use crate::bounds::inside;
use model::number::NodeNo;
use model::refusal::Refusal;
use model::shape::Shape;
use model::way::Broken;
use std::cmp::Ordering;
use tree_area::word::{at_of, parent_of, raise_in, start_in, start_low_in};

// sum and the lengths before place i of inner node k, and so on up (entry_to_char_index).
pub fn rank_up(
    inners: &[u32],
    g: Shape,
    view: usize,
    left: u32,
    k: NodeNo,
    i: u32,
    sum: u64,
) -> Result<u64, Broken>
    requires { AreaHolds g (length inners.now) × (view + 1 < g.stride) × (left ≤ 15) × (sum ≤ 137438953440) }
    ensures { result ≡ rank_up g view left k.0 i sum inners.now }
{
    let mut total = sum;
    let mut node = k.0;
    let mut at = i;
    for _ in 0..left {
        if !inside(g, node, at) {
            return Err(Broken);
        }
        total += start_in(inners, g, view, node, at);
        let up = parent_of(inners, g, node);
        at = at_of(inners, g, node);
        node = up;
    }
    Ok(total)
}

// The same sum modulo 2^32, with delta added to the lengths on the way (climb).
pub fn climb_up(
    inners: &mut [u32],
    g: Shape,
    view: usize,
    delta: &[u32; 3],
    left: u32,
    k: NodeNo,
    i: u32,
    sum: u32,
) -> Result<u64, Broken>
    requires { AreaHolds g (length inners.old) × (view + 1 < g.stride) × (left ≤ 16) × (length delta.now ≡ 3) }
    ensures { (result, inners.new) ≡ low_way (climb_up g view (take (g.stride - 1) delta.now) left k.0 i sum inners.old) }
{
    let mut index = sum;
    let mut node_id = k.0;
    let mut child = i;
    for _ in 0..left {
        if !inside(g, node_id, child) {
            return Err(Broken);
        }
        let here = start_low_in(inners, g, view, node_id, child);
        index = index.wrapping_add(here);
        let up = parent_of(inners, g, node_id);
        let place = at_of(inners, g, node_id);
        raise_in(inners, g, delta, node_id, child);
        node_id = up;
        child = place;
    }
    Ok(index as u64)
}

// The same walk without the sum (add_to_ancestors); whether it came to the root, by a bool as the definition `raise_up` answers.
pub fn add_up(inners: &mut [u32], g: Shape, delta: &[u32; 3], left: u32, k: NodeNo, i: u32) -> bool
    requires { AreaHolds g (length inners.old) × (length delta.now ≡ 3) }
    ensures { (result, inners.new) ≡ raise_up g (take (g.stride - 1) delta.now) left k.0 i inners.old }
{
    let mut node_id = k.0;
    let mut at = i;
    for _ in 0..left {
        if !inside(g, node_id, at) {
            return false;
        }
        let up = parent_of(inners, g, node_id);
        let place = at_of(inners, g, node_id);
        raise_in(inners, g, delta, node_id, at);
        node_id = up;
        at = place;
    }
    true
}

// The places on the way up, the highest first, into the front of steps; whether the way came to the root (path).
pub fn steps_up(
    inners: &[u32],
    g: Shape,
    left: u32,
    k: NodeNo,
    i: u32,
    steps: &mut [u8; 16],
) -> bool
    requires { AreaHolds g (length inners.now) × (left ≤ 15) × (length steps.old ≡ 16) }
    ensures { (steps_by result left steps.new ≡ steps_up g left k.0 i [] inners.now) × (length steps.new ≡ 16) }
{
    let mut node_id = k.0;
    let mut at = i;
    for level in (0..left as usize).rev() {
        if !inside(g, node_id, at) {
            return false;
        }
        steps[level] = at as u8;
        let up = parent_of(inners, g, node_id);
        at = at_of(inners, g, node_id);
        node_id = up;
    }
    true
}

// The first n steps of two paths compared in order. By two tests: `cmp` of steps makes an Ordering and tests it again, and `cmp` of slices
// reads by eights what was just written byte by byte; either takes 2 to 5 ns more, of 8 to 30.
pub fn in_order(xs: &[u8; 16], ys: &[u8; 16], n: usize) -> Result<Ordering, Refusal>
    requires { (n ≤ 16) × (length xs.now ≡ 16) × (length ys.now ≡ 16) }
    ensures { numbered result ≡ in_order (take n xs.now) (take n ys.now) }
{
    for j in 0..n {
        if xs[j] < ys[j] {
            return Ok(Ordering::Less);
        }
        if xs[j] > ys[j] {
            return Ok(Ordering::Greater);
        }
    }
    Ok(Ordering::Equal)
}
