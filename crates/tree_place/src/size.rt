// Other lengths for an entry, and their way up. The difference goes up as three words, of which those count that there are lengths.
ghost use Rattle.std.specs.Prelude.{◌≡◌, ℕ, ◌-◌, ◌<◌, ◌≤◌, List, [], ◌∷◌, length, take};
ghost use Rattle.model.specs.Length.{lengths_in};
ghost use Rattle.model.specs.State.{shape_for, state, node_at};
ghost use Rattle.model.specs.Place.{change, replace};
ghost use Rattle.tree_area.specs.Area.{AreaHolds};
ghost use Rattle.tree_walk.specs.Low.{low_way};
ghost use Rattle.tree_walk.specs.Raise.{raise_up};
ghost use Rattle.tree_place.specs.Asked.{asked_way, way_up};

use crate::change::with_finger;
use model::head::Head;
use model::number::{LeafNo, NodeNo};
use model::shape::{Shape, shape_for};
use model::way::Broken;
use tree_area::word::{at_of, parent_of, start_low_in};
use tree_area::write::set_lengths;
use tree_finger::finger::changing;
use tree_walk::climb::{add_up, climb_up};

// Other lengths in slot i of leaf k, those of the slot x; the head as it is then.
pub fn replace(head: Head, leaves: &mut [u32], g: Shape, k: LeafNo, i: u32, x: &[u32; 4]) -> Head
    requires { AreaHolds g (length leaves.old) × (k.0 < g.nodes) × (i < g.fan) × (length x.now ≡ 4) }
    ensures { (xs hs : List ℕ) → change 0 (state result leaves.new xs hs) k.0 i ≡ replace g (state head leaves.old xs hs) k.0 i (lengths_in (g.stride - 1) x.now) }
{
    set_lengths(leaves, g, k.0, i as usize, x);
    with_finger(changing(head.finger, k, i), head)
}

// The difference goes into every slot above leaf k, and the effect lengths before slot i of it are summed up on the way, modulo
// 2^32 (climb).
pub fn way_sum(
    leaves: &[u32],
    inners: &mut [u32],
    views: usize,
    effect: usize,
    fan: usize,
    nodes: usize,
    d0: u32,
    d1: u32,
    d2: u32,
    levels: u32,
    k: LeafNo,
    i: u32,
) -> Result<u64, Broken>
    requires { AreaHolds (shape_for views fan nodes) (length leaves.now) × AreaHolds (shape_for views fan nodes) (length inners.old) × (effect < views) × (levels ≤ 16) × (k.0 < nodes) × (i < fan) }
    ensures { (result, inners.new) ≡ low_way (way_up (shape_for views fan nodes) effect (take views (d0 ∷ d1 ∷ d2 ∷ [])) levels k.0 i leaves.now inners.old) }
{
    let delta: [u32; 3] = [d0, d1, d2];
    let g = shape_for(views, fan, nodes);
    let sum = start_low_in(leaves, g, effect, k.0, i);
    let parent = NodeNo(parent_of(leaves, g, k.0));
    let at = at_of(leaves, g, k.0);
    climb_up(inners, g, effect, &delta, levels, parent, at, sum)
}

// The same without the sum; whether the way came to the root, as `add_up` answers it.
pub fn way_raise(
    leaves: &[u32],
    inners: &mut [u32],
    views: usize,
    fan: usize,
    nodes: usize,
    d0: u32,
    d1: u32,
    d2: u32,
    levels: u32,
    k: LeafNo,
) -> bool
    requires { AreaHolds (shape_for views fan nodes) (length leaves.now) × AreaHolds (shape_for views fan nodes) (length inners.old) × (k.0 < nodes) }
    ensures { (result, inners.new) ≡ raise_up (shape_for views fan nodes) (take views (d0 ∷ d1 ∷ d2 ∷ [])) levels (node_at (shape_for views fan nodes) k.0 leaves.now).parent (node_at (shape_for views fan nodes) k.0 leaves.now).at inners.old }
{
    let delta: [u32; 3] = [d0, d1, d2];
    let g = shape_for(views, fan, nodes);
    let parent = NodeNo(parent_of(leaves, g, k.0));
    let at = at_of(leaves, g, k.0);
    add_up(inners, g, &delta, levels, parent, at)
}

// The way up with its sum where that is asked for; else 0 is answered for it.
pub fn asked_way(
    leaves: &[u32],
    inners: &mut [u32],
    views: usize,
    effect: usize,
    fan: usize,
    nodes: usize,
    delta: &[u32; 3],
    levels: u32,
    k: LeafNo,
    i: u32,
    summed: bool,
) -> Result<u64, Broken>
    requires { AreaHolds (shape_for views fan nodes) (length leaves.now) × AreaHolds (shape_for views fan nodes) (length inners.old) × (effect < views) × (levels ≤ 16) × (k.0 < nodes) × (i < fan) × (length delta.now ≡ 3) }
    ensures { (result, inners.new) ≡ asked_way summed (low_way (way_up (shape_for views fan nodes) effect (take views delta.now) levels k.0 i leaves.now inners.old)) }
{
    let d0 = delta[0];
    let d1 = delta[1];
    let d2 = delta[2];
    if summed {
        return way_sum(
            leaves, inners, views, effect, fan, nodes, d0, d1, d2, levels, k, i,
        );
    }
    if !way_raise(leaves, inners, views, fan, nodes, d0, d1, d2, levels, k) {
        return Err(Broken);
    }
    Ok(0)
}
