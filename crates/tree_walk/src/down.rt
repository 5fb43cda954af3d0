// Down from an inner node to a leaf: by first slots, by last slots, to the leaf after a place.
ghost use Rattle.std.specs.Prelude.{◌≡◌, ◌+◌, ◌<◌, ◌≤◌, length};
ghost use Rattle.model.specs.Climb.{first_down, last_down, next_up};
ghost use Rattle.tree_area.specs.Area.{AreaHolds};

use crate::bounds::{held, sized};
use model::number::{LeafNo, NodeNo};
use model::shape::Shape;
use model::way::Broken;
use tree_area::word::{at_of, child_of, len_of, parent_of};

// Down by the first slots (first). Node k is a leaf where no levels are left, so its number has neither kind. Never
// none: the answer is that of `next_up`, which ends with this walk.
pub fn first_down(inners: &[u32], g: Shape, left: u32, k: u32) -> Result<Option<LeafNo>, Broken>
    requires { AreaHolds g (length inners.now) }
    ensures { result ≡ first_down g left k inners.now }
{
    let mut node = k;
    for _ in 0..left {
        if !held(g, node) {
            return Err(Broken);
        }
        node = child_of(inners, g, node, 0);
    }
    if !held(g, node) {
        return Err(Broken);
    }
    Ok(Some(LeafNo(node)))
}

// Down by the last slots in use (last_leaf). Never none, as `first_down`.
pub fn last_down(inners: &[u32], g: Shape, left: u32, k: NodeNo) -> Result<Option<LeafNo>, Broken>
    requires { AreaHolds g (length inners.now) }
    ensures { result ≡ last_down g left k.0 inners.now }
{
    let mut node = k.0;
    for _ in 0..left {
        if !sized(inners, g, node) {
            return Err(Broken);
        }
        let len = len_of(inners, g, node);
        if len == 0 {
            return Err(Broken);
        }
        node = child_of(inners, g, node, len as usize - 1);
    }
    if !held(g, node) {
        return Err(Broken);
    }
    Ok(Some(LeafNo(node)))
}

// Up to the first node with a later child, then down by the first slots (next).
pub fn next_up(
    inners: &[u32],
    g: Shape,
    left: u32,
    k: NodeNo,
    i: u32,
) -> Result<Option<LeafNo>, Broken>
    requires { AreaHolds g (length inners.now) × (left ≤ 15) }
    ensures { result ≡ next_up g left 0 k.0 i inners.now }
{
    let mut node = k.0;
    let mut at = i;
    for climbed in 0..left {
        if !sized(inners, g, node) {
            return Err(Broken);
        }
        let len = len_of(inners, g, node);
        if at >= len {
            return Err(Broken);
        }
        if at + 1 < len {
            let next = child_of(inners, g, node, at as usize + 1);
            return first_down(inners, g, climbed, next);
        }
        let up = parent_of(inners, g, node);
        at = at_of(inners, g, node);
        node = up;
    }
    Ok(None)
}
