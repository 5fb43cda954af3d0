// The lines of a leaf, and of as many entries as the head says, leaf after leaf.
ghost use Rattle.std.specs.Prelude.{◌≡◌, ℕ, ◌+◌, ◌*◌, ◌<◌, ◌≤◌, length, take, cond, ◌==◌, Ok, Err};
ghost use Rattle.model.specs.Kind.{kind};
ghost use Rattle.model.specs.Numbered.{broken};
ghost use Rattle.model.specs.Lists.{put_at};
ghost use Rattle.model.specs.State.{node_at};
ghost use Rattle.model.specs.Climb.{first_down};
ghost use Rattle.model.specs.Print.{met_from, slot_lines};
ghost use Rattle.tree_area.specs.Area.{AreaHolds};
ghost use Rattle.calls_print.specs.Laid.{laid, laid_by};

use crate::line::line;
use model::number::{LeafNo, NodeNo};
use model::shape::Shape;
use model::way::Broken;
use tree_area::word::{at_of, child_of, len_of, length_of, parent_of};
use tree_walk::down::{first_down, next_up};

// The place behind some lines, and the positions of the entry after them.
#[derive(Clone, Copy)]
struct Lines {
    at: usize,
    p: u32,
    q: u32,
}

// The lines of the first n slots of leaf k, with the lengths in view 0 and in the given one; positions are running sums, modulo 2^32.
fn leaf_lines(
    leaves: &[u32],
    g: Shape,
    view: usize,
    k: LeafNo,
    n: usize,
    page: &mut [u8],
    from: Lines,
) -> Lines
    requires { AreaHolds g (length leaves.now) × (view + 1 < g.stride) × (k.0 < g.nodes) × (n ≤ g.fan) × (from.at + 55 * n ≤ length page.old) }
    ensures { laid result.at result.p result.q page.new ≡ laid_by view (take n (node_at g k.0 leaves.now).slots) (laid from.at from.p from.q page.old) }
{
    let Lines {
        mut at,
        mut p,
        mut q,
    } = from;
    for i in 0..n {
        let id = child_of(leaves, g, k.0, i);
        let prepare = length_of(leaves, g, 0, k.0, i);
        let effect = length_of(leaves, g, view, k.0, i);
        line(page, at, id, p, q, prepare, effect);
        p = p.wrapping_add(prepare);
        q = q.wrapping_add(effect);
        at += 55;
    }
    Lines { at, p, q }
}

// The lines of as many entries as the head says, or Broken where not all are met.
pub fn entry_lines(
    leaves: &[u32],
    inners: &[u32],
    g: Shape,
    effect: usize,
    levels: u32,
    root: u32,
    entries: usize,
    page: &mut [u8],
) -> Result<(), Broken>
    requires { AreaHolds g (length leaves.now) × AreaHolds g (length inners.now) × (effect + 1 < g.stride) × (levels ≤ 15) × (55 * entries ≤ length page.old) }
    ensures { (result ≡ cond (length (met_from g levels leaves.now inners.now entries (first_down g levels root inners.now) 0) == entries) (Ok tt) (Err broken)) × ((views : ℕ) → page.new ≡ put_at 0 (slot_lines (kind views effect) 0 0 (met_from g levels leaves.now inners.now entries (first_down g levels root inners.now) 0)) page.old) }
{
    let mut leaf = first_down(inners, g, levels, root);
    let mut left = entries;
    let mut lines = Lines { at: 0, p: 0, q: 0 };
    // Each turn takes off the lines of a leaf, so no range counts the turns.
    while 0 < left {
        let k = leaf?.ok_or(Broken)?;
        let len = len_of(leaves, g, k.0) as usize;
        if len == 0 || g.fan < len {
            return Err(Broken);
        }
        let n = len.min(left);
        lines = leaf_lines(leaves, g, effect, k, n, page, lines);
        left -= n;
        let parent = parent_of(leaves, g, k.0);
        let place = at_of(leaves, g, k.0);
        leaf = next_up(inners, g, levels, NodeNo(parent), place);
    }
    Ok(())
}
