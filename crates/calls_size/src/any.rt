// Other lengths for an entry of a tree with views lengths an entry, positions answered in view effect; ordered: the first two are a lowest
// and a highest one.
ghost use Rattle.model.specs.Numbered.{numbered};
ghost use Rattle.std.specs.Prelude.{◌≡◌, ℕ, ◌-◌, ◌<◌, ◌≤◌, length, take};
ghost use Rattle.model.specs.State.{state};
ghost use Rattle.model.specs.Kind.{kind_of};
ghost use Rattle.model.specs.Length.{lengths_in};
ghost use Rattle.model.specs.Node.{lengths, minus};
ghost use Rattle.model.specs.Refuse.{shape_of};
ghost use Rattle.model.specs.Calls.{reply, resize_causes, slot_at};
ghost use Rattle.tree_node.specs.Shaped.{Shaped};
ghost use Rattle.tree_open.specs.Open.{opened_by};
ghost use Rattle.calls_size.specs.Size.{resize, old_by};

use model::answer::Reply;
use model::head::{Cursor, Head};
use model::refusal::Refusal;
use model::shape::Shape;
use model::way::Broken;
use tree_open::lengths::{crossed, lengths_at, past, too_many_lines};
use tree_open::open::open_at;
use tree_place::size::{asked_way, replace};

// What both calls test, too many line ends before all else; the entry's own lengths into old where nothing is refused, or Total is.
fn open_resize(
    views: usize,
    ordered: bool,
    head: Head,
    leaves: &[u32],
    inners: &[u32],
    homes: &[u32],
    at: Cursor,
    old: &mut [u32; 4],
    new: &[u32; 4],
) -> Result<Shape, Refusal>
    requires { (1 ≤ views) × (views ≤ 3) × (length old.old ≡ 4) × (length new.now ≡ 4) }
    ensures { (effect : ℕ) → (numbered result ≡ opened_by (resize_causes (kind_of views effect ordered) (state head leaves.now inners.now homes.now) at (lengths_in views new.now)) (shape_of (kind_of views effect ordered) head)) × old_by (numbered result) (lengths_in views old.new) (lengths (slot_at (kind_of views effect ordered) (state head leaves.now inners.now homes.now) at)) × (length old.new ≡ 4) }
{
    if too_many_lines(views, new) {
        return Err(Refusal::Field);
    }
    let g = open_at(views, head, leaves, inners, homes, at)?;
    if crossed(views, ordered, new) {
        return Err(Refusal::Bounds);
    }
    lengths_at(leaves, g, at.leaf, at.slot, old);
    if past(head.root, inners, views, g.fan, g.nodes, old, new) {
        return Err(Refusal::Total);
    }
    Ok(g)
}

// The difference of lengths, modulo 2 ^ 32; words of lengths that there aren't stay as they are.
fn minus(g: Shape, new: &[u32; 4], old: &[u32; 4], delta: &mut [u32; 3])
    requires { Shaped g × (length new.now ≡ 4) × (length old.now ≡ 4) × (length delta.old ≡ 3) }
    ensures { (take (g.stride - 1) delta.new ≡ minus (lengths_in (g.stride - 1) new.now) (lengths_in (g.stride - 1) old.now)) × (length delta.new ≡ 3) }
{
    let stride = g.stride;
    delta[0] = new[1].wrapping_sub(old[1]);
    if 2 < stride {
        delta[1] = new[2].wrapping_sub(old[2]);
    }
    if 3 < stride {
        delta[2] = new[3].wrapping_sub(old[3]);
    }
}

// Other lengths for the entry at a cursor, and, where it is asked for, its position, else 0. One function for both calls, so that a
// host's library has it once.
pub fn resize(
    views: usize,
    effect: usize,
    ordered: bool,
    head: Head,
    leaves: &mut [u32],
    inners: &mut [u32],
    homes: &[u32],
    at: Cursor,
    new: &[u32; 4],
    summed: bool,
) -> Reply<u32>
    requires { (1 ≤ views) × (views ≤ 3) × (effect < views) × (length new.now ≡ 4) }
    ensures { reply (state result.head leaves.new inners.new homes.now) (numbered result.answer) ≡ resize (kind_of views effect ordered) summed (state head leaves.old inners.old homes.now) at (lengths_in views new.now) }
{
    let mut old: [u32; 4] = [0; 4];
    let mut delta: [u32; 3] = [0; 3];
    match open_resize(
        views, ordered, head, leaves, inners, homes, at, &mut old, new,
    ) {
        Err(why) => Reply {
            head,
            answer: Err(why),
        },
        Ok(g) => {
            let k = at.leaf;
            let i = at.slot;
            let levels = head.levels;
            let after = replace(head, leaves, g, k, i, new);
            minus(g, new, &old, &mut delta);
            match asked_way(
                leaves, inners, views, effect, g.fan, g.nodes, &delta, levels, k, i, summed,
            ) {
                Ok(n) => Reply {
                    head: after,
                    answer: Ok((n % 4294967296) as u32),
                },
                Err(Broken) => Reply {
                    head,
                    answer: Err(Refusal::Link),
                },
            }
        }
    }
}
