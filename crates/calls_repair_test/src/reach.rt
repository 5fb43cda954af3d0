// Whether every inner node, leaf and entry in use is met once on the way down from the root.
ghost use Rattle.std.specs.Prelude.{◌≡◌, true, ◌&&◌, ◌+◌, ◌≤◌, eqb, length};
ghost use Rattle.model.specs.Mend.{is_once};
ghost use Rattle.calls_repair_test.specs.Queue.{Lens, kids_of};
ghost use Rattle.calls_repair_test.specs.Reach.{Marks, inners_from, leaves_from, ids_from, QueueReached};

use crate::queue::{Levels, inner_levels, level};
use model::shape::Shape;

// Whether all could be noted, and as many as there are.
fn is_full(ok: bool, count: usize, n: usize) -> bool
    ensures { result ≡ (ok && eqb count n) }
{
    ok && count == n
}

// The inner nodes, the leaves and the ids noted in one queue, each with marks of their own, which are zeros.
pub fn reach(
    leaves: &[u32],
    inners: &[u32],
    g: Shape,
    order: &mut [u16],
    upper: &mut [u8],
    lower: &mut [u8],
    named: &mut [u8],
    root: u32,
    levels: usize,
    n: u32,
    m: u32,
    entries: u32,
) -> Levels
    requires { Lens g n inners.now × Lens g m leaves.now × (1 ≤ levels) × (n + m + entries ≤ length order.old) × Marks n upper.old × Marks m lower.old × Marks entries named.old }
    ensures { (result.ok ≡ (is_once n (inners_from (kids_of g inners.now) root levels) && is_once m (leaves_from (kids_of g inners.now) root levels) && is_once entries (ids_from (kids_of g inners.now) (kids_of g leaves.now) root levels))) × (result.ok ≡ true → QueueReached (kids_of g inners.now) root levels n m result.start order.new) }
{
    let a = n as usize;
    let b = a + m as usize;
    let e = b + entries as usize;
    let first = inner_levels(inners, g, order, upper, n, root, levels);
    let start = first.start;
    let no = Levels {
        ok: false,
        start,
        count: a,
    };
    if !is_full(first.ok, first.count, a) {
        return no;
    }
    let second = level(inners, g, order, lower, m, b, a, start, a);
    if !is_full(second.ok, second.count, b) {
        return no;
    }
    let third = level(leaves, g, order, named, entries, e, b, a, b);
    let ok = is_full(third.ok, third.count, e);
    Levels { ok, ..no }
}
