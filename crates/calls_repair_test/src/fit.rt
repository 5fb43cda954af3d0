// The whole test.
ghost use Rattle.std.specs.Prelude.{◌≡◌, true, List, ℕ, ◌≤◌, length};
ghost use Rattle.model.specs.Kind.{kind_of};
ghost use Rattle.model.specs.State.{state};
ghost use Rattle.model.specs.Refuse.{shape_of};
ghost use Rattle.model.specs.Mend.{is_fit};
ghost use Rattle.tree_area.specs.Area.{AreaHolds};
ghost use Rattle.calls_repair_test.specs.Queue.{kids_of};
ghost use Rattle.calls_repair_test.specs.Reach.{Marks, QueueReached};
ghost use Rattle.calls_repair_test.specs.Fit.{counted_by, FreshQueue};

use crate::lens::{every_inner, every_leaf};
use crate::queue::Levels;
use crate::reach::reach;
use crate::total::totals;
use model::head::Head;
use model::shape::Shape;

// Counts within the limit, and levels.
fn counts(head: Head, g: Shape) -> bool
    ensures { result ≡ counted_by head g }
{
    head.entries <= head.limit
        && head.leaves as usize <= g.nodes
        && head.inners as usize <= g.nodes
        && 1 <= head.levels
        && head.levels <= 15
}

// Whether the trusted words are those of a sound tree; if so the queue begins with its inner nodes and then its leaves, and the last level
// of inner nodes starts at `start`.
pub fn is_fit(
    head: Head,
    leaves: &[u32],
    inners: &[u32],
    g: Shape,
    ordered: bool,
    order: &mut [u16],
    upper: &mut [u8],
    lower: &mut [u8],
    named: &mut [u8],
) -> Levels
    requires { AreaHolds g (length leaves.now) × AreaHolds g (length inners.now) × FreshQueue head g (length order.old) upper.old lower.old named.old }
    ensures { ((views effect : ℕ) (hs : List ℕ) → g ≡ shape_of (kind_of views effect ordered) head → result.ok ≡ is_fit (kind_of views effect ordered) (state head leaves.now inners.now hs)) × (result.ok ≡ true → QueueReached (kids_of g inners.now) head.root.0 head.levels head.inners head.leaves result.start order.new) }
{
    let n = head.inners;
    let m = head.leaves;
    let no = Levels {
        ok: false,
        start: 0,
        count: 0,
    };
    if !counts(head, g) {
        return no;
    }
    if !every_inner(head, inners, g, n) {
        return no;
    }
    if !every_leaf(head, leaves, g, ordered, m) {
        return no;
    }
    let met = reach(
        leaves,
        inners,
        g,
        order,
        upper,
        lower,
        named,
        head.root.0,
        head.levels as usize,
        n,
        m,
        head.entries,
    );
    if !met.ok {
        return no;
    }
    let ok = totals(leaves, g, order, n as usize, n as usize + m as usize);
    Levels { ok, ..met }
}
