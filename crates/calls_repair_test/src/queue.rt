// The nodes of a tree noted in a queue, level by level, each once. A queue holds numbers below 65,536, and a mark is 1.
ghost use Rattle.std.specs.Prelude.{◌≡◌, true, ◌+◌, ◌-◌, ◌<◌, ◌≤◌, length, get_or};
ghost use mathlib.Core.List.{flat_map};
ghost use Rattle.model.specs.Lists.{part, range};
ghost use Rattle.model.specs.State.{node_at};
ghost use Rattle.tree_area.specs.Area.{AreaHolds};
ghost use Rattle.calls_repair_test.specs.Queue.{queue, queue_of, noted, noted_all, kids_of, level_in, QueueRoom, Parents, Lens, Last};

use model::shape::Shape;
use tree_area::word::{child_of, len_of};

// Whether every node so far could be noted, and how many were: no Option, for `queue_of` speaks of the count after a refusal too.
#[derive(Clone, Copy)]
pub struct QueueCount {
    pub ok: bool,
    pub count: usize,
}

// Node c noted as the next of the queue, if it is below n, not marked yet, and the queue holds fewer than most.
fn see(order: &mut [u16], marks: &mut [u8], n: u32, most: usize, count: usize, c: u32) -> QueueCount
    requires { QueueRoom n most (length order.old) (length marks.old) }
    ensures { queue_of result order.new marks.new ≡ noted n most c (queue true count order.old marks.old) }
{
    if c >= n || marks[c as usize] != 0 || count >= most {
        return QueueCount { ok: false, count };
    }
    order[count] = c as u16;
    marks[c as usize] = 1;
    QueueCount {
        ok: true,
        count: count + 1,
    }
}

// The children of inner node k noted in the order of their slots, of which len are in use.
fn children(
    inners: &[u32],
    g: Shape,
    order: &mut [u16],
    marks: &mut [u8],
    n: u32,
    most: usize,
    count: usize,
    k: u32,
    len: u32,
) -> QueueCount
    requires { AreaHolds g (length inners.now) × (k < g.nodes) × (len ≤ g.fan) × (len ≡ (node_at g k inners.now).len) × QueueRoom n most (length order.old) (length marks.old) }
    ensures { queue_of result order.new marks.new ≡ noted_all n most (kids_of g inners.now k) (queue true count order.old marks.old) }
{
    let mut noted = count;
    for i in 0..len {
        let c = child_of(inners, g, k, i as usize);
        let seen = see(order, marks, n, most, noted, c);
        if !seen.ok {
            return seen;
        }
        noted = seen.count;
    }
    QueueCount {
        ok: true,
        count: noted,
    }
}

// The children of the inner nodes that stand in the queue from start up to end, noted in order.
pub fn level(
    inners: &[u32],
    g: Shape,
    order: &mut [u16],
    marks: &mut [u8],
    n: u32,
    most: usize,
    count: usize,
    start: usize,
    end: usize,
) -> QueueCount
    requires { AreaHolds g (length inners.now) × QueueRoom n most (length order.old) (length marks.old) × (start ≤ end) × (end ≤ count) × (end ≤ length order.old) × Parents g inners.now start end order.old }
    ensures { queue_of result order.new marks.new ≡ noted_all n most (flat_map (kids_of g inners.now) (part start (end - start) order.old)) (queue true count order.old marks.old) }
{
    let mut noted = count;
    for j in start..end {
        let k = order[j] as u32;
        let len = len_of(inners, g, k);
        let seen = children(inners, g, order, marks, n, most, noted, k, len);
        if !seen.ok {
            return seen;
        }
        noted = seen.count;
    }
    QueueCount {
        ok: true,
        count: noted,
    }
}

// Whether every inner node could be noted, where the last level starts in the queue, and how many were noted: no Option, for the same.
#[derive(Clone, Copy)]
pub struct Levels {
    pub ok: bool,
    pub start: usize,
    pub count: usize,
}

// The inner nodes below a root that is noted, level by level, of which there are `levels` with the root's.
fn below(
    inners: &[u32],
    g: Shape,
    order: &mut [u16],
    marks: &mut [u8],
    n: u32,
    levels: usize,
) -> Levels
    requires { Lens g n inners.now × QueueRoom n n (length order.old) (length marks.old) × (1 ≤ levels) × (1 ≤ n) × (get_or order.old 0 0 < n) }
    ensures { (queue result.ok result.count order.new marks.new ≡ noted_all n n (flat_map (level_in (kids_of g inners.now) (get_or order.old 0 0)) (range 1 (levels - 1))) (queue true 1 order.old marks.old)) × (result.ok ≡ true → Last n (level_in (kids_of g inners.now) (get_or order.old 0 0) (levels - 1)) result.start result.count order.new) }
{
    let most = n as usize;
    let mut start: usize = 0;
    let mut end: usize = 1;
    for _ in 1..levels {
        let seen = level(inners, g, order, marks, n, most, end, start, end);
        if !seen.ok {
            return Levels {
                ok: false,
                start,
                count: seen.count,
            };
        }
        start = end;
        end = seen.count;
    }
    Levels {
        ok: true,
        start,
        count: end,
    }
}

// The inner nodes from the root down, level by level: whether each is below n and new, and how many there are.
pub fn inner_levels(
    inners: &[u32],
    g: Shape,
    order: &mut [u16],
    marks: &mut [u8],
    n: u32,
    root: u32,
    levels: usize,
) -> Levels
    requires { Lens g n inners.now × QueueRoom n n (length order.old) (length marks.old) × (1 ≤ levels) }
    ensures { (queue result.ok result.count order.new marks.new ≡ noted_all n n (flat_map (level_in (kids_of g inners.now) root) (range 0 levels)) (queue true 0 order.old marks.old)) × (result.ok ≡ true → Last n (level_in (kids_of g inners.now) root (levels - 1)) result.start result.count order.new) }
{
    let first = see(order, marks, n, n as usize, 0, root);
    if !first.ok {
        return Levels {
            ok: false,
            start: 0,
            count: first.count,
        };
    }
    below(inners, g, order, marks, n, levels)
}
