// Everything that repair writes.
ghost use Rattle.std.specs.Prelude.{suc, ◌≤◌};
ghost use Rattle.calls_repair_write.specs.Blank.{Blank};
ghost use Rattle.calls_repair.specs.Job.{Job, JobDone};

use calls_repair_write::inner::nodes;
use calls_repair_write::leaf::each_leaf;
use calls_repair_write::word::link;
use model::head::Head;
use model::length::Slot;
use model::shape::Shape;
use tree_words::run::clear;

// Leaves and homes, the inner nodes from the lowest level up, and the root's missing parent; with the words of empty slots at hand.
fn write(
    head: Head,
    leaves: &mut [u32],
    inners: &mut [u32],
    homes: &mut [u32],
    g: Shape,
    blank: &[u32],
    order: &[u16],
    last: usize,
) -> usize
    requires { Job head g last order.now leaves.old inners.old homes.old × Blank g.stride blank.now }
    ensures { (result ≤ 31457282) × ((w : Job head g last order.now leaves.old inners.old homes.old) → JobDone (suc w.views) head leaves.old inners.old homes.old result leaves.new inners.new homes.new) }
{
    let none = Slot::EMPTY.child;
    let n = head.inners as usize;
    let a = each_leaf(leaves, homes, g, blank, head.leaves);
    let b = nodes(leaves, inners, g, blank, order, last, n);
    let c = link(inners, g, head.root.0, none, 0);
    a + b + c
}

// Every node in use and every entry's home, of a tree whose inner nodes stand in the queue, those of the last level from last on.
pub fn mend(
    head: Head,
    leaves: &mut [u32],
    inners: &mut [u32],
    homes: &mut [u32],
    g: Shape,
    order: &[u16],
    last: usize,
) -> usize
    requires { Job head g last order.now leaves.old inners.old homes.old }
    ensures { (result ≤ 31457282) × ((w : Job head g last order.now leaves.old inners.old homes.old) → JobDone (suc w.views) head leaves.old inners.old homes.old result leaves.new inners.new homes.new) }
{
    let stride = g.stride;
    let mut blank: [u32; 128] = [0; 128];
    clear(&mut blank, stride, 0, 32);
    write(head, leaves, inners, homes, g, &blank, order, last)
}
