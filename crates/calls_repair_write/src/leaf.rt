// Leaves by number: unused slots, and the homes of the entries in them.
ghost use Rattle.std.specs.Prelude.{◌≡◌, List, ℕ, ◌+◌, ◌*◌, ◌<◌, ◌≤◌, length, get_or};
ghost use Rattle.tree_area.specs.Area.{AreaHolds};
ghost use Rattle.calls_repair_write.specs.Blank.{Blank};
ghost use Rattle.calls_repair_write.specs.Toward.{Goal, slot_at};
ghost use Rattle.calls_repair_write.specs.Leaves.{HomesGoal, HomesDone, LeafGoal, LeafDone, LeavesGoal, LeavesAimed, LeavesDone};

use crate::word::{empty, word};
use model::shape::Shape;
use tree_area::word::{child_of, len_of};

// The homes of the entries in leaf k.
fn homes_of(leaves: &[u32], homes: &mut [u32], g: Shape, k: u32, len: u32) -> usize
    requires { AreaHolds g (length leaves.now) × (k < g.nodes) × (len ≤ g.fan) × ((i : ℕ) → i < len → get_or leaves.now (slot_at g k i) 0 < length homes.old) }
    ensures { (result ≤ len) × ((m : List ℕ) → HomesGoal g k len m leaves.now homes.old → HomesDone g k len m leaves.now homes.old result homes.new) }
{
    let mut count: usize = 0;
    for i in 0..len {
        let id = child_of(leaves, g, k, i as usize);
        count += word(homes, id as usize, k);
    }
    count
}

// Leaf k, of which len slots are in use.
fn leaf(leaves: &mut [u32], homes: &mut [u32], g: Shape, blank: &[u32], k: u32, len: u32) -> usize
    requires { AreaHolds g (length leaves.old) × Blank g.stride blank.now × (k < g.nodes) × (len ≤ g.fan) × ((i : ℕ) → i < len → get_or leaves.old (slot_at g k i) 0 < length homes.old) }
    ensures { (result ≤ 160) × ((m : Goal) → LeafGoal g k len m leaves.old homes.old → LeafDone g k len m leaves.old homes.old result leaves.new homes.new) }
{
    let n = homes_of(leaves, homes, g, k, len);
    n + empty(leaves, g, k, len as usize, blank)
}

// The first n leaves.
pub fn each_leaf(leaves: &mut [u32], homes: &mut [u32], g: Shape, blank: &[u32], n: u32) -> usize
    requires { AreaHolds g (length leaves.old) × Blank g.stride blank.now × (n ≤ g.nodes) × LeavesAimed g n leaves.old homes.old }
    ensures { (result ≤ 160 * n) × ((m : Goal) → LeavesGoal g n m leaves.old homes.old → LeavesDone g n m leaves.old homes.old result leaves.new homes.new) }
{
    let mut count: usize = 0;
    for k in 0..n {
        let len = len_of(leaves, g, k);
        count += leaf(leaves, homes, g, blank, k, len);
    }
    count
}
