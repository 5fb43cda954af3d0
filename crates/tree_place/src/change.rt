// A change on its way, and the heads that it leaves.
ghost use Rattle.std.specs.Prelude.{◌≡◌, ◌<◌, ◌≤◌, length};
ghost use Rattle.model.specs.Place.{with_finger};
ghost use Rattle.tree_place.specs.Room.{halved, entered};

use model::head::{Finger, Head};
use model::number::{LeafNo, NodeNo};
use tree_finger::finger::changing;

// The head after a change, and the slot at which it happened.
#[derive(Clone, Copy)]
pub struct HeadChange {
    pub head: Head,
    pub leaf: LeafNo,
    pub slot: u32,
}

// The leaves in use and the slot at which an entry comes.
#[derive(Clone, Copy)]
pub struct Room {
    pub leaves: u32,
    pub leaf: LeafNo,
    pub slot: u32,
}

// The head with another finger.
pub fn with_finger(f: Option<Finger>, h: Head) -> Head
    ensures { result ≡ with_finger f h }
{
    Head { finger: f, ..h }
}

// Where slot i of leaf k is when the leaf's upper half has become leaf `used`.
pub fn halved(fan: usize, used: u32, k: LeafNo, i: u32) -> Room
    requires { (fan ≤ 32) × (used ≤ 65536) }
    ensures { result ≡ halved fan used k.0 i }
{
    let half = (fan / 2) as u32;
    let leaves = used + 1;
    if i < half {
        Room {
            leaves,
            leaf: k,
            slot: i,
        }
    } else {
        Room {
            leaves,
            leaf: LeafNo(used),
            slot: i - half,
        }
    }
}

// One entry more at that slot. top: the inner nodes in use, the root, the levels.
pub fn entered(h: Head, top: &[u32; 3], r: Room) -> HeadChange
    requires { (h.entries < 4294967295) × (length top.now ≡ 3) }
    ensures { result ≡ entered h top.now r }
{
    let head = Head {
        root: NodeNo(top[1]),
        levels: top[2],
        leaves: r.leaves,
        inners: top[0],
        entries: h.entries + 1,
        stamp: h.stamp.wrapping_add(1),
        finger: changing(h.finger, r.leaf, r.slot),
        ..h
    };
    HeadChange {
        head,
        leaf: r.leaf,
        slot: r.slot,
    }
}
