// The finger: the lookup from where the last one ended, and what a change leaves of it.
ghost use Rattle.std.specs.Prelude.{◌≡◌, ◌+◌, ◌-◌, ◌<◌, ◌≤◌, length};
ghost use Rattle.model.specs.Node.{used};
ghost use Rattle.model.specs.State.{node_at};
ghost use Rattle.model.specs.Locate.{stand, back, walked, served, served_by, rewound, changing};
ghost use Rattle.model.specs.Examined.{span, with_slots, finger_slots, served_slots, held_slots};
ghost use Rattle.tree_area.specs.Area.{AreaHolds};

use model::head::Finger;
use model::number::LeafNo;
use model::shape::Shape;
use model::way::{Broken, Searched};
use tree_area::word::{find_in, len_of, length_of};

// A slot of a leaf and what stands before it in the leaf.
#[derive(Clone, Copy)]
pub struct Stand {
    pub slot: usize,
    pub within: u32,
    pub effect_within: u32,
    pub prepare_within: u32,
}

// Back from the finger's slot to the first that doesn't start past the index, which counts from the leaf's start.
fn back(leaves: &[u32], g: Shape, view: usize, effect: usize, f: Finger, index: u32) -> Stand
    requires { AreaHolds g (length leaves.now) × (view + 1 < g.stride) × (effect + 1 < g.stride) × (f.leaf < g.nodes) × ((node_at g f.leaf leaves.now).len ≤ g.fan) × (f.slot < (node_at g f.leaf leaves.now).len) }
    ensures { stand result.slot result.within result.effect_within result.prepare_within ≡ back view effect (used (node_at g f.leaf leaves.now)) index f.slot f.within f.effect_within f.prepare_within }
{
    let mut stand = Stand {
        slot: f.slot as usize,
        within: f.within,
        effect_within: f.effect_within,
        prepare_within: f.prepare_within,
    };
    for slot in (0..f.slot as usize).rev() {
        if stand.within <= index {
            return stand;
        }
        let length = length_of(leaves, g, view, f.leaf, slot);
        let effect_length = length_of(leaves, g, effect, f.leaf, slot);
        let prepare_length = length_of(leaves, g, 0, f.leaf, slot);
        stand = Stand {
            slot,
            within: stand.within.wrapping_sub(length),
            effect_within: stand.effect_within.wrapping_sub(effect_length),
            prepare_within: stand.prepare_within.wrapping_sub(prepare_length),
        };
    }
    stand
}

// How many slots stand from a to b, back or on, both included. Of two differences, as abs_diff has them, the compiler would keep both at hand
// all the way.
fn span(a: u32, b: u32) -> u32
    requires { (a < 65536) × (b < 65536) }
    ensures { result ≡ span a b }
{
    a.max(b) - a.min(b) + 1
}

// The finger moved from its own slot, back or on, to the slot that holds the index, which counts from the leaf's start. In vain it goes to the
// last of the leaf's len.
fn walked(
    leaves: &[u32],
    g: Shape,
    view: usize,
    effect: usize,
    f: Finger,
    len: u32,
    index: u32,
) -> Searched
    requires { AreaHolds g (length leaves.now) × (view + 1 < g.stride) × (effect + 1 < g.stride) × (f.leaf < g.nodes) × ((node_at g f.leaf leaves.now).len ≤ g.fan) × (f.slot < (node_at g f.leaf leaves.now).len) × (len ≡ (node_at g f.leaf leaves.now).len) }
    ensures { result ≡ with_slots (walked view effect f index (used (node_at g f.leaf leaves.now))) (finger_slots f len (walked view effect f index (used (node_at g f.leaf leaves.now)))) }
{
    let b = back(leaves, g, view, effect, f, index);
    let effects = b.effect_within as u64;
    let prepares = b.prepare_within as u64;
    if index < b.within {
        return Searched {
            found: Err(Broken),
            examined: 0,
        };
    }
    let rest = index - b.within;
    let Some((slot, offset, before, prior)) = find_in(
        leaves, g, view, effect, f.leaf, b.slot, rest, effects, prepares,
    ) else {
        return Searched {
            found: Ok(None),
            examined: len - f.slot,
        };
    };
    let at = slot as u32;
    let finger = Finger {
        slot: at,
        within: index - offset,
        effect_within: (before % 4294967296) as u32,
        prepare_within: (prior % 4294967296) as u32,
        ..f
    };
    Searched {
        found: Ok(Some((finger, offset))),
        examined: span(f.slot, at),
    }
}

// The lookup from the finger, for its own view and an index at or past its leaf's start; `used` leaves are in use.
pub fn served(
    leaves: &[u32],
    g: Shape,
    view: usize,
    effect: usize,
    f: Finger,
    used: u32,
    index: u32,
) -> Searched
    requires { AreaHolds g (length leaves.now) × (view + 1 < g.stride) × (effect + 1 < g.stride) × (used ≤ g.nodes) }
    ensures { result ≡ with_slots (served view effect g f used index leaves.now) (served_slots view effect g f used index leaves.now) }
{
    if f.view as usize != view || index < f.start {
        return Searched {
            found: Ok(None),
            examined: 0,
        };
    }
    if f.leaf >= used {
        return Searched {
            found: Err(Broken),
            examined: 0,
        };
    }
    let len = len_of(leaves, g, f.leaf);
    if len as usize > g.fan || f.slot >= len {
        return Searched {
            found: Err(Broken),
            examined: 0,
        };
    }
    walked(leaves, g, view, effect, f, len, index - f.start)
}

// The same from the finger that is held, if any.
pub fn served_by(
    leaves: &[u32],
    g: Shape,
    view: usize,
    effect: usize,
    held: Option<Finger>,
    used: u32,
    index: u32,
) -> Searched
    requires { AreaHolds g (length leaves.now) × (view + 1 < g.stride) × (effect + 1 < g.stride) × (used ≤ g.nodes) }
    ensures { result ≡ with_slots (served_by view effect g held used index leaves.now) (held_slots view effect g held used index leaves.now) }
{
    match held {
        None => Searched {
            found: Ok(None),
            examined: 0,
        },
        Some(f) => served(leaves, g, view, effect, f, used, index),
    }
}

// Sends the finger to its leaf's first slot. It is lent, not rebuilt: one of the project's named forms (docs/DECISIONS.md, 20).
fn rewind(f: &mut Finger)
    ensures { f.new ≡ rewound f.old }
{
    f.slot = 0;
    f.within = 0;
    f.effect_within = 0;
    f.prepare_within = 0;
}

// The finger at its leaf's first slot.
pub fn rewound(f: Finger) -> Finger
    ensures { result ≡ rewound f }
{
    let mut finger = f;
    rewind(&mut finger);
    finger
}

// What a change at a slot of a leaf leaves of the finger.
pub fn changing(held: Option<Finger>, leaf: LeafNo, slot: u32) -> Option<Finger>
    ensures { result ≡ changing leaf.0 slot held }
{
    match held {
        Some(f) if f.leaf == leaf.0 => {
            if slot < f.slot {
                Some(rewound(f))
            } else {
                held
            }
        }
        _ => None,
    }
}
