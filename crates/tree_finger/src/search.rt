// The search from the root.
ghost use Rattle.std.specs.Prelude.{◌≡◌, ◌+◌, ◌<◌, ◌≤◌, length};
ghost use Rattle.model.specs.Locate.{from_root};
ghost use Rattle.model.specs.Examined.{downward, with_slots, found_slots};
ghost use Rattle.tree_area.specs.Area.{AreaHolds};
ghost use Rattle.tree_finger.specs.Went.{Went, leaf_slots};

use model::head::Finger;
use model::number::{LeafNo, NodeNo};
use model::shape::Shape;
use model::way::{Broken, Searched, Way};
use tree_area::word::{child_of, find_first_in, find_in, len_of};
use tree_walk::bounds::sized;

// Down to the leaf that holds position index of view, with the effect and the prepare lengths before it, and how many slots stand before those
// taken.
pub fn descend(
    inners: &[u32],
    g: Shape,
    view: usize,
    effect: usize,
    levels: u32,
    root: NodeNo,
    index: u32,
) -> Way
    requires { AreaHolds g (length inners.now) × (view + 1 < g.stride) × (effect + 1 < g.stride) × (levels ≤ 15) }
    ensures { Went view effect g levels root.0 index inners.now result.end result.passed }
{
    let mut node = root.0;
    let mut rest = index;
    let mut effects: u64 = 0;
    let mut prepares: u64 = 0;
    let mut passed: usize = 0;
    for level in 0..levels {
        if !sized(inners, g, node) {
            return Way {
                end: Err(Broken),
                passed: 0,
            };
        }
        let Some((slot, offset, before, prior)) = find_first_in(
            inners, g, view, effect, node, rest, effects, prepares,
        ) else {
            let end = if level == 0 { Ok(None) } else { Err(Broken) };
            return Way { end, passed: 0 };
        };
        node = child_of(inners, g, node, slot);
        rest = offset;
        effects = before;
        prepares = prior;
        passed += slot;
    }
    Way {
        end: Ok(Some((LeafNo(node), rest, effects, prepares))),
        passed,
    }
}

// The slot of leaf k that holds the position left, and the finger there; effects and prepares are the lengths before the leaf, taken the
// slots examined so far; `used` leaves are in use.
fn search_leaf(
    leaves: &[u32],
    g: Shape,
    view: usize,
    effect: usize,
    used: u32,
    k: LeafNo,
    index: u32,
    rest: u32,
    effects: u64,
    prepares: u64,
    taken: u32,
) -> Searched
    requires { AreaHolds g (length leaves.now) × (view + 1 < g.stride) × (effect + 1 < g.stride) × (used ≤ g.nodes) × (rest ≤ index) × (taken ≤ 65535) }
    ensures { result ≡ leaf_slots view effect g used index leaves.now k rest effects prepares taken }
{
    let leaf = k.0;
    if leaf >= used {
        return Searched {
            found: Err(Broken),
            examined: 0,
        };
    }
    let len = len_of(leaves, g, leaf);
    if len as usize > g.fan {
        return Searched {
            found: Err(Broken),
            examined: 0,
        };
    }
    let Some((slot, offset, within, prepare_within)) = find_in(
        leaves, g, view, effect, leaf, 0, rest, 0, 0,
    ) else {
        return Searched {
            found: Err(Broken),
            examined: 0,
        };
    };
    let finger = Finger {
        view: view as u32,
        leaf,
        start: index - rest,
        effect: (effects % 4294967296) as u32,
        slot: slot as u32,
        within: rest - offset,
        effect_within: (within % 4294967296) as u32,
        prepare: (prepares % 4294967296) as u32,
        prepare_within: (prepare_within % 4294967296) as u32,
    };
    Searched {
        found: Ok(Some((finger, offset))),
        examined: taken + slot as u32 + 1,
    }
}

// The search from the root, and the finger that it sets (locate); `used` leaves are in use.
pub fn from_root(
    leaves: &[u32],
    inners: &[u32],
    g: Shape,
    view: usize,
    effect: usize,
    levels: u32,
    root: NodeNo,
    used: u32,
    index: u32,
) -> Searched
    requires { AreaHolds g (length leaves.now) × AreaHolds g (length inners.now) × (view + 1 < g.stride) × (effect + 1 < g.stride) × (levels ≤ 15) × (used ≤ g.nodes) }
    ensures { result ≡ with_slots (from_root view effect g levels root.0 used index leaves.now inners.now) (found_slots (from_root view effect g levels root.0 used index leaves.now inners.now) (downward view g leaves.now inners.now levels root.0 index)) }
{
    let way = descend(inners, g, view, effect, levels, root, index);
    match way.end {
        Ok(Some((leaf, rest, effects, prepares))) => {
            let taken = way.passed as u32 + levels;
            search_leaf(
                leaves, g, view, effect, used, leaf, index, rest, effects, prepares, taken,
            )
        }
        Ok(None) => Searched {
            found: Ok(None),
            examined: 0,
        },
        Err(Broken) => Searched {
            found: Err(Broken),
            examined: 0,
        },
    }
}
