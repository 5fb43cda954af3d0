// The calls that begin a tree with views lengths an entry, the first two a lowest and a highest one where they are ordered: one leaf with
// the entry 0, and one inner node above it.
ghost use Rattle.model.specs.Numbered.{numbered, number_of};
ghost use Rattle.std.specs.Prelude.{◌≡◌, ℕ, suc, ◌<◌, ◌≤◌, List, [], ◌∷◌, ◌++◌, length, take, slice_index};
ghost use Rattle.model.specs.Length.{lengths_in};
ghost use Rattle.model.specs.Lists.{Cause, refusal};
ghost use Rattle.model.specs.Kind.{kind_of, stride};
ghost use Rattle.model.specs.Node.{new_node};
ghost use Rattle.model.specs.State.{state, shape, put_node};
ghost use Rattle.model.specs.Calls as calls;
ghost use Rattle.model.specs.Calls.{begun, make_causes, reply};
ghost use Rattle.model.specs.declared.shape.Kind.{Kind};
ghost use Rattle.tree_node.specs.Shaped.{Shaped};
ghost use Rattle.tree_open.specs.Open.{opened_by};
ghost use Rattle.calls_make.specs.Made.{make_by};

use model::answer::Reply;
use model::head::Head;
use model::length::Slot;
use model::number::NodeNo;
use model::refusal::Refusal;
use model::shape::Shape;
use tree_node::split::new_one;
use tree_open::lengths::{crossed, too_many_lines};
use tree_open::open::open_areas;

// Node 0 of an area written anew with the slot x.
fn write_first(area: &mut [u32], g: Shape, parent: u32, x: &[u32; 4])
    requires { Shaped g × (g.size ≤ length area.old) × (length x.now ≡ 4) }
    ensures { area.new ≡ put_node g 0 (new_node g.stride g.fan parent (take g.stride x.now ∷ [])) area.old }
{
    new_one(&mut area[..g.size], g, parent, x);
}

// The tree's first words, and its head. x: the entry 0.
fn begin(
    fan: u32,
    limit: u32,
    stamp: u64,
    g: Shape,
    x: &[u32; 4],
    leaves: &mut [u32],
    inners: &mut [u32],
    homes: &mut [u32],
) -> Head
    requires { Shaped g × (g.size ≤ length leaves.old) × (g.size ≤ length inners.old) × (0 < length homes.old) × (slice_index x.now 0 ≡ 0) × (length x.now ≡ 4) }
    ensures { (K : Kind) → g ≡ shape (stride K) fan limit → state result leaves.new inners.new homes.new ≡ begun K fan limit stamp (lengths_in K.views x.now) leaves.old inners.old homes.old }
{
    let empty = Slot::EMPTY;
    write_first(leaves, g, 0, x);
    write_first(inners, g, empty.child, x);
    homes[0] = 0;
    Head {
        fan,
        limit,
        root: NodeNo(0),
        levels: 1,
        leaves: 1,
        inners: 1,
        entries: 1,
        stamp,
        finger: None,
    }
}

// What make and reset test: the line ends, the areas, and the order of the lengths.
fn open_make(
    views: usize,
    ordered: bool,
    fan: u32,
    limit: u32,
    x: &[u32; 4],
    leaves: &[u32],
    inners: &[u32],
    homes: &[u32],
) -> Result<Shape, Refusal>
    requires { (1 ≤ views) × (views ≤ 3) × (length x.now ≡ 4) }
    ensures { (effect : ℕ) → numbered result ≡ opened_by (make_causes (kind_of views effect ordered) fan limit (lengths_in views x.now) leaves.now inners.now homes.now) (shape (suc views) fan limit) }
{
    if too_many_lines(views, x) {
        return Err(Refusal::Field);
    }
    let g = open_areas(views, fan, limit, leaves, inners, homes)?;
    if crossed(views, ordered, x) {
        return Err(Refusal::Bounds);
    }
    Ok(g)
}

// The same of a new tree, and behind all that whether the shares fit.
fn open_new(
    views: usize,
    ordered: bool,
    shared: Result<(), Refusal>,
    fan: u32,
    limit: u32,
    x: &[u32; 4],
    leaves: &[u32],
    inners: &[u32],
    homes: &[u32],
) -> Result<Shape, Refusal>
    requires { (1 ≤ views) × (views ≤ 3) × (length x.now ≡ 4) }
    ensures { (effect : ℕ) (more : List Cause) → refusal more ≡ number_of shared → numbered result ≡ opened_by (make_causes (kind_of views effect ordered) fan limit (lengths_in views x.now) leaves.now inners.now homes.now ++ more) (shape (suc views) fan limit) }
{
    let g = open_make(views, ordered, fan, limit, x, leaves, inners, homes)?;
    shared?;
    Ok(g)
}

// A new tree with the entry x, 0; a refused one is a head of zeros without finger. shared: whether the shares fit.
pub fn new(
    views: usize,
    ordered: bool,
    shared: Result<(), Refusal>,
    fan: u32,
    limit: u32,
    x: &[u32; 4],
    leaves: &mut [u32],
    inners: &mut [u32],
    homes: &mut [u32],
) -> Reply<()>
    requires { (1 ≤ views) × (views ≤ 3) × (slice_index x.now 0 ≡ 0) × (length x.now ≡ 4) }
    ensures { (effect : ℕ) (more : List Cause) → refusal more ≡ number_of shared → reply (state result.head leaves.new inners.new homes.new) (numbered result.answer) ≡ make_by (kind_of views effect ordered) more fan limit (lengths_in views x.now) leaves.old inners.old homes.old }
{
    match open_new(views, ordered, shared, fan, limit, x, leaves, inners, homes) {
        Err(why) => {
            let zeros = Head {
                fan: 0,
                limit: 0,
                root: NodeNo(0),
                levels: 0,
                leaves: 0,
                inners: 0,
                entries: 0,
                stamp: 0,
                finger: None,
            };
            Reply {
                head: zeros,
                answer: Err(why),
            }
        }
        Ok(g) => Reply {
            head: begin(fan, limit, 1, g, x, leaves, inners, homes),
            answer: Ok(()),
        },
    }
}

// The tree begun anew, with its own fan and limit.
pub fn reset(
    views: usize,
    ordered: bool,
    head: Head,
    x: &[u32; 4],
    leaves: &mut [u32],
    inners: &mut [u32],
    homes: &mut [u32],
) -> Reply<()>
    requires { (1 ≤ views) × (views ≤ 3) × (slice_index x.now 0 ≡ 0) × (length x.now ≡ 4) }
    ensures { (effect : ℕ) → reply (state result.head leaves.new inners.new homes.new) (numbered result.answer) ≡ calls.reset (kind_of views effect ordered) (state head leaves.old inners.old homes.old) (lengths_in views x.now) }
{
    let fan = head.fan;
    let limit = head.limit;
    let stamp = head.stamp.wrapping_add(1);
    match open_make(views, ordered, fan, limit, x, leaves, inners, homes) {
        Err(why) => Reply {
            head,
            answer: Err(why),
        },
        Ok(g) => Reply {
            head: begin(fan, limit, stamp, g, x, leaves, inners, homes),
            answer: Ok(()),
        },
    }
}
