// The words of one node of an area, and the functions over one node at that node.
ghost use Rattle.std.specs.Prelude.{◌≡◌, [], ◌+◌, ◌-◌, ◌*◌, ◌<◌, ◌≤◌, length, get_or, take, drop};
ghost use Rattle.model.specs.Lists.{part};
ghost use Rattle.model.specs.Node.{start, child, length_in, used, find_from, wrap};
ghost use Rattle.model.specs.State.{node_at};
ghost use Rattle.model.specs.Climb.{raised};
ghost use Rattle.tree_area.specs.Area.{AreaHolds};
ghost use Rattle.tree_area.specs.Found.{FoundIn};

use model::shape::Shape;

// The words of node k.
fn node_words(area: &[u32], g: Shape, k: u32) -> &[u32]
    requires { AreaHolds g (length area.now) × (k < g.nodes) }
    ensures { (result.now ≡ part (k * g.size) g.size area.now) × (length result.now ≡ g.size) }
{
    let a = k as usize * g.size;
    &area[a..a + g.size]
}

// Word i of node k.
fn word_of(area: &[u32], g: Shape, k: u32, i: usize) -> u32
    requires { AreaHolds g (length area.now) × (k < g.nodes) × (i < g.size) }
    ensures { result ≡ get_or area.now (k * g.size + i) 0 }
{
    area[k as usize * g.size + i]
}

// How many slots node k uses.
pub fn len_of(area: &[u32], g: Shape, k: u32) -> u32
    requires { AreaHolds g (length area.now) × (k < g.nodes) }
    ensures { result ≡ (node_at g k area.now).len }
{
    word_of(area, g, k, 0)
}

// The parent of node k.
pub fn parent_of(area: &[u32], g: Shape, k: u32) -> u32
    requires { AreaHolds g (length area.now) × (k < g.nodes) }
    ensures { result ≡ (node_at g k area.now).parent }
{
    word_of(area, g, k, 1)
}

// The place of node k in its parent.
pub fn at_of(area: &[u32], g: Shape, k: u32) -> u32
    requires { AreaHolds g (length area.now) × (k < g.nodes) }
    ensures { result ≡ (node_at g k area.now).at }
{
    word_of(area, g, k, 2)
}

// Column c of slot i of node k.
fn column_of(area: &[u32], g: Shape, k: u32, i: usize, c: usize) -> u32
    requires { AreaHolds g (length area.now) × (k < g.nodes) × (i < g.fan) × (c < g.stride) }
    ensures { result ≡ get_or (get_or (node_at g k area.now).slots i []) c 0 }
{
    word_of(area, g, k, 3 + i * g.stride + c)
}

// The child in slot i of node k.
pub fn child_of(area: &[u32], g: Shape, k: u32, i: usize) -> u32
    requires { AreaHolds g (length area.now) × (k < g.nodes) × (i < g.fan) }
    ensures { result ≡ child (get_or (node_at g k area.now).slots i []) }
{
    column_of(area, g, k, i, 0)
}

// The length in view of slot i of node k.
pub fn length_of(area: &[u32], g: Shape, view: usize, k: u32, i: usize) -> u32
    requires { AreaHolds g (length area.now) × (view + 1 < g.stride) × (k < g.nodes) × (i < g.fan) }
    ensures { result ≡ length_in view (get_or (node_at g k area.now).slots i []) }
{
    column_of(area, g, k, i, view + 1)
}

// The lengths before slot i of node k: at most 32 words.
pub fn start_in(area: &[u32], g: Shape, view: usize, k: u32, i: u32) -> u64
    requires { AreaHolds g (length area.now) × (k < g.nodes) × (view + 1 < g.stride) × (i ≤ g.fan) }
    ensures { (result ≡ start view i (node_at g k area.now)) × (result ≤ 137438953440) }
{
    let node = node_words(area, g, k);
    tree_node::read::start(node, g, view, i as usize)
}

// The same modulo 2^32.
pub fn start_low_in(area: &[u32], g: Shape, view: usize, k: u32, i: u32) -> u32
    requires { AreaHolds g (length area.now) × (k < g.nodes) × (view + 1 < g.stride) × (i ≤ g.fan) }
    ensures { result ≡ wrap (start view i (node_at g k area.now)) }
{
    let node = node_words(area, g, k);
    tree_node::read::start_low(node, g, view, i as usize)
}

// The slot in use of node k, from slot `from` on, that holds position index of view, counted from there.
pub fn find_in(
    area: &[u32],
    g: Shape,
    view: usize,
    effect: usize,
    k: u32,
    from: usize,
    index: u32,
    effects: u64,
    prepares: u64,
) -> Option<(usize, u32, u64, u64)>
    requires { AreaHolds g (length area.now) × (k < g.nodes) × (view + 1 < g.stride) × (effect + 1 < g.stride) × ((node_at g k area.now).len ≤ g.fan) × (from ≤ (node_at g k area.now).len) × (effects ≤ 281474976710656) × (prepares ≤ 281474976710656) }
    ensures { FoundIn effects prepares result (find_from view effect from index effects prepares (drop from (used (node_at g k area.now)))) }
{
    let node = node_words(area, g, k);
    tree_node::read::find(node, g, view, effect, from, index, effects, prepares)
}

// The same from the first slot on, for the way down, which passes most slots.
pub fn find_first_in(
    area: &[u32],
    g: Shape,
    view: usize,
    effect: usize,
    k: u32,
    index: u32,
    effects: u64,
    prepares: u64,
) -> Option<(usize, u32, u64, u64)>
    requires { AreaHolds g (length area.now) × (k < g.nodes) × (view + 1 < g.stride) × (effect + 1 < g.stride) × ((node_at g k area.now).len ≤ g.fan) × (effects ≤ 281474976710656) × (prepares ≤ 281474976710656) }
    ensures { FoundIn effects prepares result (find_from view effect 0 index effects prepares (used (node_at g k area.now))) }
{
    let node = node_words(area, g, k);
    tree_node::read::find_first(node, g, view, effect, index, effects, prepares)
}

// Lengths added to those in slot i of node k.
pub fn raise_in(area: &mut [u32], g: Shape, delta: &[u32; 3], k: u32, i: u32)
    requires { AreaHolds g (length area.old) × (k < g.nodes) × (i < g.fan) × (length delta.now ≡ 3) }
    ensures { area.new ≡ raised g (take (g.stride - 1) delta.now) k i area.old }
{
    let a = k as usize * g.size;
    tree_node::write::add_lengths(&mut area[a..a + g.size], g, i as usize, delta);
}
