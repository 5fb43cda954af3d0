// How one node changes: a slot's lengths, a slot put in, a slot divided. A slot is lent as four words, the child first; those count
// that a slot of the tree has.
ghost use Rattle.std.specs.Prelude.{◌≡◌, ◌+◌, ◌-◌, ◌<◌, ◌≤◌, length, take, slice_index};
ghost use Rattle.model.specs.Lists.{put_at};
ghost use Rattle.model.specs.Length.{lengths_in};
ghost use Rattle.model.specs.Node.{node_of, words_of, plus, minus, lengths_at, with_lengths, inserted, child_split};
ghost use Rattle.tree_node.specs.Shaped.{Shaped};

use model::shape::Shape;
use tree_words::run::open_gap;

// The lengths of the slot x, written behind word p. So few words are not copied by copy_from_slice or a loop: LLVM makes these tests
// of where they lie and a call, or a loop over eight words at once.
fn put_lengths(node: &mut [u32], g: Shape, p: usize, x: &[u32; 4])
    requires { Shaped g × (p + g.stride ≤ length node.old) × (length x.now ≡ 4) }
    ensures { node.new ≡ put_at (p + 1) (lengths_in (g.stride - 1) x.now) node.old }
{
    let stride = g.stride;
    node[p + 1] = x[1];
    if 2 < stride {
        node[p + 2] = x[2];
    }
    if 3 < stride {
        node[p + 3] = x[3];
    }
}

// Other lengths in slot i: those of the slot x (Slot::set_lengths).
pub fn set_lengths(node: &mut [u32], g: Shape, i: usize, x: &[u32; 4])
    requires { Shaped g × (length node.old ≡ g.size) × (i < g.fan) × (length x.now ≡ 4) }
    ensures { node.new ≡ words_of (with_lengths i (lengths_in (g.stride - 1) x.now) (node_of g.stride g.fan node.old)) }
{
    let stride = g.stride;
    put_lengths(node, g, 3 + i * stride, x);
}

// Lengths added to those in slot i, modulo 2^32.
pub fn add_lengths(node: &mut [u32], g: Shape, i: usize, delta: &[u32; 3])
    requires { Shaped g × (length node.old ≡ g.size) × (i < g.fan) × (length delta.now ≡ 3) }
    ensures { node.new ≡ words_of (with_lengths i (plus (lengths_at i (node_of g.stride g.fan node.old).slots) (take (g.stride - 1) delta.now)) (node_of g.stride g.fan node.old)) }
{
    let stride = g.stride;
    let p = 3 + i * stride;
    node[p + 1] = node[p + 1].wrapping_add(delta[0]);
    if 2 < stride {
        node[p + 2] = node[p + 2].wrapping_add(delta[1]);
    }
    if 3 < stride {
        node[p + 3] = node[p + 3].wrapping_add(delta[2]);
    }
}

// The lengths of x taken from slot i, modulo 2^32.
fn take_lengths(node: &mut [u32], g: Shape, i: usize, x: &[u32; 4])
    requires { Shaped g × (length node.old ≡ g.size) × (i < g.fan) × (length x.now ≡ 4) }
    ensures { node.new ≡ words_of (with_lengths i (minus (lengths_at i (node_of g.stride g.fan node.old).slots) (lengths_in (g.stride - 1) x.now)) (node_of g.stride g.fan node.old)) }
{
    let less = [
        x[1].wrapping_neg(),
        x[2].wrapping_neg(),
        x[3].wrapping_neg(),
    ];
    add_lengths(node, g, i, &less);
}

// The slot x from word p on.
pub fn put_slot(node: &mut [u32], g: Shape, p: usize, x: &[u32; 4])
    requires { Shaped g × (p + g.stride ≤ length node.old) × (length x.now ≡ 4) }
    ensures { node.new ≡ put_at p (take g.stride x.now) node.old }
{
    node[p] = x[0];
    put_lengths(node, g, p, x);
}

// The slot x put at place i (Node::insert).
pub fn insert(node: &mut [u32], g: Shape, i: usize, x: &[u32; 4])
    requires { Shaped g × (length node.old ≡ g.size) × (i ≤ slice_index node.old 0) × (slice_index node.old 0 < g.fan) × (length x.now ≡ 4) }
    ensures { node.new ≡ words_of (inserted i (take g.stride x.now) (node_of g.stride g.fan node.old)) }
{
    let stride = g.stride;
    let len = node[0];
    let p = 3 + i * stride;
    let q = 3 + len as usize * stride;
    open_gap(node, p, q, stride);
    put_slot(node, g, p, x);
    node[0] = len + 1;
}

// The lengths of x taken from slot i, and x put just before it or just after (Node::split_child).
pub fn split_child(node: &mut [u32], g: Shape, before: bool, i: usize, x: &[u32; 4])
    requires { Shaped g × (length node.old ≡ g.size) × (i < slice_index node.old 0) × (slice_index node.old 0 < g.fan) × (length x.now ≡ 4) }
    ensures { node.new ≡ words_of (child_split before i (take g.stride x.now) (node_of g.stride g.fan node.old)) }
{
    take_lengths(node, g, i, x);
    insert(node, g, i + usize::from(!before), x);
}
