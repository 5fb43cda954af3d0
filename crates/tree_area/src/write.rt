// One node of an area changed.
ghost use Rattle.std.specs.Prelude.{◌≡◌, [], ◌∷◌, ◌-◌, ◌*◌, ◌<◌, ◌≤◌, length, take};
ghost use Rattle.model.specs.Length.{lengths_in};
ghost use Rattle.model.specs.Node.{with_lengths, inserted, child_split, new_node};
ghost use Rattle.model.specs.State.{node_at, put_node};
ghost use Rattle.tree_area.specs.Area.{AreaHolds};

use model::shape::Shape;

// Other lengths in slot i of node k: those of the slot x.
pub fn set_lengths(area: &mut [u32], g: Shape, k: u32, i: usize, x: &[u32; 4])
    requires { AreaHolds g (length area.old) × (k < g.nodes) × (i < g.fan) × (length x.now ≡ 4) }
    ensures { area.new ≡ put_node g k (with_lengths i (lengths_in (g.stride - 1) x.now) (node_at g k area.old)) area.old }
{
    let a = k as usize * g.size;
    tree_node::write::set_lengths(&mut area[a..a + g.size], g, i, x);
}

// The slot x put at place i of node k.
pub fn insert(area: &mut [u32], g: Shape, k: u32, i: usize, x: &[u32; 4])
    requires { AreaHolds g (length area.old) × (k < g.nodes) × (i ≤ (node_at g k area.old).len) × ((node_at g k area.old).len < g.fan) × (length x.now ≡ 4) }
    ensures { area.new ≡ put_node g k (inserted i (take g.stride x.now) (node_at g k area.old)) area.old }
{
    let a = k as usize * g.size;
    tree_node::write::insert(&mut area[a..a + g.size], g, i, x);
}

// The lengths of x taken from slot i of node k, and x put just before it or just after.
pub fn split_child(area: &mut [u32], g: Shape, k: u32, before: bool, i: usize, x: &[u32; 4])
    requires { AreaHolds g (length area.old) × (k < g.nodes) × (i < (node_at g k area.old).len) × ((node_at g k area.old).len < g.fan) × (length x.now ≡ 4) }
    ensures { area.new ≡ put_node g k (child_split before i (take g.stride x.now) (node_at g k area.old)) area.old }
{
    let a = k as usize * g.size;
    tree_node::write::split_child(&mut area[a..a + g.size], g, before, i, x);
}

// Node k made anew with the slots x and y.
pub fn new_two(area: &mut [u32], g: Shape, k: u32, parent: u32, x: &[u32; 4], y: &[u32; 4])
    requires { AreaHolds g (length area.old) × (k < g.nodes) × (length x.now ≡ 4) × (length y.now ≡ 4) }
    ensures { area.new ≡ put_node g k (new_node g.stride g.fan parent (take g.stride x.now ∷ take g.stride y.now ∷ [])) area.old }
{
    let a = k as usize * g.size;
    tree_node::split::new_two(&mut area[a..a + g.size], g, parent, x, y);
}
