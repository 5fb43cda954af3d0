// The sizes of a tree's nodes and areas.
ghost use Rattle.std.specs.Prelude.{◌≡◌, ◌≤◌};
ghost use Rattle.model.specs.State.{shape_for};

// Words of a slot, slots of a node, words of a node, nodes that the leaf area and the inner area each hold.
#[derive(Clone, Copy)]
pub struct Shape {
    pub stride: usize,
    pub fan: usize,
    pub size: usize,
    pub nodes: usize,
}

// The sizes of a tree whose slots have so many lengths. A function that isn't compiled into its callers is handed the three
// numbers and makes its Shape anew: a Shape would go through memory, and the compiler wouldn't know how long a slot is.
pub fn shape_for(views: usize, fan: usize, nodes: usize) -> Shape
    requires { (views ≤ 3) × (fan ≤ 32) }
    ensures { result ≡ shape_for views fan nodes }
{
    Shape {
        stride: views + 1,
        fan: fan,
        size: 3 + fan * (views + 1),
        nodes: nodes,
    }
}

// The kind of a tree: how many lengths a slot has, the view in which calls answer positions, and whether the first length is a lowest
// and the second a highest one.
#[derive(Clone, Copy)]
pub struct Kind {
    pub views: usize,
    pub effect: usize,
    pub ordered: bool,
}

// The slot that holds a child, and how many slots were read to know it.
#[derive(Clone, Copy)]
pub struct Scan {
    pub place: Option<usize>,
    pub read: usize,
}
