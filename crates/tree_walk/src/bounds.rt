// Tests of stored numbers, made before they are used.
ghost use Rattle.std.specs.Prelude.{◌≡◌, length, nat_lt};
ghost use Rattle.model.specs.Climb.{inside};
ghost use Rattle.model_laws.specs.Down.{sized};
ghost use Rattle.tree_area.specs.Area.{AreaHolds};

use model::shape::Shape;
use tree_area::word::len_of;

// Whether node k is in the area.
pub fn held(g: Shape, k: u32) -> bool
    ensures { result ≡ nat_lt k g.nodes }
{
    (k as usize) < g.nodes
}

// Whether node k is in the area and i is a place in it.
pub fn inside(g: Shape, k: u32, i: u32) -> bool
    ensures { result ≡ inside g k i }
{
    (k as usize) < g.nodes && (i as usize) < g.fan
}

// Whether node k is in the area and says no more slots than it has.
pub fn sized(area: &[u32], g: Shape, k: u32) -> bool
    requires { AreaHolds g (length area.now) }
    ensures { result ≡ sized g k area.now }
{
    (k as usize) < g.nodes && len_of(area, g, k) as usize <= g.fan
}
