// Which leaf an entry lives in.
ghost use Rattle.std.specs.Prelude.{◌≡◌, ◌<◌, ◌≤◌, length};
ghost use Rattle.model.specs.Numbered.{broken_number};
ghost use Rattle.model.specs.Node.{used};
ghost use Rattle.model.specs.State.{node_at};
ghost use Rattle.model.specs.Place.{rehome};
ghost use Rattle.tree_area.specs.Area.{AreaHolds};

use model::number::LeafNo;
use model::shape::Shape;
use model::way::Broken;
use tree_area::word::{child_of, len_of};

// The entries of leaf k learn that they live there; broken by an id past the entry count.
pub fn rehome(
    leaves: &[u32],
    homes: &mut [u32],
    g: Shape,
    entries: u32,
    k: LeafNo,
) -> Result<(), Broken>
    requires { AreaHolds g (length leaves.now) × (k.0 < g.nodes) × ((node_at g k.0 leaves.now).len ≤ g.fan) × (entries ≤ length homes.old) }
    ensures { (broken_number result, homes.new) ≡ rehome entries k.0 (used (node_at g k.0 leaves.now)) homes.old }
{
    let len = len_of(leaves, g, k.0) as usize;
    for i in 0..len {
        let id = child_of(leaves, g, k.0, i);
        if entries <= id {
            return Err(Broken);
        }
        homes[id as usize] = k.0;
    }
    Ok(())
}
