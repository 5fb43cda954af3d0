// One node of the area that a level names: its words, and where it stands.
ghost use Rattle.model.specs.Numbered.{broken_number};
ghost use Rattle.std.specs.Prelude.{◌≡◌, ◌+◌, ◌-◌, ◌*◌, ◌<◌, ◌≤◌, length, get_or, set};
ghost use Rattle.model.specs.Lists.{part};
ghost use Rattle.model.specs.Grow.{areas, area_of, adopt, linked, adopt_all};
ghost use Rattle.tree_links.specs.Fits.{AreasHold};

use model::number::NodeNo;
use model::shape::Shape;
use model::way::Broken;

// Word i of node k.
pub fn word(area: &[u32], g: Shape, k: usize, i: usize) -> u32
    requires { (i < g.size) × (k * g.size + g.size ≤ length area.now) }
    ensures { result ≡ get_or (part (k * g.size) g.size area.now) i 0 }
{
    area[k * g.size + i]
}

// Word i of node k of the area that the level names: leaves at level 1.
pub fn word_of(leaves: &[u32], inners: &[u32], g: Shape, level: u32, k: usize, i: usize) -> u32
    requires { AreasHold g (length leaves.now) (length inners.now) × (k < g.nodes) × (i < g.size) }
    ensures { result ≡ get_or (part (k * g.size) g.size (area_of level (areas leaves.now inners.now))) i 0 }
{
    if level == 1 {
        word(leaves, g, k, i)
    } else {
        word(inners, g, k, i)
    }
}

// The part for one node of the area that the level names.
pub fn node_part<'a>(leaf: &'a mut [u32], inner: &'a mut [u32], level: u32) -> &'a mut [u32]
    ensures { (level ≡ 1 → result ≡ leaf.entry) × ((level ≡ 1 → ⊥) → result ≡ inner.entry) }
{
    if level == 1 { leaf } else { inner }
}

// Parent and place for the node whose part is lent; the other part is empty.
fn adopt_part(leaf: &mut [u32], inner: &mut [u32], level: u32, parent: u32, at: u32)
    requires { (level ≡ 1 → (3 ≤ length leaf.old) × (length inner.old ≡ 0)) × ((level ≡ 1 → ⊥) → (length leaf.old ≡ 0) × (3 ≤ length inner.old)) }
    ensures { (leaf.new ≡ set (set leaf.old 1 parent) 2 at) × (inner.new ≡ set (set inner.old 1 parent) 2 at) }
{
    let node = node_part(leaf, inner, level);
    node[1] = parent;
    node[2] = at;
}

// Node k of the level's area is child i of inner node p.
pub fn adopt(
    leaves: &mut [u32],
    inners: &mut [u32],
    g: Shape,
    level: u32,
    k: usize,
    p: NodeNo,
    i: u32,
)
    requires { AreasHold g (length leaves.old) (length inners.old) × (k < g.nodes) }
    ensures { areas leaves.new inners.new ≡ adopt g level k p.0 i (areas leaves.old inners.old) }
{
    let size = g.size;
    let a = k * size;
    let e = a + size;
    if level == 1 {
        adopt_part(&mut leaves[a..e], &mut inners[0..0], level, p.0, i);
    } else {
        adopt_part(&mut leaves[0..0], &mut inners[a..e], level, p.0, i);
    }
}

// The children of inner node p, from place `from` up to place `to`, learn where they stand.
pub fn adopt_all(
    leaves: &mut [u32],
    inners: &mut [u32],
    g: Shape,
    level: u32,
    p: NodeNo,
    from: usize,
    to: usize,
) -> Result<(), Broken>
    requires { AreasHold g (length leaves.old) (length inners.old) × (p.0 < g.nodes) × (to ≤ g.fan) }
    ensures { linked (broken_number result) (areas leaves.new inners.new) ≡ adopt_all g level p.0 (to - from) from (areas leaves.old inners.old) }
{
    for i in from..to {
        let child = word(inners, g, p.0 as usize, 3 + i * g.stride) as usize;
        if child >= g.nodes {
            return Err(Broken);
        }
        adopt(leaves, inners, g, level, child, p, i as u32);
    }
    Ok(())
}
