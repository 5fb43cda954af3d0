// One run of words of a node, and how many of them are new.
ghost use Rattle.std.specs.Prelude.{◌≡◌, [], ◌∷◌, ◌+◌, ◌-◌, ◌*◌, ◌<◌, ◌≤◌, length, take};
ghost use Rattle.model.specs.Node.{empty_slots};
ghost use Rattle.model_laws.specs.Slots.{flat};
ghost use Rattle.tree_area.specs.Area.{AreaHolds};
ghost use Rattle.tree_words.specs.Tally.{tallied};
ghost use Rattle.calls_repair_write.specs.Blank.{Blank};

use model::shape::Shape;
use tree_words::write::put;

// The parent of node c and its place there.
pub fn link(area: &mut [u32], g: Shape, c: u32, parent: u32, at: u32) -> usize
    requires { AreaHolds g (length area.old) × (c < g.nodes) }
    ensures { ((result, area.new) ≡ tallied (c * g.size + 1) (parent ∷ at ∷ []) area.old) × (result ≤ 2) }
{
    put(area, c as usize * g.size + 1, &[parent, at])
}

// One word.
pub fn word(area: &mut [u32], p: usize, x: u32) -> usize
    requires { p < length area.old }
    ensures { ((result, area.new) ≡ tallied p (x ∷ []) area.old) × (result ≤ 1) }
{
    put(area, p, &[x])
}

// Slot i of node k.
pub fn slot(area: &mut [u32], g: Shape, k: u32, i: usize, x: &[u32]) -> usize
    requires { AreaHolds g (length area.old) × (k < g.nodes) × (i < g.fan) × (length x.now ≡ 4) }
    ensures { ((result, area.new) ≡ tallied (k * g.size + (3 + i * g.stride)) (take g.stride x.now) area.old) × (result ≤ 4) }
{
    let start = k as usize * g.size + (3 + i * g.stride);
    put(area, start, &x[..g.stride])
}

// The slots of node k from slot len on, with words from those of 32 empty slots.
pub fn empty(area: &mut [u32], g: Shape, k: u32, len: usize, blank: &[u32]) -> usize
    requires { AreaHolds g (length area.old) × (k < g.nodes) × (len ≤ g.fan) × Blank g.stride blank.now }
    ensures { ((result, area.new) ≡ tallied (k * g.size + (3 + len * g.stride)) (flat (empty_slots g.stride (g.fan - len))) area.old) × (result ≤ 128) }
{
    let n = (g.fan - len) * g.stride;
    let start = k as usize * g.size + (3 + len * g.stride);
    put(area, start, &blank[..n])
}
