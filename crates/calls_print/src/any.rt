// The sheet of a tree with views lengths an entry, whose second column of positions and lengths is that of view effect: the causes in
// order, the lines of the entries, and the blank lines that fill up the last page.
ghost use Rattle.model.specs.Numbered.{numbered};
ghost use Rattle.std.specs.Prelude.{◌≡◌, ℕ, ◌<◌, ◌≤◌};
ghost use Rattle.model.specs.State.{state};
ghost use Rattle.model.specs.Kind.{kind};
ghost use Rattle.model.specs.Refuse.{shape_of};
ghost use Rattle.model.specs.Sheet.{pages_for};
ghost use Rattle.model.specs.Print.{print_causes, print};
ghost use Rattle.tree_open.specs.Open.{opened_by};

use crate::line::blank_lines;
use crate::walk_lines::entry_lines;
use model::head::Head;
use model::refusal::Refusal;
use model::shape::Shape;
use tree_open::open::{astray, open_areas};

// The pages of 50 lines that n lines take.
fn pages_for(n: u32) -> usize
    ensures { result ≡ pages_for n }
{
    (n as usize).div_ceil(50)
}

// What print tests: the areas, the buffer of that many bytes, the head's counts.
fn open_print(
    views: usize,
    head: Head,
    leaves: &[u32],
    inners: &[u32],
    homes: &[u32],
    bytes: usize,
) -> Result<Shape, Refusal>
    requires { (1 ≤ views) × (views ≤ 3) }
    ensures { (effect : ℕ) → numbered result ≡ opened_by (print_causes (kind views effect) (state head leaves.now inners.now homes.now) bytes) (shape_of (kind views effect) head) }
{
    let g = open_areas(views, head.fan, head.limit, leaves, inners, homes)?;
    if bytes < 2750 * pages_for(head.entries) {
        Err(Refusal::Buffer)
    } else if astray(g, head) {
        Err(Refusal::Link)
    } else {
        Ok(g)
    }
}

// The sheet, from the start of the lent buffer on; answers the number of pages.
pub fn print(
    views: usize,
    effect: usize,
    head: Head,
    leaves: &[u32],
    inners: &[u32],
    homes: &[u32],
    page: &mut [u8],
) -> Result<u32, Refusal>
    requires { (1 ≤ views) × (views ≤ 3) × (effect < views) }
    ensures { (numbered result, page.new) ≡ print (kind views effect) (state head leaves.now inners.now homes.now) page.old }
{
    let g = open_print(views, head, leaves, inners, homes, page.len())?;
    let lines = head.entries as usize;
    entry_lines(
        leaves,
        inners,
        g,
        effect,
        head.levels,
        head.root.0,
        lines,
        page,
    )?;
    let pages = pages_for(head.entries);
    blank_lines(page, 55 * lines, 50 * pages - lines);
    Ok(pages as u32)
}
