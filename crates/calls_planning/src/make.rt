// The calls that begin a planning tree.
ghost use Rattle.model.specs.Numbered.{numbered};
ghost use Rattle.std.specs.Prelude.{◌≡◌};
ghost use Rattle.model.specs.State.{state};
ghost use Rattle.model.specs.Kind.{planning};
ghost use Rattle.model.specs.Row.{moved};
ghost use Rattle.model.specs.Answer.{outcome_answer};
ghost use Rattle.model.specs.Calls as calls;
ghost use Rattle.model.specs.Calls.{reply};
ghost use Rattle.model.specs.Plan as plan;
ghost use Rattle.model.specs.Plan.{tree_plan};
ghost use Rattle.calls_planning.specs.Bounds.{bounds_of};

use crate::bounds::Bounds;
use model::answer::Reply;
use model::head::Head;

// A new tree with the entry 0; a refused one is a head of zeros without finger.
pub fn new(
    fan: u32,
    limit: u32,
    bounds: Bounds,
    leaves: &mut [u32],
    inners: &mut [u32],
    homes: &mut [u32],
) -> Reply<()>
    ensures { reply (state result.head leaves.new inners.new homes.new) (numbered result.answer) ≡ calls.make planning fan limit (bounds_of bounds) leaves.old inners.old homes.old }
{
    let x: [u32; 4] = [0, bounds.lowest, bounds.highest, 0];
    calls_make::any::new(2, true, Ok(()), fan, limit, &x, leaves, inners, homes)
}

// The tree begun anew, with its own fan and limit.
pub fn reset(
    head: Head,
    leaves: &mut [u32],
    inners: &mut [u32],
    homes: &mut [u32],
    bounds: Bounds,
) -> Reply<()>
    ensures { moved (state result.head leaves.new inners.new homes.new) (outcome_answer (numbered result.answer)) ≡ tree_plan (state head leaves.old inners.old homes.old) (plan.reset (bounds_of bounds)) }
{
    let x: [u32; 4] = [0, bounds.lowest, bounds.highest, 0];
    calls_make::any::reset(2, true, head, &x, leaves, inners, homes)
}
