// The calls that begin a reading copy.
ghost use Rattle.model.specs.Numbered.{numbered};
ghost use Rattle.std.specs.Prelude.{◌≡◌, [], ◌∷◌};
ghost use Rattle.model.specs.State.{state};
ghost use Rattle.model.specs.Kind.{reading};
ghost use Rattle.model.specs.Row as row;
ghost use Rattle.model.specs.Row.{moved};
ghost use Rattle.model.specs.Answer.{outcome_answer};
ghost use Rattle.model.specs.Calls as calls;
ghost use Rattle.model.specs.Calls.{reply};
ghost use Rattle.model.specs.ById.{tree_step};

use model::answer::Reply;
use model::head::Head;

// A new tree with the entry 0; a refused one is a head of zeros without finger.
pub fn new(
    fan: u32,
    limit: u32,
    length: u32,
    leaves: &mut [u32],
    inners: &mut [u32],
    homes: &mut [u32],
) -> Reply<()>
    ensures { reply (state result.head leaves.new inners.new homes.new) (numbered result.answer) ≡ calls.make reading fan limit (length ∷ []) leaves.old inners.old homes.old }
{
    let x: [u32; 4] = [0, length, 0, 0];
    calls_make::any::new(1, false, Ok(()), fan, limit, &x, leaves, inners, homes)
}

// The tree begun anew, with its own fan and limit.
pub fn reset(
    head: Head,
    leaves: &mut [u32],
    inners: &mut [u32],
    homes: &mut [u32],
    length: u32,
) -> Reply<()>
    ensures { moved (state result.head leaves.new inners.new homes.new) (outcome_answer (numbered result.answer)) ≡ tree_step reading (state head leaves.old inners.old homes.old) (row.reset (length ∷ [])) }
{
    let x: [u32; 4] = [0, length, 0, 0];
    calls_make::any::reset(1, false, head, &x, leaves, inners, homes)
}
