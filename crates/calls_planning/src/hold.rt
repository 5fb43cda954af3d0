// The first and the last entry that could hold a position. The lookups keep the finger found.
ghost use Rattle.model.specs.Numbered.{numbered};
ghost use Rattle.std.specs.Prelude.{◌≡◌, cond, ◌-◌, ◌<◌, ltb};
ghost use Rattle.model.specs.State.{state};
ghost use Rattle.model.specs.Kind.{planning};
ghost use Rattle.model.specs.Node.{wrap};
ghost use Rattle.model.specs.Row as row;
ghost use Rattle.model.specs.Row.{moved};
ghost use Rattle.model.specs.Answer.{named_answer};
ghost use Rattle.model.specs.ById.{tree_step};
ghost use Rattle.model.specs.Plan as plan;
ghost use Rattle.model.specs.Plan.{tree_plan};
ghost use Rattle.calls_planning.specs.Bounds.{id_move, named_of};

use model::answer::Reply;
use model::head::Head;
use model::number::EntryId;
use model::refusal::Refusal;
use tree_open::lengths::totals_in;
use tree_open::open::open;

// The id of what a lookup found.
fn named(answer: Result<(EntryId, u32, u32, u32), Refusal>) -> Result<EntryId, Refusal>
    ensures { numbered result ≡ named_of (numbered answer) }
{
    let (id, offset, effect, prepare) = answer?;
    Ok(id)
}

// The entry that holds a position in the lowest lengths (0) or in the highest (1).
fn held(
    head: Head,
    leaves: &[u32],
    inners: &[u32],
    homes: &[u32],
    view: usize,
    index: u32,
) -> Reply<EntryId>
    requires { view < 2 }
    ensures { moved (state result.head leaves.now inners.now homes.now) (named_answer (numbered result.answer)) ≡ id_move (tree_step planning (state head leaves.now inners.now homes.now) (row.lookup view index)) }
{
    let r = calls_by_id::any::locate(2, 1, head, leaves, inners, homes, view, index);
    let after = r.head;
    let answer = r.answer;
    Reply {
        head: after,
        answer: named(answer),
    }
}

// Where the last entry is looked for in the highest lengths: at their last position, past which a position stays as it is. Modulo 2^32, as
// the totals of a tree that isn't sound may be longer.
fn last_position(highest: u64, position: u32) -> u32
    ensures { result ≡ cond (ltb position highest) (wrap (highest - 1)) position }
{
    if (position as u64) < highest {
        return ((highest - 1) % 4294967296) as u32;
    }
    position
}

// The first entry that could hold a position: the one that holds it in the highest lengths.
pub fn first_at(
    head: Head,
    leaves: &[u32],
    inners: &[u32],
    homes: &[u32],
    position: u32,
) -> Reply<EntryId>
    ensures { moved (state result.head leaves.now inners.now homes.now) (named_answer (numbered result.answer)) ≡ tree_plan (state head leaves.now inners.now homes.now) (plan.first_at position) }
{
    held(head, leaves, inners, homes, 1, position)
}

// The last: the one that holds it in the lowest lengths, and past their total the last entry that can be longer than nothing.
pub fn last_at(
    head: Head,
    leaves: &[u32],
    inners: &[u32],
    homes: &[u32],
    position: u32,
) -> Reply<EntryId>
    ensures { moved (state result.head leaves.now inners.now homes.now) (named_answer (numbered result.answer)) ≡ tree_plan (state head leaves.now inners.now homes.now) (plan.last_at position) }
{
    match open(2, head, leaves, inners, homes) {
        Err(n) => Reply {
            head: head,
            answer: Err(n),
        },
        Ok(g) => {
            let t = totals_in(inners, g, head.root);
            if (position as u64) < t.first {
                return held(head, leaves, inners, homes, 0, position);
            }
            let at = last_position(t.second, position);
            held(head, leaves, inners, homes, 1, at)
        }
    }
}
