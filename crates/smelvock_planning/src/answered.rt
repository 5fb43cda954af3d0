// What lengths answers, in the words that cross the C boundary.
ghost use Rattle.model.specs.Numbered.{numbered};
ghost use Rattle.std.specs.Prelude.{◌≡◌};
ghost use Rattle.model.specs.Row.{refused};
ghost use Rattle.calls_planning.specs.Bounds.{ranged_answer};
ghost use Rattle.smelvock_planning.specs.Calls.{ranged_of};

use crate::flat::FlatBounds;
use calls_planning::bounds::Bounds;
use model::refusal::Refusal;

pub fn refused_ranged(n: u32) -> FlatBounds
    ensures { result ≡ ranged_of (refused n) }
{
    FlatBounds {
        number: n,
        lowest: 0,
        highest: 0,
    }
}

pub fn ranged_of(a: Result<Bounds, Refusal>) -> FlatBounds
    ensures { result ≡ ranged_of (ranged_answer (numbered a)) }
{
    match a {
        Ok(b) => FlatBounds {
            number: 0,
            lowest: b.lowest,
            highest: b.highest,
        },
        Err(why) => refused_ranged(why.number()),
    }
}
