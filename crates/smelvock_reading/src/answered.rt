// What a lookup answers, in the words that cross the C boundary.
ghost use Rattle.model.specs.Numbered.{numbered};
ghost use Rattle.std.specs.Prelude.{◌≡◌};
ghost use Rattle.model.specs.Row.{refused};
ghost use Rattle.calls_by_id.specs.Answer.{looked_answer};
ghost use Rattle.smelvock_reading.specs.Calls.{looked_of};

use crate::flat::FlatLooked;
use model::number::EntryId;
use model::refusal::Refusal;

pub fn refused_looked(n: u32) -> FlatLooked
    ensures { result ≡ looked_of (refused n) }
{
    FlatLooked {
        number: n,
        id: 0,
        offset: 0,
        position: 0,
    }
}

pub fn looked_of(a: Result<(EntryId, u32, u32, u32), Refusal>) -> FlatLooked
    ensures { result ≡ looked_of (looked_answer (numbered a)) }
{
    match a {
        Ok((id, offset, position, prepare)) => FlatLooked {
            number: 0,
            id: id.0,
            offset: offset,
            position: position,
        },
        Err(why) => refused_looked(why.number()),
    }
}
