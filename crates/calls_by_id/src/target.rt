// Where an entry is inserted, by an id.
ghost use Rattle.std.specs.Prelude.{◌≡◌};
ghost use Rattle.calls_by_id.specs.Target.{target_of};

use model::head::Cursor;
use model::number::{EntryId, NONE};

// At the end for the id that no entry has, else before the one found.
pub fn target(id: EntryId, at: Cursor) -> Option<Cursor>
    ensures { result ≡ target_of id.0 at }
{
    let i = id.0;
    if i == NONE {
        return None;
    }
    Some(at)
}
