// The entries that a call names by id, and their cursors.
ghost use Rattle.model.specs.Numbered.{numbered};
ghost use Rattle.std.specs.Prelude.{◌≡◌};
ghost use Rattle.model.specs.State.{state};
ghost use Rattle.list_records.specs.Said.{call_of};
ghost use Rattle.list_row.specs.Find.{no_ids, one_id, target_ids, ids_of, found_of};

use calls_read::read::cursor;
use list_records::call::Call;
use model::head::{Cursor, Head};
use model::number::{EntryId, LeafNo, NONE};
use model::refusal::Refusal;

// How many ids a call names, and which.
#[derive(Clone, Copy)]
pub struct Ids {
    pub count: u32,
    pub first: u32,
    pub second: u32,
}

fn no_ids() -> Ids
    ensures { result ≡ no_ids }
{
    Ids {
        count: 0,
        first: 0,
        second: 0,
    }
}

fn one_id(id: EntryId) -> Ids
    ensures { result ≡ one_id id.0 }
{
    Ids {
        count: 1,
        first: id.0,
        second: 0,
    }
}

// The end, where an entry may be inserted, is no entry.
fn target_ids(id: EntryId) -> Ids
    ensures { result ≡ target_ids id.0 }
{
    if id.0 == NONE { no_ids() } else { one_id(id) }
}

// The ids that a call names.
pub fn ids_of(call: Call) -> Ids
    ensures { result ≡ ids_of (call_of call) }
{
    match call {
        Call::Reset(l) => no_ids(),
        Call::Insert(i, l) => target_ids(i),
        Call::Split(flag, i, l) => one_id(i),
        Call::Resize(summed, i, l) => one_id(i),
        Call::Lookup(v, index) => no_ids(),
        Call::Rank(v, i) => one_id(i),
        Call::Next(i) => one_id(i),
        Call::Compare(i, j) => Ids {
            count: 2,
            first: i.0,
            second: j.0,
        },
        Call::LengthsOf(i) => one_id(i),
        Call::Count => no_ids(),
        Call::First => no_ids(),
        Call::Malformed => no_ids(),
    }
}

// The cursors of the entries with these ids. A loop for two of them at most: a function that is called at one place only is compiled into it.
pub fn find(
    head: Head,
    leaves: &[u32],
    inners: &[u32],
    homes: &[u32],
    ids: Ids,
) -> Result<(Cursor, Cursor), Refusal>
    ensures { numbered result ≡ found_of (state head leaves.now inners.now homes.now) ids }
{
    let mut id = ids.first;
    let mut a = Cursor {
        leaf: LeafNo(0),
        slot: 0,
        stamp: 0,
    };
    let mut b = a;
    for _ in 0..ids.count {
        let c = cursor(head, leaves, inners, homes, EntryId(id))?;
        a = b;
        b = c;
        id = ids.second;
    }
    Ok((a, b))
}
