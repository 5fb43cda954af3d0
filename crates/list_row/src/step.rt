// One record on a tree.
ghost use Rattle.std.specs.Prelude.{◌≡◌};
ghost use Rattle.model.specs.State.{state};
ghost use Rattle.model.specs.Kind.{base};
ghost use Rattle.model.specs.Row.{overlong};
ghost use Rattle.model.specs.ById.{tree_step};
ghost use Rattle.list_records.specs.Said.{call_of};
ghost use Rattle.list_row.specs.Find.{call_at};
ghost use Rattle.list_row.specs.Step.{stepped, step_by};

use crate::answer::{
    Step, compared, divided, following, inserted, looked, measured, named, number, outcome, refuse,
    updated,
};
use crate::find::{find, ids_of};
use calls_by_id::iterate::{first, next};
use calls_by_id::look::locate;
use calls_by_id::read::len;
use calls_by_id::target::target;
use calls_insert::insert::insert;
use calls_make::begin::reset;
use calls_read::order::{cmp, entry_to_char_index};
use calls_read::read::lengths;
use calls_size::size::resize;
use calls_split::split::split_entry;
use list_records::call::Call;
use model::head::{Cursor, Head};

// Whether a call gives an entry too many line ends.
fn is_overlong(call: Call) -> bool
    ensures { result ≡ overlong base (call_of call) }
{
    match call {
        Call::Reset(l) => l.overlong(),
        Call::Insert(i, l) => l.overlong(),
        Call::Split(before, i, l) => l.overlong(),
        Call::Resize(summed, i, l) => l.overlong(),
        Call::Lookup(v, index) => false,
        Call::Rank(v, i) => false,
        Call::Next(i) => false,
        Call::Compare(i, j) => false,
        Call::LengthsOf(i) => false,
        Call::Count => false,
        Call::First => false,
        Call::Malformed => false,
    }
}

// A call by its own function, at the cursors of the entries that it names: b, and a for the first of two.
fn call_at(
    head: Head,
    leaves: &mut [u32],
    inners: &mut [u32],
    homes: &mut [u32],
    call: Call,
    a: Cursor,
    b: Cursor,
) -> Step
    ensures { stepped (state result.head leaves.new inners.new homes.new) result.answer ≡ step_by (call_at (state head leaves.old inners.old homes.old) (call_of call) a b) }
{
    match call {
        Call::Reset(l) => outcome(reset(head, l, leaves, inners, homes)),
        Call::Insert(i, l) => inserted(insert(head, leaves, inners, homes, target(i, b), l)),
        Call::Split(before, i, l) => divided(split_entry(
            head, leaves, inners, homes, b, l, before,
        )),
        Call::Resize(summed, i, l) => updated(resize(head, leaves, inners, homes, b, l, summed)),
        Call::Lookup(v, index) => looked(locate(head, leaves, inners, homes, v, index)),
        Call::Rank(v, i) => number(head, entry_to_char_index(head, leaves, inners, homes, v, b)),
        Call::Next(i) => following(head, next(head, leaves, inners, homes, b)),
        Call::Compare(i, j) => compared(head, cmp(head, leaves, inners, homes, a, b)),
        Call::LengthsOf(i) => measured(head, lengths(head, leaves, inners, homes, b)),
        Call::Count => number(head, len(head, leaves, inners, homes)),
        Call::First => named(head, first(head, leaves, inners, homes)),
        Call::Malformed => refuse(head, 10),
    }
}

// A call on a tree: too many line ends first, then the entries that it names, then the call there.
pub fn step(
    head: Head,
    leaves: &mut [u32],
    inners: &mut [u32],
    homes: &mut [u32],
    call: Call,
) -> Step
    ensures { stepped (state result.head leaves.new inners.new homes.new) result.answer ≡ step_by (tree_step base (state head leaves.old inners.old homes.old) (call_of call)) }
{
    if is_overlong(call) {
        return refuse(head, 10);
    }
    match find(head, leaves, inners, homes, ids_of(call)) {
        Err(why) => refuse(head, why.number()),
        Ok((a, b)) => call_at(head, leaves, inners, homes, call, a, b),
    }
}
