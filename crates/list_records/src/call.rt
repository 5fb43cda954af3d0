// The call that a record's fields say.
ghost use Rattle.std.specs.Prelude.{◌≡◌, ◌&&◌};
ghost use Rattle.model.specs.Record.{view_of, only};
ghost use Rattle.list_records.specs.Said.{plain_fields, call_of, said};

use crate::fields::Fields;
use model::length::{Lengths, View};
use model::number::EntryId;

// The calls of a list; Resize is update, and set_lengths where no position is asked for; Malformed stands for a record with a field outside its values.
#[derive(Clone, Copy)]
pub enum Call {
    Reset(Lengths),
    Insert(EntryId, Lengths),
    Split(bool, EntryId, Lengths),
    Resize(bool, EntryId, Lengths),
    Lookup(View, u32),
    Rank(View, EntryId),
    Next(EntryId),
    Compare(EntryId, EntryId),
    LengthsOf(EntryId),
    Count,
    First,
    Malformed,
}

// The view of a flag.
fn view_of(flag: u32) -> View
    ensures { result ≡ view_of flag }
{
    match flag {
        0 => View::Prepare,
        1 => View::Effect,
        _ => View::Lines,
    }
}

// The call where its unused fields are zero, a flag is 0 or 1 and a view 0, 1 or 2.
fn only(ok: bool, call: Call) -> Call
    ensures { call_of result ≡ only ok (call_of call) }
{
    if ok { call } else { Call::Malformed }
}

// What a record of each kind says; 3 is read as 2.
pub fn decode(f: Fields) -> Call
    ensures { call_of result ≡ said (plain_fields f) }
{
    let kind = f.kind;
    let flag = f.flag;
    let id = EntryId(f.a);
    let lengths = Lengths {
        prepare: f.b,
        effect: f.c,
        lines: f.lines,
    };
    let plain = flag == 0;
    let binary = flag < 2;
    let viewed = flag < 3;
    let no_id = f.a == 0;
    let no_lines = f.lines == 0;
    let no_lengths = f.b == 0 && f.c == 0 && no_lines;
    let view = view_of(flag);
    match kind {
        1 => only(plain && no_id, Call::Reset(lengths)),
        2 => only(plain, Call::Insert(id, lengths)),
        3 => only(plain, Call::Insert(id, lengths)),
        4 => only(binary, Call::Split(flag == 1, id, lengths)),
        5 => only(plain, Call::Resize(false, id, lengths)),
        6 => only(plain, Call::Resize(true, id, lengths)),
        7 => only(viewed && no_lengths, Call::Lookup(view, f.a)),
        8 => only(viewed && no_lengths, Call::Rank(view, id)),
        9 => only(plain && no_lengths, Call::Next(id)),
        10 => only(
            plain && f.c == 0 && no_lines,
            Call::Compare(id, EntryId(f.b)),
        ),
        11 => only(plain && no_lengths, Call::LengthsOf(id)),
        12 => only(plain && no_id && no_lengths, Call::Count),
        13 => only(plain && no_id && no_lengths, Call::First),
        _ => Call::Malformed,
    }
}
