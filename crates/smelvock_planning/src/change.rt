// The exported calls that change lengths of a planning tree or add an entry. Each is the one caller of its call, which is compiled into it.
ghost use Rattle.std.specs.Prelude.{◌≡◌};
ghost use Rattle.smelvock_marshal.specs.Lent.{given, left};
ghost use Rattle.smelvock_planning.specs.Calls as flat;

use calls_planning::bounds::Bounds;
use calls_planning::change::{insert, set, split};
use model::number::EntryId;
use smelvock_marshal::answered::{
    inserted_of, number_of_divided, outcome_of, refused_inserted, refused_number,
};
use smelvock_marshal::flat::{FlatInserted, FlatNumber};
use smelvock_marshal::head::{bad_flag, bad_head, head_from, settle};

// Before the entry id, or at the end where id is 4,294,967,295.
#[unsafe(no_mangle)]
pub extern "C" fn smelvock_plan_insert(
    head: &mut [u32],
    leaves: &mut [u32],
    inners: &mut [u32],
    homes: &mut [u32],
    id: u32,
    lowest: u32,
    highest: u32,
) -> FlatInserted
    ensures { left result head.new leaves.new inners.new homes.new ≡ flat.insert (given head.old leaves.old inners.old homes.old) id lowest highest }
{
    if bad_head(head) {
        return refused_inserted(10);
    }
    let bounds = Bounds {
        lowest: lowest,
        highest: highest,
    };
    let r = insert(head_from(head), leaves, inners, homes, EntryId(id), bounds);
    let after = r.head;
    let answer = r.answer;
    let a = inserted_of(answer);
    settle(head, a.number, after);
    a
}

// The new entry comes just before the entry id where before is 1, else just after.
#[unsafe(no_mangle)]
pub extern "C" fn smelvock_plan_split(
    head: &mut [u32],
    leaves: &mut [u32],
    inners: &mut [u32],
    homes: &mut [u32],
    id: u32,
    lowest: u32,
    highest: u32,
    before: u32,
) -> FlatNumber
    ensures { left result head.new leaves.new inners.new homes.new ≡ flat.split (given head.old leaves.old inners.old homes.old) id lowest highest before }
{
    if bad_flag(head, before) {
        return refused_number(10);
    }
    let bounds = Bounds {
        lowest: lowest,
        highest: highest,
    };
    let r = split(
        head_from(head),
        leaves,
        inners,
        homes,
        EntryId(id),
        bounds,
        before == 1,
    );
    let after = r.head;
    let answer = r.answer;
    let a = number_of_divided(answer);
    settle(head, a.number, after);
    a
}

#[unsafe(no_mangle)]
pub extern "C" fn smelvock_plan_set(
    head: &mut [u32],
    leaves: &mut [u32],
    inners: &mut [u32],
    homes: &[u32],
    id: u32,
    lowest: u32,
    highest: u32,
) -> u32
    ensures { left result head.new leaves.new inners.new homes.now ≡ flat.set (given head.old leaves.old inners.old homes.now) id lowest highest }
{
    if bad_head(head) {
        return 10;
    }
    let bounds = Bounds {
        lowest: lowest,
        highest: highest,
    };
    let r = set(head_from(head), leaves, inners, homes, EntryId(id), bounds);
    let after = r.head;
    let answer = r.answer;
    let a = outcome_of(answer);
    settle(head, a, after);
    a
}
