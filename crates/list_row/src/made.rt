// Records on a tree made anew, and the tree that the door and rowrun start from.
ghost use Rattle.model.specs.Numbered.{numbered};
ghost use Rattle.std.specs.Prelude.{◌≡◌, true, length};
ghost use Rattle.model.specs.State.{state};
ghost use Rattle.model.specs.Length.{list_of};
ghost use Rattle.model.specs.Kind.{base};
ghost use Rattle.model.specs.Row.{made_row};
ghost use Rattle.model.specs.Calls.{reply, make};
ghost use Rattle.model.specs.Promise.{Represents};
ghost use Rattle.list_row.specs.Run.{fit, ran, AsRow};
ghost use Rattle.list_row.specs.Made.{make_and_run, door_tree, door_row};

use crate::run::run;
use calls_make::begin::new;
use model::answer::Reply;
use model::length::Lengths;

// Make, then run: refused by make's Field, Size or Area, else by Records, with the tree made.
pub fn make_and_run(
    fan: u32,
    limit: u32,
    lengths: Lengths,
    leaves: &mut [u32],
    inners: &mut [u32],
    homes: &mut [u32],
    records: &[u8],
    out: &mut [u8],
) -> Reply<()>
    ensures out_after { ran (state result.head leaves.new inners.new homes.new) (numbered result.answer) out.new ≡ make_and_run fan limit (list_of lengths) leaves.old inners.old homes.old records.now out.old }
    ensures as_row { (make base fan limit (list_of lengths) leaves.old inners.old homes.old).answer ≡ Ok tt → fit records.now out.old ≡ true → AsRow records.now (ran (state result.head leaves.new inners.new homes.new) (numbered result.answer) out.new) fan (made_row limit (list_of lengths)) }
{
    let made = new(fan, limit, lengths, leaves, inners, homes);
    match made.answer {
        Ok(()) => run(made.head, leaves, inners, homes, records, out),
        Err(_) => made,
    }
}

// What the door's tree is made with.
pub const FAN: u32 = 8;

pub const LIMIT: u32 = 512;

pub const FIRST: Lengths = Lengths {
    prepare: 0,
    effect: 0,
    lines: 0,
};

// The door's tree.
pub fn door_tree(leaves: &mut [u32], inners: &mut [u32], homes: &mut [u32]) -> Reply<()>
    ensures answer_value { reply (state result.head leaves.new inners.new homes.new) (numbered result.answer) ≡ door_tree leaves.old inners.old homes.old }
    ensures represents { length leaves.old ≡ 4480 → length inners.old ≡ 4480 → length homes.old ≡ 512 → Represents base (state result.head leaves.new inners.new homes.new) door_row }
{
    new(FAN, LIMIT, FIRST, leaves, inners, homes)
}
