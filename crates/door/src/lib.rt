// The door: records in, answer records out, on a tree of its own made anew in each call.
// Its output is equated with the plain row's answers.
// Stands on model and list.
#![tactic(auto)]

ghost use Rattle.std.specs.Prelude.{◌≡◌};
ghost use Rattle.door.specs.Door.{door_answer, door_on};

use list_row::made::{FAN, FIRST, LIMIT, make_and_run};

// Answers 0, or 11 with the output as it was.
#[unsafe(no_mangle)]
pub extern "C" fn door(records: &[u8], out: &mut [u8]) -> u32
    ensures { door_answer result out.new ≡ door_on records.now out.old }
{
    let mut leaves = [0u32; 4480];
    let mut inners = [0u32; 4480];
    let mut homes = [0u32; 512];
    let ran = make_and_run(
        FAN,
        LIMIT,
        FIRST,
        &mut leaves,
        &mut inners,
        &mut homes,
        records,
        out,
    );
    let answer = ran.answer;
    match answer {
        Ok(()) => 0,
        Err(why) => why.number(),
    }
}
