// What a block leaves: the bytes of a record that isn't whole yet, and the line of a short tail.
ghost use Rattle.std.specs.Prelude.{◌≡◌, ◌+◌, ◌≤◌, length};
ghost use Rattle.model.specs.Lists.{part};
ghost use Rattle.list_stream.specs.Text.{put};
ghost use Rattle.list_stream.specs.Shown.{tail};

use crate::line::line;
use list_records::answer::Answer;

// The n bytes from place `from` on, moved to the start. One by one: of `copy_within` no edit of a byte alone is refused for its value.
pub fn keep(block: &mut [u8], from: usize, n: usize)
    requires { from + n ≤ length block.old }
    ensures { (n, block.new) ≡ put block.old 0 (part from n block.old) }
{
    for i in 0..n {
        block[i] = block[from + i];
    }
}

// The line of a tail of stray bytes, none where there are no such.
pub fn tail(stray: usize, out: &mut [u8]) -> usize
    requires { 44 ≤ length out.old }
    ensures { (result, out.new) ≡ put out.old 0 (tail stray) }
{
    if stray == 0 {
        return 0;
    }
    let short = Answer {
        number: 11,
        x: 0,
        y: 0,
        z: 0,
    };
    line(out, 0, short)
}
