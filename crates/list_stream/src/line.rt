// An answer's line.
ghost use Rattle.std.specs.Prelude.{◌≡◌, [], ◌∷◌, ◌++◌, ◌+◌, ◌≤◌, length};
ghost use Rattle.model.specs.Numeral.{decimal};
ghost use Rattle.list_stream.specs.Text.{line, put};

use crate::number::decimal;
use list_records::answer::Answer;

// The digits of n and the byte behind them.
pub fn field(out: &mut [u8], at: usize, n: u32, behind: u8) -> usize
    requires { at + 11 ≤ length out.old }
    ensures { (result, out.new) ≡ put out.old at (decimal n ++ (behind ∷ [])) }
{
    let next = decimal(out, at, n);
    out[next] = behind;
    next + 1
}

// The number and three values of an answer, one blank between, and the end of the line: at most 44 bytes.
pub fn line(out: &mut [u8], at: usize, answer: Answer) -> usize
    requires { at + 44 ≤ length out.old }
    ensures { (result, out.new) ≡ put out.old at (line answer) }
{
    let number = answer.number;
    let x = answer.x;
    let y = answer.y;
    let z = answer.z;
    let first = field(out, at, number, 32);
    let second = field(out, first, x, 32);
    let third = field(out, second, y, 32);
    field(out, third, z, 10)
}
