// A u32 as decimal digits.
ghost use Rattle.std.specs.Prelude.{◌≡◌, ◌+◌, ◌≤◌, length};
ghost use Rattle.model.specs.Numeral.{numeral, decimal};
ghost use Rattle.list_stream.specs.Text.{put};

// The digits of n, at most `most` of them, from place `at` on; the place behind them.
fn digits(out: &mut [u8], at: usize, n: u32, most: usize) -> usize
    requires { at + most ≤ length out.old }
    ensures { (result, out.new) ≡ put out.old at (numeral most n) }
{
    if most == 0 {
        return at;
    }
    if n < 10 {
        out[at] = 48 + n as u8;
        return at + 1;
    }
    let next = digits(out, at, n / 10, most - 1);
    out[next] = 48 + (n % 10) as u8;
    next + 1
}

// The digits of n.
pub fn decimal(out: &mut [u8], at: usize, n: u32) -> usize
    requires { at + 10 ≤ length out.old }
    ensures { (result, out.new) ≡ put out.old at (decimal n) }
{
    digits(out, at, n, 10)
}
