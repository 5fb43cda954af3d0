// A line of five numbers in columns, and blank lines.
ghost use Rattle.std.specs.Prelude.{◌≡◌, ◌+◌, ◌*◌, ◌≤◌, [], ◌∷◌, ◌++◌, length, replicate};
ghost use Rattle.model.specs.Lists.{put_at};
ghost use Rattle.model.specs.Sheet.{column, line, blank_lines};
ghost use Rattle.calls_print.specs.Columns.{glyph, fields};

// The byte in column w, where m is left of the number: a blank where nothing is, but in the last column.
fn glyph(m: u32, w: usize) -> u8
    ensures { result ≡ glyph m w }
{
    if m == 0 && w != 9 {
        b' '
    } else {
        b'0' + (m % 10) as u8
    }
}

// n right-justified in the ten columns from place `at` on, the last first. The compiler writes the ten turns out and divides
// by multiplying.
fn column(page: &mut [u8], at: usize, n: u32)
    requires { at + 10 ≤ length page.old }
    ensures { page.new ≡ put_at at (column n) page.old }
{
    let mut m = n;
    for w in (0..10).rev() {
        page[at + w] = glyph(m, w);
        m /= 10;
    }
}

// Five numbers, a blank behind each. A loop, so that `column` has one caller and is compiled into it.
fn fields(page: &mut [u8], at: usize, numbers: &[u32])
    requires { (length numbers.now ≡ 5) × (at + 55 ≤ length page.old) }
    ensures { page.new ≡ put_at at (fields numbers.now) page.old }
{
    let mut p = at;
    for n in numbers {
        column(page, p, *n);
        page[p + 10] = b' ';
        p += 11;
    }
}

// A line: the last blank makes way for the line feed.
pub fn line(page: &mut [u8], at: usize, id: u32, p: u32, q: u32, prepare: u32, effect: u32)
    requires { at + 55 ≤ length page.old }
    ensures { page.new ≡ put_at at (line id p q prepare effect) page.old }
{
    fields(page, at, &[id, p, q, prepare, effect]);
    page[at + 54] = b'\n';
}

// 54 blanks and a line feed.
fn blank_line(page: &mut [u8], at: usize)
    requires { at + 55 ≤ length page.old }
    ensures { page.new ≡ put_at at (replicate 54 32 ++ 10 ∷ []) page.old }
{
    page[at..at + 54].fill(b' ');
    page[at + 54] = b'\n';
}

// n of them.
pub fn blank_lines(page: &mut [u8], at: usize, n: usize)
    requires { at + 55 * n ≤ length page.old }
    ensures { page.new ≡ put_at at (blank_lines n) page.old }
{
    for i in 0..n {
        blank_line(page, at + 55 * i);
    }
}
