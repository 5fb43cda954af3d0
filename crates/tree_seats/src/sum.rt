// Sums over the eight seats, which may pass a word.
ghost use Rattle.std.specs.Prelude.{◌≡◌, ◌+◌, ◌-◌, ◌≤◌, length, slice_index};
ghost use Rattle.model.specs.Seats.{over_seats, all_unused};
ghost use Rattle.tree_seats.specs.Words.{seats_from};

pub fn wide(x: u32) -> u64
    ensures { (result ≡ x) × (result ≤ 4294967295) }
{
    x as u64
}

// What a word has more than another, or nothing.
pub fn left(x: u32, y: u32) -> u64
    ensures { (result ≡ x - y) × (result ≤ 4294967295) }
{
    wide(x.saturating_sub(y))
}

// Eight words from one on.
pub fn sum(words: &[u32], from: usize) -> u64
    requires { from + 8 ≤ length words.now }
    ensures { (result ≡ over_seats (λ j. slice_index words.now (from + j))) × (result ≤ 34359738360) }
{
    words[from..from + 8].iter().map(|x| wide(*x)).sum()
}

// The unused shares of all seats.
pub fn unused(seats: &[u32]) -> u64
    requires { length seats.now ≡ 17 }
    ensures { result ≡ all_unused (seats_from seats.now) }
{
    seats[1..9]
        .iter()
        .zip(&seats[9..17])
        .map(|(share, charge)| left(*share, *charge))
        .sum()
}
