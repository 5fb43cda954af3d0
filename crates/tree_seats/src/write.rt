// What calls do to the seats' words.
ghost use Rattle.std.specs.Prelude.{◌≡◌, ◌+◌, ◌<◌, false, ◌∷◌, ◌++◌, length, slice_index, slice_set};
ghost use Rattle.model.specs.Lists.{put_at};
ghost use Rattle.model.specs.Node.{wrap};
ghost use Rattle.model.specs.Seats.{no_charges, bad_seat, charged_to};
ghost use Rattle.tree_seats.specs.Words.{seats_from};

// One entry more for seat i.
fn one_more(seats: &mut [u32], i: usize)
    requires { (length seats.old ≡ 17) × (i < 8) }
    ensures { seats.new ≡ slice_set seats.old (9 + i) (wrap (slice_index seats.old (9 + i) + 1)) }
{
    let k = 9 + i;
    seats[k] = seats[k].wrapping_add(1);
}

// The same for the seat that was named; nobody is charged where none was. The flag stays.
pub fn charge(seats: &mut [u32], seat: Option<u32>)
    requires { (length seats.old ≡ 17) × (bad_seat (seats_from seats.old) seat ≡ false) }
    ensures { (seats_from seats.new ≡ charged_to seat (seats_from seats.old)) × (slice_index seats.new 0 ≡ slice_index seats.old 0) }
{
    match seat {
        None => {}
        Some(i) => one_more(seats, i as usize),
    }
}

// No charges. Word by word, as the shares below: of a fill or a copy no edit of one word alone is refused for its value.
pub fn clear(seats: &mut [u32])
    requires { length seats.old ≡ 17 }
    ensures { seats.new ≡ put_at 9 no_charges seats.old }
{
    seats[9] = 0;
    seats[10] = 0;
    seats[11] = 0;
    seats[12] = 0;
    seats[13] = 0;
    seats[14] = 0;
    seats[15] = 0;
    seats[16] = 0;
}

// A new tree's words: whether it has seats, their shares, and no charges. A copy of a slice of shares would call memmove, which the archive for C
// hadn't needed.
pub fn begin(seats: &mut [u32], seated: u32, shares: &[u32])
    requires { (length seats.old ≡ 17) × (length shares.now ≡ 8) }
    ensures { seats.new ≡ seated ∷ (shares.now ++ no_charges) }
{
    seats[0] = seated;
    seats[1] = shares[0];
    seats[2] = shares[1];
    seats[3] = shares[2];
    seats[4] = shares[3];
    seats[5] = shares[4];
    seats[6] = shares[5];
    seats[7] = shares[6];
    seats[8] = shares[7];
    clear(seats);
}
