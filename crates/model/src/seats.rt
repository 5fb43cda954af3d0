// The seats of a tree (document 02, CR 10).

// Whether a tree has seats; then the shares of seats 0 to 7, and how many entries are charged to each.
#[derive(Clone, Copy)]
pub struct Seats {
    pub seated: bool,
    pub shares: [u32; 8],
    pub charges: [u32; 8],
}
