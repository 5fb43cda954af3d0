// The lengths of an entry that aren't known yet.

#[derive(Clone, Copy)]
pub struct Bounds {
    pub lowest: u32,
    pub highest: u32,
}
