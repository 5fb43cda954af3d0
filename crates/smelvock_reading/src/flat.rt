// The answer that crosses the C boundary and that marshal doesn't have.

// lookup: document 01's number, 0 where the call was done, then the entry, the offset into it and its position, zeros where it was refused.
#[repr(C)]
#[derive(Clone, Copy)]
pub struct FlatLooked {
    pub number: u32,
    pub id: u32,
    pub offset: u32,
    pub position: u32,
}
