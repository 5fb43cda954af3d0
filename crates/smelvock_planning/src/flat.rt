// The answer that crosses the C boundary and that marshal doesn't have.

// lengths: document 01's number, 0 where the call was done, then the lowest and the highest length, zeros where it was refused.
#[repr(C)]
#[derive(Clone, Copy)]
pub struct FlatBounds {
    pub number: u32,
    pub lowest: u32,
    pub highest: u32,
}
