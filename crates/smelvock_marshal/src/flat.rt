// What crosses the C boundary: plain numbers in structs of C's layout, and the head as thirty-six words that the host lends: fan, limit,
// root, levels, the counts of leaves, inner nodes and entries in use, 1 or 0 for a finger or none, the finger's nine words, the stamp's
// two, the low one first; then 1 or 0 for a tree with seats or without, the shares of seats 0 to 7, and what is charged to each.
// A cursor and lengths cross it as numbers, each an argument of its own: a struct would go through memory.

// The answers: document 01's number, 0 where the call was done, then its values, zeros where it was refused.
// len, is_empty, id, entry_to_char_index, cmp, audit, resize, print, edits_difference. Those without a value answer the number alone.
#[repr(C)]
#[derive(Clone, Copy)]
pub struct FlatNumber {
    pub number: u32,
    pub value: u32,
}

// lengths.
#[repr(C)]
#[derive(Clone, Copy)]
pub struct FlatMeasured {
    pub number: u32,
    pub prepare: u32,
    pub effect: u32,
    pub lines: u32,
}

// A cursor in an answer.
#[repr(C)]
#[derive(Clone, Copy)]
pub struct FlatCursor {
    pub leaf: u32,
    pub slot: u32,
    pub stamp: u64,
}

// first, next, cursor; after the last entry the leaf is 4,294,967,295.
#[repr(C)]
#[derive(Clone, Copy)]
pub struct FlatStanding {
    pub number: u32,
    pub at: FlatCursor,
}

// locate.
#[repr(C)]
#[derive(Clone, Copy)]
pub struct FlatLocated {
    pub number: u32,
    pub at: FlatCursor,
    pub offset: u32,
    pub position: u32,
    pub prepare: u32,
    pub examined: u32,
}

// insert.
#[repr(C)]
#[derive(Clone, Copy)]
pub struct FlatInserted {
    pub number: u32,
    pub id: u32,
    pub position: u32,
}

// split_entry: the new id, then both entries' cursors in order.
#[repr(C)]
#[derive(Clone, Copy)]
pub struct FlatDivided {
    pub number: u32,
    pub id: u32,
    pub first: FlatCursor,
    pub second: FlatCursor,
}
