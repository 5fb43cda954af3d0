// A record's fields.
ghost use Rattle.std.specs.Prelude.{◌≡◌, ◌+◌, ◌≤◌, length};
ghost use Rattle.model.specs.Record.{word_at, fields_of};
ghost use Rattle.list_records.specs.Said.{plain_fields};

// Kind, view or flag, line ends in the two bytes behind it, and a, b, c.
#[derive(Clone, Copy)]
pub struct Fields {
    pub kind: u32,
    pub flag: u32,
    pub lines: u32,
    pub a: u32,
    pub b: u32,
    pub c: u32,
}

// The little-endian u32 at a byte.
pub fn word_at(bytes: &[u8], at: usize) -> u32
    requires { at + 4 ≤ length bytes.now }
    ensures { result ≡ word_at at bytes.now }
{
    u32::from_le_bytes([bytes[at], bytes[at + 1], bytes[at + 2], bytes[at + 3]])
}

// The fields of a record of 16 bytes.
pub fn read(bytes: &[u8]) -> Fields
    requires { length bytes.now ≡ 16 }
    ensures { plain_fields result ≡ fields_of bytes.now }
{
    Fields {
        kind: u32::from(bytes[0]),
        flag: u32::from(bytes[1]),
        lines: u32::from(u16::from_le_bytes([bytes[2], bytes[3]])),
        a: word_at(bytes, 4),
        b: word_at(bytes, 8),
        c: word_at(bytes, 12),
    }
}
