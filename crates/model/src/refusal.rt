// Why a call was not done. specs/Numbered.antt gives each cause's number.
ghost use Rattle.std.specs.Prelude.{◌≡◌};
ghost use Rattle.model.specs.Numbered.{refusal_number};
ghost use Rattle.model.specs.declared.refusal.Refusal.TheVariants as refusal;

use crate::way::Broken;

#[derive(Clone, Copy, Debug, PartialEq, Eq)]
pub enum Refusal {
    // The fan is not 4 to 32, or the limit not 1 to 65,536.
    Size,
    // An area is shorter than the limit needs.
    Area,
    // The cursor's stamp is not the present one.
    Stamp,
    // There is no such entry or edit.
    Id,
    // The position is at or past the end.
    Position,
    // The split moves more than the entry has.
    Split,
    // A total would pass 4,294,967,295.
    Total,
    // The tree holds its limit.
    Full,
    // A link of the tree leads outside.
    Link,
    // A field has no such value: more than 65,535 line ends, a head of another length, a view, a flag or a seat out of range.
    Field,
    // Records and output are unequally long, or a length is not a multiple of 16.
    Records,
    // The buffer or the list area is too short.
    Buffer,
    // The cursor's leaf is not in use.
    Leaf,
    // The cursor's slot is at or past its leaf's len.
    Slot,
    // A parent of an edit is not smaller than the edit.
    Parent,
    // The file has more than 512 edits.
    Edits,
    // The split moves nothing, or leaves nothing behind.
    Hollow,
    // The seat is at or over its share, and the free entries don't outnumber the other seats' unused shares.
    Over,
    // The shares sum to the limit or more.
    Shares,
    // A lowest length is above the highest, given or left by a split.
    Bounds,
    // No sound tree has the head, lens, child numbers and lengths that repair trusts.
    Unsound,
}

impl Refusal {
    // The number by which the exports for C, the records and the row know it.
    pub fn number(self) -> u32
        ensures { result ≡ refusal_number self }
    {
        match self {
            Refusal::Size => 1,
            Refusal::Area => 2,
            Refusal::Stamp => 3,
            Refusal::Id => 4,
            Refusal::Position => 5,
            Refusal::Split => 6,
            Refusal::Total => 7,
            Refusal::Full => 8,
            Refusal::Link => 9,
            Refusal::Field => 10,
            Refusal::Records => 11,
            Refusal::Buffer => 12,
            Refusal::Leaf => 13,
            Refusal::Slot => 14,
            Refusal::Parent => 15,
            Refusal::Edits => 16,
            Refusal::Hollow => 17,
            Refusal::Over => 18,
            Refusal::Shares => 19,
            Refusal::Bounds => 20,
            Refusal::Unsound => 21,
        }
    }
}

// A walk that led outside is refused so by the call.
impl From<Broken> for Refusal {
    ghost from_gives = { λ _ r. r ≡ refusal.Link };

    fn from(_broken: Broken) -> Refusal {
        Refusal::Link
    }
}
