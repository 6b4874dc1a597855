//! Slots, by which a text is found from its hash.

ghost use Rattle.std.specs.Prelude.{◌≡◌};
ghost use Rattle.text_places.specs.Hashes.{first_of, tag_of};

/// How many slots a hash names.
pub(crate) const SLOTS_OF_A_HASH: usize = 8;

/// The place of a text, with half of its hash, so that other texts are seldom looked at.
#[derive(Clone, Copy)]
pub(crate) struct Slot {
    /// Half of the hash of the text.
    pub tag: u32,
    /// The place of the text. A slot whose place no text has is free.
    pub place: u32,
}

/// A slot that is free.
pub(crate) fn free_slot() -> Slot {
    Slot {
        tag: 0,
        place: u32::MAX,
    }
}

/// The half of a hash that its slots keep.
pub(crate) fn tag_of(hash: u64) -> u32
    ensures { result ≡ tag_of hash }
{
    (hash >> 32) as u32
}

/// The first of the slots that a hash names, under a mask.
pub(crate) fn first_of(hash: u64, mask: u32) -> usize
    ensures { result ≡ first_of hash mask }
{
    ((hash & 0xFFFF_FFFF) as u32 & mask) as usize
}

/// The mask for twice as many slots, eight of which lie together.
pub(crate) fn wider(mask: u32) -> u32 {
    mask << 1 | 8
}
