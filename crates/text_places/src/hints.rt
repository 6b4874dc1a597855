//! Hints, by which most texts are found without their hash.

use std::alloc::{AllocError, Global};

/// Places where texts may stand, each by a few bytes of its text. A hint may be wrong, so the text at
/// the place is compared before it is believed.
#[derive(Drop)]
pub(crate) struct Hints {
    /// A place for each row of these bits; a row that has no hint tells a place that no text has.
    places: Vec<u32>,
    /// Which bits of a row are kept.
    mask: u32,
}

/// A row for a text, by its length and its bytes at both ends and in the middle.
fn row_of(text: &str) -> usize {
    let bytes = text.as_bytes();
    match (bytes.first(), bytes.get(bytes.len() / 2), bytes.last()) {
        (Some(first), Some(middle), Some(last)) => {
            usize::from(*first)
                ^ usize::from(*middle) << 3
                ^ usize::from(*last) << 5
                ^ (bytes.len() & 31) << 7
        }
        _ => 0,
    }
}

impl Hints {
    /// No hint.
    pub(crate) fn new(alloc: Global) -> Hints {
        Hints {
            places: Vec::new(alloc),
            mask: 7,
        }
    }

    /// Rows without hints, twice as many as these.
    pub(crate) fn wider(&self) -> Result<Hints, AllocError> {
        let alloc = *self.places.allocator();
        let mask = self.mask << 1 | 1;
        let places = Vec::from_elem(alloc, u32::MAX, mask as usize + 1)?;
        Ok(Hints { places, mask })
    }

    /// Where the text may stand.
    pub(crate) fn get(&self, text: &str) -> Option<usize> {
        let place = self.places.get(row_of(text) & self.mask as usize)?;
        Some(*place as usize)
    }

    /// The text stands at this place.
    pub(crate) fn set(&mut self, text: &str, place: usize) {
        let row = row_of(text) & self.mask as usize;
        if row < self.places.len() {
            self.places[row] = (place & 0xFFFF_FFFF) as u32;
        }
    }
}
