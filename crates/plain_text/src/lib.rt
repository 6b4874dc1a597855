//! Owned texts and byte strings that contracts see as lists.
//!
//! A `String` or a `Vec<u8>` in a field is seen with its pointer and its capacity, so that two of
//! the same content need not be equal. A `PlainText` and a `PlainBytes` are the list of their bytes
//! and nothing else: equal lists are equal values. Of a text in UTF-8 the crate also counts the
//! UTF-16 code units (`specs/Units.antt`). It stands on std alone, and every crate
//! of the product that keeps a text in a struct takes its type from here.
#![tactic(auto)]

mod bytes;
mod text;
mod units;

pub use bytes::PlainBytes;
pub use text::PlainText;
pub use units::{units_of_byte, utf16_len};

#[cfg(test)]
mod tests;
