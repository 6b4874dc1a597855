//! Texts, each once, in the order in which they came, and the place of each.
//!
//! A text is looked for in a few slots that its hash names. Who chooses texts can choose many that have
//! one hash, since every hash here is known to him; so what finds no slot is kept in order of the
//! texts, and looked for there. So a look-up takes a bounded number of comparisons and those of a
//! search in order, whatever the texts are, and that of an ordinary text mostly one. Contracts say what
//! is found; `specs/Tables.antt` says how. The crate stands on std alone.
#![tactic(auto)]

mod hashes;
mod hints;
mod slots;
mod text_index;
mod text_places;

pub use text_places::TextPlaces;
