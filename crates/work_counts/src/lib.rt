//! How much a checker has done.
//!
//! `Work` has three counts: of texts that were parsed, of cycles of libraries that were linked, and of
//! libraries that were checked. Who does such a piece of work raises the count that it is lent
//! (`specs/Counts.antt`). The crate stands on std alone.
#![tactic(auto)]

mod counts;
mod kind;

pub use counts::Work;
pub use kind::WorkKind;
