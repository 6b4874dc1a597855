//! The tokens that the grammar reads, made of the tokens of a text as they come.
//!
//! A `Grouping` takes tokens one by one and holds each of them once, as the grammar reads it, with the
//! brackets that close no group beside them, and 12 bytes for each group that is open. It has no list
//! of the tokens without their groups and none of partners. `finish` gives the `Tokens` of exactly the
//! tokens that came, and what is wrong with their groups. `specs/Ahead.antt` says what the grammar reads
//! of some tokens without any places: `specs/SoFar.antt` is the law that holds after each token,
//! whatever tokens come. The crate stands on `dart_tokens`, and knows no text.
#![tactic(auto)]

mod faults;
mod grouping;
mod sizes;

pub use grouping::{Grouped, Grouping};
