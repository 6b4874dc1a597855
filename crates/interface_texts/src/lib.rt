//! What the interface part of a text keeps.
//!
//! `specs/TextParts.antt` has the interface part of a text, by its tokens and its tree. The contract of
//! `laws.rt` states that what a text hides stands in the order of the text, and so that its interface
//! part keeps the tokens outside of what it hides, with a mark for each hidden part; and that an edit
//! inside a body, as `specs/EditedBodies.antt` has it, leaves the interface part. The crate
//! has no other code.
#![tactic(auto)]

mod laws;

pub use laws::{edits_inside_bodies_leave_interface_parts, interface_parts_of_texts};
