//! Edits inside bodies and initializers.
//!
//! The contract of `laws.rt` states that an edit inside what an interface part hides leaves the
//! interface part, however many tokens it puts in the place of those that stood there.
//! `specs/Edits.antt` says what such an edit is. The crate has no other code.
#![tactic(auto)]

mod laws;

pub use laws::edits_inside_leave_the_interface_part;
