//! An edit in the braces of a body leaves the interface part of a text.
//!
//! The contracts of `laws.rt` state it, over the definitions of `dart_scan`, `grammar` and
//! `interface_texts`. `specs/EditedTokens.antt` says when the tokens of two texts are the same but for
//! what stands in the braces of one body, `specs/EditedBraces.antt` when two texts have the same lexemes
//! but for those, and `specs/EditedPieces.antt` the same pieces; `specs/Brackets.antt` has the groups that
//! are open in a text, by their kinds alone. The crate has no other code.
#![tactic(auto)]

mod laws;

pub use laws::{bodies_make_texts_alike, edits_in_braces_leave_interface_parts};
