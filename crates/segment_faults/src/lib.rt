//! What is wrong with a segment of a text that derives nothing: an error node of its tree.
//!
//! `specs/Table.antt` has the table of what marks a construct of Dart that the language leaves out,
//! `specs/Nesting.antt` says which segments have too many groups in one another or too many lexemes,
//! and `specs/Faults.antt` what is wrong with a segment: by the first place in it that fits the table,
//! or else by its nesting. `segment_fault` gives exactly that, in time that is linear in the number of
//! tokens of the segment; `deep_tokens` tells it, once for a text, which tokens lie in too many groups. The
//! crate stands on the tokens of `grammar` and on the tests of `parse_leaves`, and knows no tree, no
//! range and no name of a diagnostic.
#![tactic(auto)]

mod depths;
mod fault;
mod laws;
mod nesting;
mod segment;
mod table;

pub use depths::deep_tokens;
pub use fault::SegmentFault;
pub use laws::{groups_begin_and_end, the_first_place_counts};
pub use segment::segment_fault;
