//! URI references that name files and folders.
//!
//! `resolved` in `specs/References.antt` states which path a reference names from a folder: its
//! scheme, its escapes and its dot segments, in this order. A law says that what it gives is an
//! absolute and normalized path. The crate stands on `fault_io`, whose paths these are, and on the
//! kit's reader of escapes; it asks no store whether there is such a file.
#![tactic(auto)]

mod laws;
mod reference;
mod segments;

pub use laws::resolved_is_a_path;
pub use reference::resolved;

#[cfg(test)]
mod tests;
