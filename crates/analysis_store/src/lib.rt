//! Checkers of a session's files.
//!
//! `Plain` is the checker that keeps nothing but the contents: each question is answered by a check from
//! nothing. `Recent` keeps the files as it linked them last, and reads again only texts that have changed
//! since (`specs/Keeping.antt`). The contract of both is the trait `Checker` of `request_core`: they answer
//! the diagnostics that `AreDiagnosticsOf` of `protocol_rules` defines.
#![tactic(auto)]

mod linked;
mod plain;
mod recent;

pub use plain::Plain;
pub use recent::{Kept, Reading, Recent};
