//! The check of a library: from the text of a file to its diagnostics, and to what of it may be run.
//!
//! `check` gives exactly what `specs/Checked.antt` says. Its function `main`, if that is of the forms
//! that are built, is judged by the rules where it stands in the unit of the text (`specs/Units.antt`):
//! what they say of each of its nodes is kept, and the unit with it. `diagnostics text` of
//! `specs/Diagnostics.antt` says what is wrong with the lexemes of the text, its groups, its segments
//! and that function, and which declarations aren't checked yet, in order (`specs/Order.antt`).
//! `Checked::main` gives the body of the function again. `diagnose` gives the unit and the diagnostics
//! alone, and keeps nothing of what is said of nodes. `text_diagnostics` says what is wrong with the
//! lexemes, groups and segments alone. The crate stands on the parser of the whole language, on the forms
//! that are built, and on the judge.
#![tactic(auto)]

mod faults;
mod laws;
mod library;
mod order;

pub use laws::no_diagnostics_means_no_faults;
pub use library::{Checked, Diagnosed, Diagnostics, check, diagnose, text_diagnostics};
pub use order::{earlier_and_shorter_come_first, reports_are_in_order, sorted};
