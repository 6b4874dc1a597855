//! The rows of the classes of `dart:core` that rules name.
//!
//! `specs/CoreTable.antt` has the table: a row for each class that `dart_types` has an id for, with its
//! type parameters and its direct supertypes, as the text of `dart:core` declares them. `core_rows` makes
//! just these rows of the classes as they are declared (`specs/CoreDeclared.antt`), whose depths
//! `class_depths` finds, and `core_row_laws` says what rules and programs ask of them. The crate stands on
//! `dart_types` and `class_depths`.
#![tactic(auto)]

mod core_classes;
mod core_vars;
mod laws;

pub use core_classes::core_rows;
pub use laws::core_row_laws;
