//! The outline of a unit: its directives, and the names that its top level declares.
//!
//! `outline_of` reads both from the tree of a unit, as `specs/Outlines.antt` says: each directive with
//! its place, its URI as a text (`specs/Uris.antt`), its prefix and its combinators
//! (`specs/Directives.antt`), and each declared name with its place and kind (`specs/DeclaredNames.antt`).
//! `specs/Order.antt` says which directives stand where they may not. `specs/UnitFaults.antt` says what
//! is wrong with the directives of a unit, whatever other files hold; `unit_faults` and
//! `homeless_faults` give that. The crate stands on the trees of `dart_tree`, on the values of strings
//! of `dart_scan`, and on the names and combinators of `element_terms`.
#![tactic(auto)]

mod declared;
mod directive;
mod faults;
mod order;
mod outline;
mod uri;

pub use declared::{DeclaredName, DeclaredNames};
pub use directive::{Directive, DirectiveForm, Directives};
pub use faults::{LibraryFault, LibraryFaultKind, homeless_faults, unit_faults};
pub use order::Spans;
pub use outline::{Outline, outline_of};
pub use uri::Uri;
