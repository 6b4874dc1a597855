//! Libraries by the names that they declare and export.
//!
//! A `LibraryElement` has what the top level of a library and of its parts declares, and its exports
//! with their combinators. `specs/Declarations.antt` says which names a declaration has: a variable
//! that isn't final has that of its getter and that of its setter, which ends in `=`.
//! `specs/Combinators.antt` says which names combinators let pass. Both read names as texts. The crate
//! stands on `plain_text`, and on `dart_types` for the numbers of libraries.
#![tactic(auto)]

mod combinators;
mod declarations;
mod libraries;
mod name_tables;
mod names;
mod pass_tables;

pub use combinators::{Combinator, Combinators};
pub use declarations::{Declarations, Declared, DeclaredKind};
pub use libraries::{ExportEdge, Exports, LibraryElement, declared, declared_place};
pub use names::{NameList, is_private, is_setter_of, means, setter_of};
