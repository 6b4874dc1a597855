//! What libraries export, and what names mean across them.
//!
//! `specs/Exports.antt` says what a library exports: the least set closed under declarations and, for a
//! name that the library doesn't declare, under exports through their combinators, as a relation.
//! `specs/AmbiguousExports.antt` says which exports are ambiguous, and `specs/Ambiguities.antt` how the
//! names that libraries export tell it, whatever their order; that they do is a law (`laws.rt`).
//! `specs/Lookups.antt` says what a name means at the top level of a library and behind a prefix: what
//! the library declares, else what its imports bring. The crate stands on `element_terms` for libraries
//! and on `library_graph` for what a path is.
#![tactic(auto)]

mod ambiguities;
mod brought;
mod elements;
mod export_tables;
mod found;
mod laws;
mod links;
mod lookups;
mod place_tables;
mod scopes;
mod search;

pub use ambiguities::ambiguous_exports;
pub use elements::{ElementId, Exported, Namespace};
pub use export_tables::exports;
pub use found::Found;
pub use laws::{
    ambiguous_exports_are_told, the_first_export_is_not_ambiguous, the_order_of_pairs_is_no_matter,
};
pub use lookups::{lookup, lookup_behind};
pub use place_tables::{PlaceTable, place_table};
pub use scopes::{Import, Scope};
