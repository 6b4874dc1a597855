//! Libraries and their parts, from the outlines of all files.
//!
//! A file is known by its place among the files, and `dart:core` stands at the first. `named_path`
//! answers which path a URI names (`specs/Naming.antt`), `all_aims` which file each directive names
//! (`specs/Aims.antt`), and `heads_of` which files are libraries and what parts claim
//! (`specs/Heads.antt`). `units_of` and `home_of` answer which parts a library has, and which library a
//! part belongs to (`specs/Parts.antt`).
//!
//! `library_faults` and `file_faults` give what is wrong with directives and declared names
//! (`specs/Checks.antt`): that URIs name no file, imports a part, and `part` no part of the library
//! (`specs/LinkFaults.antt`), and which declarations are second ones (`specs/Duplicates.antt`);
//! `add_ambiguous_exports` adds which exports are ambiguous (`specs/Ambiguous.antt`).
//!
//! `elements_of` and `imports_of` give libraries as the look-up of names sees them
//! (`specs/Elements.antt`, `specs/Scopes.antt`), and `edges_of` which libraries lead to which
//! (`specs/Graph.antt`). No call recurses, and each is linear in what it is given, look-ups of packages
//! aside.
#![tactic(auto)]

mod aims;
mod ambiguous;
mod check;
mod duplicates;
mod elements;
mod files;
mod graph;
mod heads;
mod laws;
mod link_faults;
mod naming;
mod parts;
mod scope;
mod texts;

pub use aims::{Aim, AimKind, Aims, aims_in, all_aims};
pub use ambiguous::add_ambiguous_exports;
pub use check::{Faults, FileFaults, aims_at, file_faults, library_faults};
pub use duplicates::Taken;
pub use elements::elements_of;
pub use files::{SourceFile, paths_of};
pub use graph::edges_of;
pub use heads::{Head, heads_of};
pub use laws::{
    duplicates_are_second_declarations, few_exports_are_not_ambiguous, paths_are_those_of_files,
    the_order_of_names_is_no_matter,
};
pub use link_faults::add_link_faults;
pub use naming::named_path;
pub use parts::{Home, Units, home_of, units_of};
pub use scope::{Spaces, imports_of};
pub use texts::Texts;
