//! The numbers of a unit's nodes, and the laws of trees.
//!
//! `number_unit` numbers the nodes of a unit in reading order, as `specs/Numbers.antt` of `dart_tree`
//! says. `numbering_laws` say what numbers do to a tree (`specs/NumberLaws.antt`, `PlaceLaws.antt`), and
//! `tree_laws` what its height rests on (`specs/HeightLaws.antt`, `TreeLaws.antt`). The crate stands on
//! the trees of `dart_tree` alone.
#![tactic(auto)]

mod laws;
mod numbering;
mod numbering_names;
mod numbering_parts;
mod numbering_statements;

pub use laws::tree_laws;
pub use numbering::{number_unit, numbering_laws};
