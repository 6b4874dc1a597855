//! The forms of the language that are checked so far, found in the trees of units.
//!
//! Of a unit's declarations one form is built: a function `void main() { .. }` of the statements and
//! expressions that `specs/Forms.antt` lists. All others aren't checked yet: `specs/Units.antt` says
//! which declarations and directives those are, and where they stand. What a word means outside of
//! functions, by the declarations of its unit and those of dart:core, is in `specs/Meanings.antt`;
//! `specs/CoreImports.antt` says which imports may leave names of dart:core out.
//! `forms_of` gives all that once for a unit, and `built_main` finds the function; that its body is
//! then a block of such forms is a law. The crate stands on the trees, and on the scan for the values of
//! strings, and knows no rule of types.
#![tactic(auto)]

mod core_imports;
mod declared;
mod expressions;
mod laws;
mod locals;
mod meaning;
mod statements;
mod units;

pub use laws::built_bodies_are_blocks;
pub use units::{Forms, built_main, forms_of};
