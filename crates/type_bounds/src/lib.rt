//! Bounds of types: the upper and the lower bound of two, a type without null, and what is left of a
//! type without another.
//!
//! `specs/Bounds.antt` has the tables of both bounds as relations, one constructor for each row, and
//! `specs/BoundsOf.antt` as functions, which give exactly what the rows derive; `specs/NonNull.antt`
//! and `specs/Factor.antt` state the other two. Each call gives what its function gives, or says how
//! many types would stand in a result that is too large. The crate stands on the types of
//! `dart_types`.
#![tactic(auto)]

mod chains;
mod counts;
mod factors;
mod function_parts;
mod known;
mod laws;
mod meetings;
mod named_parts;
mod non_nulls;
mod parts;
mod signatures;
mod superclasses;
mod type_forms;
mod uppers;

pub use factors::factor;
pub use laws::{
    bound_table_laws, bounds_are_bounds, bounds_are_over_rows, bounds_are_those_of_the_tables,
    bounds_are_unique, bounds_are_valid, bounds_go_row_by_row, more_rows_laws, non_null_laws,
    superinterfaces_are_those_of_the_rules, wider_bounds_laws,
};
pub use non_nulls::non_null;
pub use uppers::{lower, upper};
