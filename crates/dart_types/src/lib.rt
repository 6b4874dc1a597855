//! Types of Dart, subtyping, and the substitution of type arguments.
//!
//! A `DartType` is a type as contracts compare it: two of equal parts are equal (`specs/Ty.antt`).
//! The rules of subtyping are a relation, one constructor for each (`specs/Sub.antt`), over the rows
//! of classes and type variables that `Rows` holds; they are well formed by its type
//! (`specs/WellFormed.antt`), so no call has a condition on them. Rows stand by library, and those of a
//! library are shared. `Rows::extend` puts own ones over others, and forms the superinterfaces of each
//! class once (`specs/Superinterfaces.antt`), so that no way up to them is walked; `Rows::takes` tests
//! what it asks, and `Rows::union` joins rows of several libraries (`specs/Unions.antt`). `is_subtype`
//! decides the relation, and takes no memory; `substitute` puts arguments in
//! (`specs/Substitution.antt`), as a `Superinterface` takes those of a class. The crate stands on
//! `plain_text`.
#![tactic(auto)]

mod class_arguments;
mod class_libraries;
mod class_rows;
mod copies;
mod entries;
mod equality;
mod filling;
mod gathering;
mod hierarchy;
mod ids;
mod invalid;
mod laws;
mod named_search;
mod normal;
mod normal_sizes;
mod pairs;
mod params;
mod refusal;
mod replacements;
mod row_checks;
mod row_lookups;
mod rows;
mod scopes;
mod seen_equality;
mod sizes;
mod substitution;
mod subtyping;
mod superinterfaces;
mod too_large;
mod type_checks;
mod types;
mod var_libraries;

pub use class_arguments::Arguments;
pub use class_rows::{ClassRow, VarList, VarRow};
pub use ids::{
    ARGUMENT_ERROR, BOOL, CORE, ClassId, ERROR, EXCEPTION, FUNCTION, INT,
    INTEGER_DIVISION_BY_ZERO_EXCEPTION, ITERABLE, ITERATOR, LIST, LibId, MAP, NO_LIBRARY, NULL,
    OBJECT, RANGE_ERROR, STACK_OVERFLOW_ERROR, STACK_TRACE, STATE_ERROR, STRING, TYPE_ERROR, VarId,
};
pub use laws::{
    bound_laws, class_row_laws, constants_are_those_of_the_rules, count_laws, equality_laws,
    form_laws, kept_laws, measure_laws, more_rows_laws, named_parameter_laws, normal_form_laws,
    row_laws, size_laws, substitution_keeps_subtypes, subtype_laws, subtype_test_law,
    superinterface_laws, union_laws, view_law, views_law, wider_rows_laws,
};
pub use refusal::{NODE_LIMIT, TypeRefusal};
pub use rows::{ExtendedRows, Rows};
pub use sizes::size;
pub use substitution::substitute;
pub use subtyping::{is_subtype, is_subtype_of_object};
pub use superinterfaces::{Superinterface, superinterfaces_of_class};
pub use types::{DartType, FunctionType, NamedType, NamedTypes, TypeList, TypeNode};
