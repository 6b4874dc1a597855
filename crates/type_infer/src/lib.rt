//! The inference of type arguments.
//!
//! A call that leaves out its type arguments gets them from the context in which it stands and from
//! the types of its arguments: `specs/Matching.antt` says which constraints these set on the
//! parameters, one constructor for each rule, `specs/Solutions.antt` what constraints make of a
//! parameter, and `specs/Inference.antt` and `specs/Contexts.antt` which answers they derive.
//! `specs/MatchOf.antt` and `specs/InferenceOf.antt` compute the same answers, and the two calls give
//! what these functions give. That both are one, and that the arguments are within their bounds, are
//! laws. The crate stands on `dart_types` and `type_bounds`.
#![tactic(auto)]

mod bounds;
mod climbs;
mod constraints;
mod contexts;
mod gathering;
mod holding;
mod inference;
mod laws;
mod matching;
mod openness;
mod reading;
mod refusal;
mod signatures;
mod solving;
mod var_types;
mod ways;

pub use contexts::{Context, OPEN_PARAMETER, context_of};
pub use inference::infer_arguments;
pub use laws::{
    answers_are_those_of_the_rules, contexts_are_unique, inferred_arguments_are_unique,
    inferred_arguments_are_within_bounds, more_rows_laws, refusals_are_for_the_first_parameter,
};
pub use refusal::InferRefusal;
