//! The parser of types and parameters: one function for each production, over whatever reads the parts of a node.
#![tactic(auto)]

mod parameters;
mod types;

pub use parameters::{annotations, parameter_list, some_initializer};
pub use types::{
    listed_type_parameters, plain_type, some_type_arguments, some_type_parameters, type_arguments,
    type_list, type_within,
};
