//! The parser of statements and blocks, over whatever reads the parts of a node.
#![tactic(auto)]

mod blocks;
mod loops;
mod statements;
mod switches;
mod tries;

pub use blocks::{block_within, local_body, some_name_type, variables, variables_behind};
pub use statements::statement_within;
