//! Reading the lists of statements that a tree was read without.
//!
//! The functions of this crate change a tree to just what `unread_lists` says that it is once its lists
//! are read, each where it stands and by the room that is left there, over whatever reads a list
//! (`ReadsLists`). The crate stands on the trees of `dart_tree` and on those definitions alone; what a
//! list is read as is no matter of its.
#![tactic(auto)]

mod expressions;
mod functions;
mod lists;
mod members;
mod statements;
mod types;
mod units;

pub use expressions::read_expr;
pub use functions::{read_body, read_function, read_parameter_list, read_variable_list};
pub use lists::ReadsLists;
pub use members::{read_initializer, read_member};
pub use statements::{read_block, read_stmt, read_stmts};
pub use types::read_written_type;
pub use units::{read_item, read_unit};
