//! The parser of types, expressions, statements and blocks, at any place of a text.
//!
//! `node.rt` ties the productions of the crates below together: one function reads any part of a node
//! (`part.rt`), and hands the productions what reads the parts below it with room for one node less
//! (`reader.rt`), so nothing goes deeper than the limit of nodes. `lists.rt` reads the lists of
//! statements, which a node is read without, where they stand (`places.rt`), and `items.rt` the items of
//! a list, one by one, with errors among them; `calls.rt` has the calls. Their answers are those of the way down in
//! `grammar`, which are the first of the longest readings.
#![tactic(auto)]

mod calls;
mod items;
mod lists;
mod node;
mod part;
mod places;
mod reader;

pub use calls::{parse_block, parse_expression, parse_parameters, parse_statement, parse_type};
pub use lists::{TextLists, behind_segment};
pub use node::part_at;
pub use part::{Node, Part};
pub use places::{starts_before_near, tokens_from};
pub use reader::Reader;
