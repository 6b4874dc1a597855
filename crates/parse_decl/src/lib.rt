//! The parser of directives, declarations and whole texts.
//!
//! There is a function for each production, over whatever reads the parts of a node: two of them, since
//! the parts of a member lie one node deeper than those of a declaration. `parts.rt` has what is held of
//! a declaration before it is made; `items.rt` has the list of items, which reads the longest item at
//! each place, or else an error over a segment. `calls.rt` has the tree of a text, with the lists of
//! statements read where they stand: it is the one of `grammar`.
#![tactic(auto)]

mod calls;
mod declarations;
mod directives;
mod items;
mod leaves;
mod parts;

pub use calls::parse_items;
