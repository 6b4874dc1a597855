//! Tests of the parser.
//!
//! `read` answers what a text begins with, in the notation of `tree_notation`. `table.rt` has texts with
//! the notations that the grammar gives them, worked out by hand, `deep.rt` has texts that are nested
//! as deep as a tree may be, and deeper, and `parts.rt` has types, blocks and parameters by themselves.
//! `units` has the same of whole texts: their notations, with ranges or without, and what is wrong with
//! them.
#![tactic(auto)]

#[cfg(test)]
mod deep;
#[cfg(test)]
mod nesting;
#[cfg(test)]
mod parts;
mod reading;
#[cfg(test)]
mod table;
#[cfg(test)]
mod units;

pub use reading::read;
