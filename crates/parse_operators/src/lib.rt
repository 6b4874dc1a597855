//! The parser of expressions: levels of operators, assignments and cascades, over whatever reads the
//! parts of a node.
//!
//! `expressions.rt` climbs the levels of operators behind an operand that is read once, and goes on to
//! assignments, `throw` and cascades; `sections.rt` reads what stands behind the `..` of a cascade.
//! `again.rt` tells where an expression ends, without its tree: what may stand behind an operand hangs
//! on two things that `extents.rt` keeps of it, and what does stand behind is kept by place (`known.rt`),
//! so that a text which is tried from many places is read once.
//! Each contract states that the answer is exactly what the way down of `grammar` finds there, and how
//! high the tree is. The crate stands on `parse_leaves` and `parse_operands`, and on the tokens, trees
//! and definitions below them.
#![tactic(auto)]

mod again;
mod expressions;
mod extents;
mod known;
mod sections;

pub use again::expression_end;
pub use expressions::{TABLE, expression_within, operand_within};
pub use extents::Extent;
pub use known::Known;
pub use sections::{section_name, section_within};
