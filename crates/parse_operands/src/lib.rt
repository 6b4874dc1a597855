//! The parser of operands: strings, arguments, literals, closures and selectors, over whatever reads the parts of a node.
#![tactic(auto)]

mod arguments;
mod primaries;
mod selection;
mod strings;

pub use arguments::argument_list;
pub use primaries::{simple_within, some_dotted_name};
pub use selection::{selectors, unary_within};
pub use strings::string;
