//! What is hidden in texts that differ only in what stands in bodies.
//!
//! The contract of `laws.rt` states it, over the definitions of `grammar` and `interface_part`: the
//! grammar reads the braces of a body in one step, so what stands in them decides nothing of what is
//! hidden elsewhere. `specs/Bodies.antt` says when two lists of tokens differ only so. The crate has no
//! other code.
#![tactic(auto)]

mod laws;

pub use laws::bodies_hide_alike;
