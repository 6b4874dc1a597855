//! What of a tree depends on where its tokens stand: of their ranges only which `>` adjoins the next.
//!
//! The contract of `laws.rt` states it, over the definitions of `grammar` and `dart_tree`: two texts
//! with the same tokens have the same tree, with ranges and numbers aside, where each `>` adjoins the
//! next token in the one exactly where it does in the other. The crate has no other code.
#![tactic(auto)]

mod laws;

pub use laws::trees_depend_on_adjacency;
