//! The tree of a text that is printed from tokens.
//!
//! The contracts of `laws.rt` state, over the definitions of `dart_scan`, `grammar` and `tree_print`,
//! that a text is read as its tokens are seen: texts whose tokens are the same by kind and lexeme, and
//! adjoin where the others do, have the same tree, with ranges and numbers aside. So a text that is
//! printed of the tokens of another and read again has the tree of that one. The crate has no other
//! code.
#![tactic(auto)]

mod laws;

pub use laws::{printed_texts_have_the_same_tree, seen_tokens_tell_the_tree};
