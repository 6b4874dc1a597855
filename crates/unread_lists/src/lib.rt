//! What a tree is once the lists of statements are read that it was read without.
//!
//! A parser that may have to give up an attempt reads a statement with the lists of statements in it,
//! those of its blocks and of the cases of a switch, unread: one error node over all its tokens
//! stands for each that isn't empty. `specs/WithLists.antt` says what the tree is once they are read,
//! each where it stands and by the room that is left there; `specs/EachList.antt` what holds of each
//! list. What a list is read as is no matter of the crate, and it has no code but its laws: `read_lists`
//! changes trees so. It stands on the trees of `dart_tree` alone.
#![tactic(auto)]

mod laws;

pub use laws::unread_laws;
