//! Flow models of the whole language: what is known of the locals at a point of a body.
//!
//! A `Flow` says whether a point can be reached, and of each local in scope which types it is
//! promoted to, which it was tested for, whether it has a value for certain or has none for certain,
//! and whether a function that writes it may have been made. Each of its calls is one equation over
//! the model, by the definitions of `specs/Flow.antt`, `Promote.antt`, `Assign.antt`, `Steps.antt`,
//! `Join.antt` and `Restrict.antt`. The locals stand in pages that models share, so a copy of a model
//! costs two pointers, and a change of one local a page and the list of pages. Some steps go from a
//! shared model to a shared one, which is the same one where they change nothing. The laws say what is
//! known of each local after a step, which facts every step keeps (`specs/Chains.antt`), and which
//! steps keep the order of models by what they say (`specs/Order.antt`). Types, rows and subtyping are
//! those of `dart_types`, types without null those of `type_bounds`; the crate stands on these two.
#![tactic(auto)]

mod facts;
mod join;
mod laws;
mod local;
mod locals;
mod model;
mod page;
mod pages;
mod promotions;
mod restrict;
mod shared;
mod types;
mod writes;

pub use laws::{
    a_step_changes_one_local, appended_types_are_proper_subtypes, both_ends_imply_their_join,
    chains_descend, code_forgets_what_it_changes, conservative_joins_add_up,
    declare_adds_one_local, end_takes_locals_out, end_undoes_declare, join_commutes,
    join_knows_each_local, join_promotes_to_what_both_do, join_with_itself_changes_nothing,
    models_are_ordered, no_captured_local_is_promoted, non_null_tells, restrict_keeps_the_order,
    restrict_knows_each_local, restrict_says_what_both_say, start_knows_its_locals,
    steps_keep_the_order, steps_keep_the_scope, steps_say_more_or_less, tests_keep_the_order,
    tests_narrow, tests_tell, writes_keep_the_order, writes_tell,
};
pub use local::Local;
pub use locals::{Facts, LocalDecl, LocalId};
pub use model::Flow;
