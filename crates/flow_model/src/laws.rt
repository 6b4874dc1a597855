//! Laws of flow models, in the words of their definitions. Each is the contract of a function that
//! does no work. They speak of all models and all facts, so that a proof may cite them for models
//! that no code has made.

mod kept;
mod meetings;
mod order;
mod steps;
mod tells;

pub use kept::{chains_descend, no_captured_local_is_promoted};
pub use meetings::{
    join_commutes, join_knows_each_local, join_promotes_to_what_both_do,
    join_with_itself_changes_nothing, restrict_knows_each_local,
};
pub use order::{
    both_ends_imply_their_join, models_are_ordered, restrict_keeps_the_order,
    restrict_says_what_both_say, steps_keep_the_order, steps_say_more_or_less,
    tests_keep_the_order, writes_keep_the_order,
};
pub use steps::{
    a_step_changes_one_local, code_forgets_what_it_changes, conservative_joins_add_up,
    declare_adds_one_local, end_takes_locals_out, end_undoes_declare, start_knows_its_locals,
    steps_keep_the_scope,
};
pub use tells::{
    appended_types_are_proper_subtypes, non_null_tells, tests_narrow, tests_tell, writes_tell,
};
