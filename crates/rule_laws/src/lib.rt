//! Laws of the rules, whatever the form: what they do to what is known, and which nodes they speak of.
//!
//! The crate has no code that does work. Its laws are proved by induction over the forms that are built,
//! once, so that crates above needn't go through the rules again: what is known behind a form says as
//! much as before it but of what it writes, in the same scope (`specs/Steps.antt`), in models that are
//! plain and scopes that hide no type (`specs/Plain.antt`); a loop's head holds at each turn; each node
//! is spoken of once, so that what is said of it is found by its number (`specs/Keys.antt`); and no form
//! jumps yet.
#![tactic(auto)]

mod laws;

pub use laws::{
    each_node_is_spoken_of_once, no_form_jumps, rules_step, scopes_hide_nothing,
    what_is_said_is_found_by_number,
};
