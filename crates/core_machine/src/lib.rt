//! The machine: what an accepted core program does when it is run.
//!
//! The step table (`specs/Steps.antt`) has one row for each term: what it does by what the slots
//! hold, or how it goes wrong. A run is a number of steps from the entry of `main` (`specs/State.antt`).
//! `Machine` takes these steps one at a time, and tests for no way to go wrong, since `never_wrong`
//! says that from an accepted program no number of steps does. `specs/Sound.antt` has what holds at
//! every moment in between: each frame stands at a point of its function that a run may come to, and its
//! slots hold what is known there. The crate stands on core programs and on their acceptance, and doesn't
//! know how a program is made.
#![tactic(auto)]

mod decide;
mod effect;
mod frame;
mod laws;
mod machine;
mod print;

pub use effect::RunEnd;
pub use laws::{
    a_run_that_is_over_stays, each_way_to_go_wrong_is_taken, misuse_goes_wrong, never_wrong,
    steps_add_to_what_was_printed,
};
pub use machine::{Machine, Turn};
