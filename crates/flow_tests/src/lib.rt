//! What flow models of the whole language answer, worked out by hand: the steps of one local in a
//! short notation, and models that meet.
//!
//! The tests stand apart from `flow_model`, so that it isn't proved a second time for them.
#![tactic(auto)]

#[cfg(test)]
mod meeting_tests;
#[cfg(test)]
mod sample;
#[cfg(test)]
mod step_tests;
