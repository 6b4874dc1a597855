//! Tests of the rules and of elaboration, over texts: diagnostics of texts and of bodies, what is judged
//! of them, what their typed trees say, and the points and runs of their core programs, all worked out
//! by hand.
//!
//! It holds nothing else, so that the check of a library, the judge and elaboration are proved without
//! their tests.
#![tactic(auto)]

#[cfg(test)]
mod libraries;
#[cfg(test)]
mod node_tests;
#[cfg(test)]
mod program_tests;
#[cfg(test)]
mod text_tests;
#[cfg(test)]
mod unit_tests;
