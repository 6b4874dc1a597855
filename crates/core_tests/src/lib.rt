//! Tests of what the crates of core programs do together: programs that are accepted and run, and the
//! others with what they are refused for.
//!
//! It holds nothing else, so that those crates are proved without their tests.
#![tactic(auto)]

#[cfg(test)]
mod core_tests;
