//! Tests of sources, sinks, stores and the loop of a server, over their public calls alone.
#![tactic(auto)]

#[cfg(test)]
mod loops;
#[cfg(test)]
mod outside;
