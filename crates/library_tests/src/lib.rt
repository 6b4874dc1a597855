//! Tests of libraries: of graphs, names and exports by themselves, and from texts of what no reply to a
//! client shows yet, what names mean in a library with imports and which libraries reach each other.
#![tactic(auto)]

#[cfg(test)]
mod elements;
#[cfg(test)]
mod exports;
#[cfg(test)]
mod graphs;
#[cfg(test)]
mod names;
#[cfg(test)]
mod project;
#[cfg(test)]
mod reach;
