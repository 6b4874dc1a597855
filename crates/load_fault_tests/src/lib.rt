//! Tests of stores that fail and of stores with links, over the public calls of `load_files` alone.
#![tactic(auto)]

#[cfg(test)]
mod faults;
#[cfg(test)]
mod links;
