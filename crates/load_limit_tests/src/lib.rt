//! Tests of the limits on what is read, over the public calls of `load_files` alone.
#![tactic(auto)]

#[cfg(test)]
mod limits;
