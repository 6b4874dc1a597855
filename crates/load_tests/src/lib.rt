//! Tests of snapshots of stores in memory, over the public calls of `load_files` alone.
#![tactic(auto)]

#[cfg(test)]
mod snapshots;
