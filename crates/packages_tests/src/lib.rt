//! Tests of packages files, over the public calls of `packages_file` alone.
#![tactic(auto)]

#[cfg(test)]
mod packages;
#[cfg(test)]
mod stores;
