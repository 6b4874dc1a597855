//! Tests of `dart_server`: whole runs of the program over objects in memory. They show what needs
//! files, faults or texts of millions of bytes; sessions that need none are stored beside the
//! program `session`.
#![tactic(auto)]

#[cfg(test)]
mod tests;
