//! What is asked of the library of a file.

/// What is asked of a library.
#[derive(Clone, Copy, Debug, PartialEq, Eq)]
pub enum Task {
    /// That what is wrong with it and with the libraries that it reaches is printed.
    Check,
    /// That its program is run, where nothing is wrong with these.
    Run {
        /// For at most so many steps.
        steps: u64,
    },
}
