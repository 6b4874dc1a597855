//! What operators take and give.

use dart_types::DartType;

/// An operator of a class.
#[derive(Drop)]
pub struct Operation {
    /// The type of what it takes on its right.
    pub parameter: DartType,
    /// The type of what it gives.
    pub result: DartType,
}
