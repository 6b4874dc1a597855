//! Emission: code, the points that it is made into, and that they are fine where each part of the code
//! leads from what is known before it to what is known behind it.
//!
//! Code (`specs/Code.antt`) is terms one after another, choices and loops, with what is known before each
//! term and without numbers of points. `emit` makes its points from the end to the start
//! (`specs/Emitted.antt`), so that each point names points that there are, but for the head of a loop.
//! Three laws are all that a form of the language needs of it: code that passes is made into fine points,
//! code that names what its function has into well-formed ones, and into as many as it has. The crate
//! stands on core programs and on their acceptance.
#![tactic(auto)]

mod code;
mod emission;
mod laws;
mod steps;

pub use code::Code;
pub use emission::{add_point, emit};
pub use laws::{code_has_its_points, points_of_code_are_fine, points_of_code_are_well_formed};
pub use steps::{Step, Test};
