//! Core programs: what a program is when it is run.
//!
//! A `CoreProgram` is a list of functions and one of points. A point has one term, which names the
//! points that may come next, and what is known there of the slots of its function: one that isn't listed
//! has no value, and its declared type (`specs/PointFacts.antt`). Contracts see a program as its value, the
//! `Program` of `specs/Program.antt`, so that programs with equal parts are equal. What a program may
//! hold is checked by a crate above, and what its terms do is said there too. The crate stands on
//! `dart_types`.
#![tactic(auto)]

mod facts;
mod laws;
mod pages;
mod points;
mod program;
mod values;

pub use facts::{Facts, Held, Known, SharedFact, SlotFact};
pub use laws::{put_keeps, put_keeps_order, put_lists_in_order};
pub use pages::Pages;
pub use points::{FunctionId, Operand, Point, PointId, SlotId, Span, Term};
pub use program::{CoreFunction, CoreProgram};
pub use values::Value;
