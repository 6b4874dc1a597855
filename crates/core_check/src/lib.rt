//! The check of core programs: which ones are accepted.
//!
//! `specs/Shapes.antt` has one row for each term: the slots that it names, what it reads, stores and asks,
//! and the ways on from it with what changes on them. What is well formed (`specs/WellFormed.antt`) and all
//! clauses (`specs/Accepted.antt`) go over shapes, so a term costs one row there and one arm in `shape_of`,
//! and one in the proof that its parts name no slot but those of the list (`specs/NamedSlots.antt`). A program is accepted where no clause fails at any point; else `accept`
//! tells the least point at which one fails and the first part that does (`specs/Faults.antt`). The crate
//! stands on core programs, on subtyping and on types without null, and doesn't know how a program is made
//! or run.
#![tactic(auto)]

mod acceptance;
mod context;
mod entries;
mod known;
mod laws;
mod merge;
mod misses;
mod parts;
mod points;
mod shapes;
mod terms;
mod types;
mod ways;
mod well_formed;

pub use acceptance::{AcceptRefusal, Accepted, accept};
pub use laws::{
    faults_are_clauses_that_fail, parts_name_the_slots_of_a_shape, put_tells,
    rows_of_no_class_leave_nothing_out,
};
pub use well_formed::is_well_formed;
