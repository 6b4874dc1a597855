//! Depths of classes: the longest ways up to `Object`, and the classes that lie over themselves.
//!
//! A `DeclaredClass` is what a text says of a class: its row without the depth. `settle` finds the depths
//! that the rows of declared classes have over rows below (`specs/Settled.antt`), and `extend_declared`
//! puts these rows over those below, so that no caller gives a depth by hand. Where classes lie over
//! themselves no depths fit, and one of these is named (`specs/Over.antt`). Classes may stand before their
//! supertypes. The work of `settle` is linear in the classes and their direct supertypes, but for a binary
//! search for each; nothing recurses, so that a long chain takes no deep stack. The crate stands on
//! `dart_types`.
#![tactic(auto)]

mod classes;
mod climbing;
mod extending;
mod marks;
mod places;
mod settling;
mod unextended;
mod unsettled;

pub use classes::{DeclaredClass, are_in_order};
pub use extending::extend_declared;
pub use settling::settle;
pub use unextended::Unextended;
pub use unsettled::Unsettled;

#[cfg(test)]
mod tests;
