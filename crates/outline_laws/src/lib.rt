//! All type arguments that can be read are seen by the outline of types.
//!
//! By this outline a parser tells where a `<` opens type arguments, before it reads any: types are gone
//! over by their tokens alone, whatever stands in the groups in them. The contracts of `laws.rt` say,
//! over the definitions of `grammar`, that no type arguments are lost so. The crate has no other code.
#![tactic(auto)]

mod laws;

pub use laws::{more_room_sees_no_less, readable_arguments_are_seen};
