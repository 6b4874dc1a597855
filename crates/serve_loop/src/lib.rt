//! The loop of a server: each line of a source is answered to a sink before the next is read.
//!
//! What answers a line is a trait, `Answerer`, whose meaning is a state, a reply and a next state.
//! `serve` states in `specs/Served.antt` what stands written at each end: all replies, those to the
//! lines that were taken, or some first ones and a part of the next. The crate stands on
//! `fault_io`, and knows no Dart and no JSON.
#![tactic(auto)]

mod answerer;
mod end;
mod heard;
mod laws;
mod turns;

pub use answerer::Answerer;
pub use end::ServeEnd;
pub use heard::Heard;
pub use laws::lines_law;
pub use turns::serve;
