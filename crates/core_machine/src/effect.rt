//! What a step does.

use core_ir::{PointId, SlotId, Value};

/// How a run ended.
#[derive(Clone, Copy, Debug, PartialEq, Eq)]
pub enum RunEnd {
    /// The program was done.
    Done,
}

/// What a step does to a run.
#[derive(Clone, Copy)]
pub(crate) enum Effect {
    /// A slot is given a value, or left without one, and the frame goes on.
    Write {
        /// The slot.
        to: SlotId,
        /// Its value from now on, if it has one.
        value: Option<Value>,
        /// Where the frame goes on.
        next: PointId,
    },
    /// The frame goes on at a point.
    Go {
        /// The point.
        next: PointId,
    },
    /// A value is printed, and the frame goes on.
    Print {
        /// The value.
        value: Value,
        /// Where the frame goes on.
        next: PointId,
    },
    /// The run is over.
    Stop {
        /// How it ended.
        end: RunEnd,
    },
}
