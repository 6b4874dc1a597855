//! The terms of code, but for the points that they lead to.

ghost use Rattle.std.specs.Prelude.{◌≡◌};
ghost use Rattle.core_emit.specs.Code.{step_to, test_to};

use core_ir::{Operand, PointId, SlotId, Term};

/// A term with one way on, but for the point that it leads to.
#[derive(Clone, Copy, Debug, PartialEq, Eq)]
pub enum Step {
    /// Writes a value into the cell that a slot has.
    Store {
        /// The slot that is written.
        to: SlotId,
        /// The value.
        from: Operand,
    },
    /// Gives a slot a fresh cell without a value.
    Declare {
        /// The slot of the local.
        slot: SlotId,
    },
    /// Gives a slot a fresh cell that holds a value.
    Initialize {
        /// The slot of the local.
        slot: SlotId,
        /// The value of the initializer.
        from: Operand,
    },
    /// Writes the sum of two integers into a slot.
    Add {
        /// The slot that is written.
        to: SlotId,
        /// The left summand.
        left: Operand,
        /// The right summand.
        right: Operand,
    },
    /// Writes into a slot whether one integer is less than another.
    Less {
        /// The slot that is written.
        to: SlotId,
        /// The integer that is to be less.
        left: Operand,
        /// The integer that is to be greater.
        right: Operand,
    },
    /// Writes into a slot whether two values differ.
    NotEqual {
        /// The slot that is written.
        to: SlotId,
        /// The left value.
        left: Operand,
        /// The right value.
        right: Operand,
    },
    /// Prints a value.
    Output {
        /// The value.
        from: Operand,
    },
    /// Goes on.
    GoOn,
}

/// A term with two ways on, but for the points that they lead to: the first is that of a condition that
/// holds.
#[derive(Clone, Copy, Debug, PartialEq, Eq)]
pub enum Test {
    /// Whether a bool is true.
    OnTruth {
        /// The bool.
        on: Operand,
    },
    /// Whether the value of a slot is another than null.
    OnNotNull {
        /// The slot.
        slot: SlotId,
    },
}

impl Step {
    /// The term that goes on at a point.
    pub fn to(self, next: PointId) -> Term
        ensures { result ≡ step_to self next }
    {
        match self {
            Step::Store { to, from } => Term::Store { to, from, next },
            Step::Declare { slot } => Term::Declare { slot, next },
            Step::Initialize { slot, from } => Term::Initialize { slot, from, next },
            Step::Add { to, left, right } => Term::Add {
                to,
                left,
                right,
                next,
            },
            Step::Less { to, left, right } => Term::Less {
                to,
                left,
                right,
                next,
            },
            Step::NotEqual { to, left, right } => Term::NotEqual {
                to,
                left,
                right,
                next,
            },
            Step::Output { from } => Term::Output { from, next },
            Step::GoOn => Term::Goto { next },
        }
    }
}

impl Test {
    /// The term that goes on at the first point where the test holds, and at the second where it doesn't.
    pub fn to(self, first: PointId, second: PointId) -> Term
        ensures { result ≡ test_to self first second }
    {
        match self {
            Test::OnTruth { on } => Term::Branch {
                on,
                when_true: first,
                when_false: second,
            },
            Test::OnNotNull { slot } => Term::TestNull {
                slot,
                null: second,
                other: first,
            },
        }
    }
}
