//! Points and their terms.

use crate::facts::Facts;
use crate::values::Value;

/// A function, by its place in the program's list of functions, from 0.
#[derive(Clone, Copy, Debug, PartialEq, Eq)]
pub struct FunctionId(pub u32);

/// A slot, by its place in the list of slots of its function, from 0. A slot is a local or a temporary.
#[derive(Clone, Copy, Debug, PartialEq, Eq)]
pub struct SlotId(pub u32);

/// A point, by its place in the program's list of points, from 0.
#[derive(Clone, Copy, Debug, PartialEq, Eq)]
pub struct PointId(pub u32);

/// A part of a text, in UTF-16 code units: from `start` to just before `end`.
#[derive(Clone, Copy, Debug, PartialEq, Eq)]
pub struct Span {
    /// Where it begins.
    pub start: u32,
    /// Where it ends.
    pub end: u32,
}

/// Where a term takes a value from.
#[derive(Clone, Copy, Debug, PartialEq, Eq)]
pub enum Operand {
    /// The value that the slot has.
    Slot(SlotId),
    /// This value.
    Constant(Value),
}

/// What is done at a point. A term names the points that come next by `next`, or by a name for
/// each way that it may go.
#[derive(Clone, Copy, Debug, PartialEq, Eq)]
pub enum Term {
    /// Writes a value into the cell that a slot has: a local is assigned, or a temporary.
    Store {
        /// The slot that is written.
        to: SlotId,
        /// The value.
        from: Operand,
        /// The point after it.
        next: PointId,
    },
    /// Gives a slot a fresh cell without a value: a local is declared without an initializer.
    Declare {
        /// The slot of the local.
        slot: SlotId,
        /// The point after it.
        next: PointId,
    },
    /// Gives a slot a fresh cell that holds a value: a local is declared with an initializer.
    Initialize {
        /// The slot of the local.
        slot: SlotId,
        /// The value of the initializer.
        from: Operand,
        /// The point after it.
        next: PointId,
    },
    /// Writes the sum of two integers, which wraps around in 64 bits, into a slot.
    Add {
        /// The slot that is written.
        to: SlotId,
        /// The left summand, whose operator it is.
        left: Operand,
        /// The right summand.
        right: Operand,
        /// The point after it.
        next: PointId,
    },
    /// Writes into a slot whether one integer is less than another.
    Less {
        /// The slot that is written.
        to: SlotId,
        /// The integer that is to be less, whose operator it is.
        left: Operand,
        /// The integer that is to be greater.
        right: Operand,
        /// The point after it.
        next: PointId,
    },
    /// Writes into a slot whether two values of any types differ.
    NotEqual {
        /// The slot that is written.
        to: SlotId,
        /// The left value.
        left: Operand,
        /// The right value.
        right: Operand,
        /// The point after it.
        next: PointId,
    },
    /// Goes one of two ways, by a bool.
    Branch {
        /// The bool.
        on: Operand,
        /// The point after `true`.
        when_true: PointId,
        /// The point after `false`.
        when_false: PointId,
    },
    /// Goes one of two ways, by whether the value of a slot is null. On the way after any other value
    /// the slot is known not to be null.
    TestNull {
        /// The slot.
        slot: SlotId,
        /// The point after null.
        null: PointId,
        /// The point after any other value.
        other: PointId,
    },
    /// Goes on: the entry of a function, and the head of a loop, to which each pass comes back.
    Goto {
        /// The point after it.
        next: PointId,
    },
    /// Prints a value.
    Output {
        /// The value.
        from: Operand,
        /// The point after it.
        next: PointId,
    },
    /// Ends the program.
    End,
}

/// A point of a program.
#[derive(Drop)]
pub struct Point {
    /// The function that it is of.
    pub function: FunctionId,
    /// The part of the source that the point is made from; None where it is made from none.
    pub site: Option<Span>,
    /// What is known here of the slots of its function.
    pub facts: Facts,
    /// What is done here.
    pub term: Term,
}
