//! The parts of the shape of a term.

use core_ir::{Operand, SlotId};

/// A type, as a shape names it.
#[derive(Clone, Copy)]
pub enum TypeSource {
    /// `int`
    IntType,
    /// `bool`
    BoolType,
    /// The type that an operand has.
    OperandType(Operand),
    /// The type that a slot has, without null.
    NonNullType(SlotId),
}

/// A slot that is stored to.
#[derive(Clone, Copy)]
pub struct Stored {
    /// The slot.
    pub slot: SlotId,
    /// The type of what is stored.
    pub ty: TypeSource,
}

/// Two types of which the one must be a subtype of the other.
#[derive(Clone, Copy)]
pub struct Asked {
    /// The type that is to be a subtype.
    pub found: TypeSource,
    /// The type that is asked for.
    pub expected: TypeSource,
}

/// How what is known of a slot changes.
#[derive(Clone, Copy)]
pub enum How {
    /// It has a fresh cell without a value.
    Fresh,
    /// Its cell has a value of this type.
    Holds(TypeSource),
    /// Its value, which stays, has this type, unless the slot is shared.
    Narrows(TypeSource),
}

/// A change of what is known of one slot.
#[derive(Clone, Copy)]
pub struct Change {
    /// The slot.
    pub slot: SlotId,
    /// What changes.
    pub how: How,
}
