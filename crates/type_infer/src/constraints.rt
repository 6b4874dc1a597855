//! Constraints on type parameters.

ghost use Rattle.std.specs.Prelude.{◌≡◌};
ghost use Rattle.type_infer.specs.Constraints.{opposite, same_side};

use dart_types::{DartType, VarId};

/// How a type parameter, or a formal in which some stand, is to be related to a type.
#[derive(Clone, Copy, Drop)]
pub(crate) enum Side {
    /// It is a supertype.
    AtLeast,
    /// It is a subtype.
    AtMost,
}

/// A type that a type parameter is to be at least, or at most.
#[derive(Drop)]
pub(crate) struct Constraint {
    pub(crate) param: VarId,
    pub(crate) side: Side,
    pub(crate) ty: DartType,
}

impl Side {
    /// The other side.
    pub(crate) fn opposite(self) -> Side
        ensures { result ≡ opposite self }
    {
        match self {
            Side::AtLeast => Side::AtMost,
            Side::AtMost => Side::AtLeast,
        }
    }

    /// Whether both are one side.
    pub(crate) fn is(self, other: Side) -> bool
        ensures { result ≡ same_side self other }
    {
        match self {
            Side::AtLeast => matches!(other, Side::AtLeast),
            Side::AtMost => matches!(other, Side::AtMost),
        }
    }
}
