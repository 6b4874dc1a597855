//! Operators by how they bind, and where an expression stands.

use dart_tree::BinaryOperatorKind;

/// The levels of what may stand behind an operand, from the one that binds least on.
#[derive(Clone, Copy, Debug, PartialEq, Eq)]
pub enum Level {
    /// `? :`
    Conditional,
    /// `??`
    IfNull,
    /// `||`
    Or,
    /// `&&`
    And,
    /// `==`, `!=`
    Equality,
    /// `<`, `>`, `<=`, `>=`, `is`, `as`
    Relation,
    /// `|`
    BitOr,
    /// `^`
    BitXor,
    /// `&`
    BitAnd,
    /// `<<`, `>>`
    Shift,
    /// `+`, `-`
    Sum,
    /// `*`, `/`, `~/`, `%`
    Product,
}

/// What an operator behind an operand is.
#[derive(Clone, Copy, Debug, PartialEq, Eq)]
pub enum Sign {
    /// An operator between two operands.
    Binary(BinaryOperatorKind),
    /// `=`, or an operator with `=`.
    Assign(Option<BinaryOperatorKind>),
}

/// Where an expression stands, outside all brackets in it.
#[derive(Clone, Copy, Debug, PartialEq, Eq)]
pub enum Setting {
    /// Nowhere of those below.
    Plain,
    /// In a list of expressions with commas between them.
    Listed,
    /// In the initializer list of a constructor, where the constructor's body may come next.
    Initializer,
    /// In the default value of a parameter, where optional parameters may come next.
    Default,
}
