//! Operators as they are written.

use crate::places::{Place, Span};

/// What an operator between two operands is.
#[derive(Clone, Copy, Debug, PartialEq, Eq)]
pub enum BinaryOperatorKind {
    /// `*`
    Multiply,
    /// `/`
    Divide,
    /// `~/`
    TruncatingDivide,
    /// `%`
    Modulo,
    /// `+`
    Add,
    /// `-`
    Subtract,
    /// `<<`
    ShiftLeft,
    /// `>>`
    ShiftRight,
    /// `&`
    BitAnd,
    /// `^`
    BitXor,
    /// `|`
    BitOr,
    /// `<`
    Less,
    /// `>`
    Greater,
    /// `<=`
    LessOrEqual,
    /// `>=`
    GreaterOrEqual,
    /// `==`
    Equal,
    /// `!=`
    NotEqual,
    /// `&&`
    And,
    /// `||`
    Or,
    /// `??`
    IfNull,
}

/// An operator between two operands. It is no node of its own.
#[derive(Clone, Copy, Debug, PartialEq, Eq)]
pub struct BinaryOperator {
    /// What it is.
    pub kind: BinaryOperatorKind,
    /// The range of its lexemes.
    pub span: Span,
}

/// What an operator before its operand is.
#[derive(Clone, Copy, Debug, PartialEq, Eq)]
pub enum UnaryOperatorKind {
    /// `-`
    Negate,
    /// `!`
    Not,
    /// `~`
    Complement,
    /// `++`
    Increment,
    /// `--`
    Decrement,
}

/// An operator before its operand. It is no node of its own.
#[derive(Clone, Copy, Debug, PartialEq, Eq)]
pub struct UnaryOperator {
    /// What it is.
    pub kind: UnaryOperatorKind,
    /// The range of its lexeme.
    pub span: Span,
}

/// What an operator behind its operand is.
#[derive(Clone, Copy, Debug, PartialEq, Eq)]
pub enum PostfixOperatorKind {
    /// `++`
    Increment,
    /// `--`
    Decrement,
}

/// An operator behind its operand. It is no node of its own.
#[derive(Clone, Copy, Debug, PartialEq, Eq)]
pub struct PostfixOperator {
    /// What it is.
    pub kind: PostfixOperatorKind,
    /// The range of its lexeme.
    pub span: Span,
}

/// `=`, or an operator with `=` as `+=`. It is no node of its own.
#[derive(Clone, Copy, Debug, PartialEq, Eq)]
pub struct AssignmentOperator {
    /// The operator that stands before the `=`; None for `=` alone.
    pub compound: Option<BinaryOperatorKind>,
    /// The range of its lexemes.
    pub span: Span,
}

/// An operator that a class may declare.
#[derive(Clone, Copy, Debug, PartialEq, Eq)]
pub enum DeclaredOperator {
    /// `+`
    Plus,
    /// `-`, between operands or before one
    Minus,
    /// `*`
    Star,
    /// `/`
    Slash,
    /// `~/`
    TildeSlash,
    /// `%`
    Percent,
    /// `<<`
    ShiftLeft,
    /// `>>`
    ShiftRight,
    /// `&`
    Ampersand,
    /// `^`
    Caret,
    /// `|`
    Bar,
    /// `~`
    Tilde,
    /// `<`
    Less,
    /// `<=`
    LessOrEqual,
    /// `>`
    Greater,
    /// `>=`
    GreaterOrEqual,
    /// `==`
    Equal,
    /// `[]`
    Index,
    /// `[]=`
    IndexAssign,
}

/// An operator as the name of a member.
#[derive(Clone, Copy, Debug, PartialEq, Eq)]
pub struct OperatorName {
    /// Its number, and the range of its lexemes.
    pub at: Place,
    /// What it is.
    pub operator: DeclaredOperator,
}
