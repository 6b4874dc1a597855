//! Operators, as they are written.

use dart_tree::{BinaryOperatorKind, PostfixOperatorKind, UnaryOperatorKind};

/// An operator between two operands.
pub fn binary(operator: BinaryOperatorKind) -> &'static str {
    match operator {
        BinaryOperatorKind::Multiply => "*",
        BinaryOperatorKind::Divide => "/",
        BinaryOperatorKind::TruncatingDivide => "~/",
        BinaryOperatorKind::Modulo => "%",
        BinaryOperatorKind::Add => "+",
        BinaryOperatorKind::Subtract => "-",
        BinaryOperatorKind::ShiftLeft => "<<",
        BinaryOperatorKind::ShiftRight => ">>",
        BinaryOperatorKind::BitAnd => "&",
        BinaryOperatorKind::BitXor => "^",
        BinaryOperatorKind::BitOr => "|",
        BinaryOperatorKind::Less => "<",
        BinaryOperatorKind::Greater => ">",
        BinaryOperatorKind::LessOrEqual => "<=",
        BinaryOperatorKind::GreaterOrEqual => ">=",
        BinaryOperatorKind::Equal => "==",
        BinaryOperatorKind::NotEqual => "!=",
        BinaryOperatorKind::And => "&&",
        BinaryOperatorKind::Or => "||",
        BinaryOperatorKind::IfNull => "??",
    }
}

/// An operator before its operand.
pub fn unary(operator: UnaryOperatorKind) -> &'static str {
    match operator {
        UnaryOperatorKind::Negate => "-",
        UnaryOperatorKind::Not => "!",
        UnaryOperatorKind::Complement => "~",
        UnaryOperatorKind::Increment => "++",
        UnaryOperatorKind::Decrement => "--",
    }
}

/// An operator behind its operand.
pub fn postfix(operator: PostfixOperatorKind) -> &'static str {
    match operator {
        PostfixOperatorKind::Increment => "++",
        PostfixOperatorKind::Decrement => "--",
    }
}
