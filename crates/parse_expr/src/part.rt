//! Parts of nodes, and what is read of them.

use dart_tree::{Block, Expr, Stmt, WrittenType};
use grammar::Setting;

/// What is to be read.
#[derive(Clone, Copy)]
pub enum Part {
    /// A type.
    Written,
    /// A type behind `is` or `as`.
    Tested(Setting),
    /// A type behind `new`.
    Constructed,
    /// A type in front of a name.
    Named,
    /// An expression.
    Expression(Setting),
    /// An operand of the last so many levels of operators.
    Operand(Setting, usize),
    /// An operand of all levels.
    Unary(Setting),
    /// What stands behind `..`.
    Section(Setting),
    /// What stands behind the `$` of a string.
    Simple,
    /// A block.
    Block,
    /// A statement.
    Statement,
}

/// What was read.
#[derive(Drop)]
pub enum Node {
    /// A type.
    Type(WrittenType),
    /// An expression, or a part of one.
    Expr(Expr),
    /// A block.
    Block(Block),
    /// A statement.
    Stmt(Stmt),
}
