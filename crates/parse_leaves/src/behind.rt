//! Whether anything may stand behind an expression, and whether a selector may.

ghost use Rattle.std.specs.Prelude.{◌≡◌, ◌≤◌, true};
ghost use Rattle.dart_tree.specs.Heights.{height};
ghost use Rattle.grammar.specs.Expressions.{reads_on, is_open, is_incremented};

use dart_tree::{Body, BodyNode, Expr, ExprNode};

/// The body of a closure has taken all that can stand behind the closure: one behind `=>` has.
fn body_reads_on(body: &Body) -> bool
    ensures { result ≡ reads_on body.now }
{
    match &body.node {
        BodyNode::Expression { .. } => true,
        _ => false,
    }
}

/// The expression, or its last part, has taken all that can stand behind it.
fn reads_on(expression: &Expr) -> bool
    ensures { result ≡ reads_on expression.now }
{
    match &*expression.node {
        ExprNode::Function { body, .. } => body_reads_on(body),
        ExprNode::Conditional { .. } => true,
        ExprNode::Unary { operand, .. } => reads_on(operand),
        ExprNode::Binary { right, .. } => reads_on(right),
        ExprNode::Assignment { value, .. } => reads_on(value),
        ExprNode::Cascade { section, .. } => reads_on(section),
        _ => false,
    }
}

/// Something may stand behind an expression of this height, where so many nodes may lie below one.
#[tactic(auto, using(crate::specs::Loops::fits_deep, crate::specs::Loops::fits_not))]
pub fn is_open(room: u32, reach: u32, expression: &Expr) -> bool
    requires known { reach ≡ height expression.now }
    ensures open { result ≡ is_open room expression.now }
    ensures within { result ≡ true → reach ≤ room }
{
    if reach > room {
        return false;
    }
    !reads_on(expression)
}

/// The last operand of the expression has a `++` or `--` behind it, where no selector can stand.
pub fn is_incremented(expression: &Expr) -> bool
    ensures { result ≡ is_incremented expression.now }
{
    match &*expression.node {
        ExprNode::Postfix { .. } => true,
        ExprNode::Unary { operand, .. } => is_incremented(operand),
        ExprNode::Binary { right, .. } => is_incremented(right),
        ExprNode::Assignment { value, .. } => is_incremented(value),
        ExprNode::Cascade { section, .. } => is_incremented(section),
        _ => false,
    }
}
