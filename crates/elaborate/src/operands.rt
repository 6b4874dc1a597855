//! Where the values of expressions stand, the tests that need no value, and the steps of operators.

ghost use Rattle.std.specs.Prelude.{◌≡◌};
ghost use Rattle.judgement.specs.Judgement as judgement;
ghost use Rattle.judgement.specs.Literals.{integer_of};
ghost use Rattle.elaborate.specs.Sources as sources;
ghost use Rattle.elaborate.specs.Rows as rows;

use crate::said::Said;
use core_emit::{Step, Test};
use core_ir::{Operand, SlotId, Value};
use dart_tree::{BinaryOperatorKind, Expr, ExprNode};
use flow_model::LocalId;
use judgement::integer_of;

/// Where the value of an expression stands, once its code is done.
pub(crate) fn operand_of(said: &Said, tree: &Expr) -> Operand
    ensures { result ≡ rows.operand_of said.now tree.now }
{
    match &*tree.node {
        ExprNode::Integer { word, .. } => literal_value(said, *word),
        ExprNode::Boolean { value, .. } => Operand::Constant(Value::Boolean(*value)),
        ExprNode::Null { .. } => Operand::Constant(Value::Null),
        ExprNode::Parenthesis { inner, .. } => operand_of(said, inner),
        ExprNode::Assignment { value, .. } => operand_of(said, value),
        ExprNode::Call { .. } => Operand::Constant(Value::Null),
        _ => Operand::Slot(said.slot_at(tree.place())),
    }
}

// The value of an integer literal, in two's complement.
fn literal_value(said: &Said, word: u32) -> Operand
    ensures { result ≡ rows.literal_value said.now word }
{
    let magnitude = integer_at(said, word).unwrap_or(0);
    Operand::Constant(Value::Integer(magnitude.cast_signed()))
}

// The 64 bits of the integer literal that a word is.
fn integer_at(said: &Said, word: u32) -> Option<u64>
    ensures { result ≡ integer_of (sources.lexeme_of said.now word) }
{
    match said.word(word) {
        Some(lexeme) => integer_of(lexeme.as_str().as_bytes()),
        None => integer_of(&[]),
    }
}

// The local that an expression names, in parentheses too.
fn local_named(said: &Said, tree: &Expr) -> Option<LocalId>
    ensures { result ≡ sources.local_named said.now tree.now }
{
    match &*tree.node {
        ExprNode::Identifier { at, .. } => said.local_at(*at),
        ExprNode::Parenthesis { inner, .. } => local_named(said, inner),
        _ => None,
    }
}

// Whether an expression is the literal `null`.
fn is_null_literal(tree: &Expr) -> bool
    ensures { result ≡ judgement.is_null_literal tree.now }
{
    match &*tree.node {
        ExprNode::Null { .. } => true,
        _ => false,
    }
}

// The local that a comparison of these sides compares with the literal `null`.
fn compared_local(said: &Said, left: &Expr, right: &Expr) -> Option<LocalId>
    ensures { result ≡ rows.compared_local said.now left.now right.now }
{
    if is_null_literal(right) {
        return local_named(said, left);
    }
    if is_null_literal(left) {
        return local_named(said, right);
    }
    None
}

/// The test of a condition that is a comparison of a local with `null`, if it is one.
pub(crate) fn test_of_null(said: &Said, tree: &Expr) -> Option<Test>
    ensures { result ≡ rows.test_of_null said.now tree.now }
{
    match &*tree.node {
        ExprNode::Parenthesis { inner, .. } => test_of_null(said, inner),
        ExprNode::Binary {
            operator,
            left,
            right,
            ..
        } => null_test(said, operator.kind, compared_local(said, left, right)),
        _ => None,
    }
}

// The test of an operator that compares this local with `null`, if it is one.
fn null_test(said: &Said, kind: BinaryOperatorKind, compared: Option<LocalId>) -> Option<Test>
    ensures { result ≡ rows.null_test said.now kind compared }
{
    match kind {
        BinaryOperatorKind::NotEqual => match compared {
            Some(var) => Some(Test::OnNotNull {
                slot: said.slot_of_local(var),
            }),
            None => None,
        },
        _ => None,
    }
}

/// The step of an operator, so far `+`, `<` and `!=`.
pub(crate) fn operator_step(
    kind: BinaryOperatorKind,
    to: SlotId,
    left: Operand,
    right: Operand,
) -> Option<Step>
    ensures { result ≡ rows.operator_step kind to left right }
{
    match kind {
        BinaryOperatorKind::Add => Some(Step::Add { to, left, right }),
        BinaryOperatorKind::Less => Some(Step::Less { to, left, right }),
        BinaryOperatorKind::NotEqual => Some(Step::NotEqual { to, left, right }),
        _ => None,
    }
}
