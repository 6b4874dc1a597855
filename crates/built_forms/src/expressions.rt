//! Expressions of the forms that are built.

ghost use Rattle.std.specs.Prelude.{◌≡◌};
ghost use Rattle.dart_tree.specs.Tree.{trees_of};
ghost use Rattle.built_forms.specs.Forms.{is_free, is_print, is_operator, is_value, is_target, is_printer, is_argument, is_one_argument, are_arguments, is_effect};

use crate::meaning::meaning_at;
use dart_tree::{Argument, ArgumentList, BinaryOperatorKind, Expr, ExprNode};
use judgement::Meaning;

/// Whether a name that means this outside of the body means nothing there: it is one of a local.
pub(crate) fn is_free(meaning: Meaning) -> bool
    ensures { result ≡ is_free meaning }
{
    match meaning {
        Meaning::Nothing => true,
        Meaning::Local(_) => false,
        Meaning::Print => false,
        Meaning::Class(_) => false,
        Meaning::Other => false,
    }
}

/// Whether a name that means this is `print` of dart:core.
fn is_print(meaning: Meaning) -> bool
    ensures { result ≡ is_print meaning }
{
    match meaning {
        Meaning::Print => true,
        Meaning::Nothing => false,
        Meaning::Local(_) => false,
        Meaning::Class(_) => false,
        Meaning::Other => false,
    }
}

/// `+`, `<` and `!=`.
fn is_operator(kind: BinaryOperatorKind) -> bool
    ensures { result ≡ is_operator kind }
{
    match kind {
        BinaryOperatorKind::Add => true,
        BinaryOperatorKind::Less => true,
        BinaryOperatorKind::NotEqual => true,
        BinaryOperatorKind::Multiply => false,
        BinaryOperatorKind::Divide => false,
        BinaryOperatorKind::TruncatingDivide => false,
        BinaryOperatorKind::Modulo => false,
        BinaryOperatorKind::Subtract => false,
        BinaryOperatorKind::ShiftLeft => false,
        BinaryOperatorKind::ShiftRight => false,
        BinaryOperatorKind::BitAnd => false,
        BinaryOperatorKind::BitXor => false,
        BinaryOperatorKind::BitOr => false,
        BinaryOperatorKind::Greater => false,
        BinaryOperatorKind::LessOrEqual => false,
        BinaryOperatorKind::GreaterOrEqual => false,
        BinaryOperatorKind::Equal => false,
        BinaryOperatorKind::And => false,
        BinaryOperatorKind::Or => false,
        BinaryOperatorKind::IfNull => false,
    }
}

/// Whether an expression that has a value is built.
pub(crate) fn is_value(outside: &[Meaning], value: &Expr) -> bool
    ensures { result ≡ is_value outside.now value.now }
{
    match &*value.node {
        ExprNode::Identifier { word, .. } => is_free(meaning_at(outside, *word)),
        ExprNode::Integer { .. } => true,
        ExprNode::Boolean { .. } => true,
        ExprNode::Null { .. } => true,
        ExprNode::Parenthesis { inner, .. } => is_value(outside, inner),
        ExprNode::Binary {
            operator,
            left,
            right,
            ..
        } => is_operator(operator.kind) && is_value(outside, left) && is_value(outside, right),
        _ => false,
    }
}

/// Whether an expression is the name of a local.
fn is_target(outside: &[Meaning], target: &Expr) -> bool
    ensures { result ≡ is_target outside.now target.now }
{
    match &*target.node {
        ExprNode::Identifier { word, .. } => is_free(meaning_at(outside, *word)),
        _ => false,
    }
}

/// Whether an expression is the name `print`.
fn is_printer(outside: &[Meaning], callee: &Expr) -> bool
    ensures { result ≡ is_printer outside.now callee.now }
{
    match &*callee.node {
        ExprNode::Identifier { word, .. } => is_print(meaning_at(outside, *word)),
        _ => false,
    }
}

/// Whether an argument is a value without a name.
fn is_argument(outside: &[Meaning], argument: &Argument) -> bool
    ensures { result ≡ is_argument outside.now argument.now }
{
    argument.name.is_none() && is_value(outside, &argument.value)
}

/// Whether these are one argument.
fn is_one_argument(outside: &[Meaning], arguments: &[Argument]) -> bool
    ensures { result ≡ is_one_argument outside.now (trees_of arguments.now) }
{
    arguments.len() == 1 && is_argument(outside, &arguments[0])
}

/// Whether there is one argument between parentheses.
fn are_arguments(outside: &[Meaning], list: &ArgumentList) -> bool
    ensures { result ≡ are_arguments outside.now list.now }
{
    is_one_argument(outside, &list.node.arguments)
}

/// Whether an expression that stands as a statement is built.
pub(crate) fn is_effect(outside: &[Meaning], effect: &Expr) -> bool
    ensures { result ≡ is_effect outside.now effect.now }
{
    match &*effect.node {
        ExprNode::Assignment {
            operator,
            target,
            value,
            ..
        } => operator.compound.is_none() && is_target(outside, target) && is_value(outside, value),
        ExprNode::Call {
            callee,
            type_arguments,
            arguments,
            ..
        } => {
            type_arguments.is_none()
                && is_printer(outside, callee)
                && are_arguments(outside, arguments)
        }
        _ => is_value(outside, effect),
    }
}
