//! Expressions: `(OPERATOR PART ..)`, where names and marks stand as they are written.

use crate::literals::{arguments_of, literal};
use crate::operators::{binary, postfix, unary};
use crate::pieces::Pieces;
use crate::types::optional_type_arguments;
use dart_tree::{Expr, ExprNode};
use std::alloc::AllocError;

/// Writes an expression.
pub fn expression<'t>(out: &mut Pieces<'t>, expr: &'t Expr) -> Result<(), AllocError> {
    match &*expr.node {
        ExprNode::Integer { word, .. } => out.word(*word),
        ExprNode::Boolean { value, .. } => out.text(if *value { "true" } else { "false" }),
        ExprNode::Null { .. } => out.text("null"),
        ExprNode::This { .. } => out.text("this"),
        ExprNode::Super { .. } => out.text("super"),
        ExprNode::Identifier { word, .. } => out.word(*word),
        ExprNode::Parenthesis { inner, .. } => one(out, "parenthesis", inner),
        other => operated(out, other),
    }
}

/// Writes an expression with an operator, or one of the forms that are left.
fn operated<'t>(out: &mut Pieces<'t>, node: &'t ExprNode) -> Result<(), AllocError> {
    match node {
        ExprNode::Unary { .. } => prefixed(out, node),
        ExprNode::Postfix { .. } => postfixed(out, node),
        ExprNode::Binary { .. } => between(out, node),
        ExprNode::TypeTest { .. } => type_test(out, node),
        ExprNode::TypeCast { .. } => type_cast(out, node),
        ExprNode::Conditional { .. } => conditional(out, node),
        ExprNode::Assignment { .. } => assignment(out, node),
        ExprNode::Throw { value, .. } => one(out, "throw", value),
        other => selected(out, other),
    }
}

/// Writes a selector or a cascade over what stands before it, or one of the forms that are left.
fn selected<'t>(out: &mut Pieces<'t>, node: &'t ExprNode) -> Result<(), AllocError> {
    match node {
        ExprNode::Property { .. } => property(out, node),
        ExprNode::Index { .. } => index(out, node),
        ExprNode::NullCheck { operand, .. } => one(out, "check", operand),
        ExprNode::Call { .. } => call(out, node),
        ExprNode::Cascade { .. } => cascade(out, node),
        ExprNode::CascadedName { name, .. } => {
            out.text(".")?;
            out.word(name.word)
        }
        ExprNode::CascadedIndex { index, .. } => one(out, "[]", index),
        other => literal(out, other),
    }
}

/// Writes a form with one part.
fn one<'t>(out: &mut Pieces<'t>, head: &'static str, part: &'t Expr) -> Result<(), AllocError> {
    out.text("(")?;
    out.text(head)?;
    out.spaced_expression(part)?;
    out.text(")")
}

/// Writes a form with two parts.
fn two<'t>(
    out: &mut Pieces<'t>,
    head: &'static str,
    left: &'t Expr,
    right: &'t Expr,
) -> Result<(), AllocError> {
    out.text("(")?;
    out.text(head)?;
    out.spaced_expression(left)?;
    out.spaced_expression(right)?;
    out.text(")")
}

/// Writes an operator and its operand.
fn prefixed<'t>(out: &mut Pieces<'t>, node: &'t ExprNode) -> Result<(), AllocError> {
    let ExprNode::Unary {
        operator,
        operand,
        ..
    } = node
    else {
        return Ok(());
    };
    one(out, unary(operator.kind), operand)
}

/// Writes an operand and the operator behind it.
fn postfixed<'t>(out: &mut Pieces<'t>, node: &'t ExprNode) -> Result<(), AllocError> {
    let ExprNode::Postfix {
        operator,
        operand,
        ..
    } = node
    else {
        return Ok(());
    };
    out.text("(")?;
    out.expression(operand)?;
    out.text(" ")?;
    out.text(postfix(operator.kind))?;
    out.text(")")
}

/// Writes an operator between two operands.
fn between<'t>(out: &mut Pieces<'t>, node: &'t ExprNode) -> Result<(), AllocError> {
    let ExprNode::Binary {
        operator,
        left,
        right,
        ..
    } = node
    else {
        return Ok(());
    };
    two(out, binary(operator.kind), left, right)
}

/// Writes the test of a type.
fn type_test<'t>(out: &mut Pieces<'t>, node: &'t ExprNode) -> Result<(), AllocError> {
    let ExprNode::TypeTest {
        operand,
        negated,
        written,
        ..
    } = node
    else {
        return Ok(());
    };
    out.text(if *negated { "(is!" } else { "(is" })?;
    out.spaced_expression(operand)?;
    out.text(" ")?;
    out.written(written)?;
    out.text(")")
}

/// Writes a cast.
fn type_cast<'t>(out: &mut Pieces<'t>, node: &'t ExprNode) -> Result<(), AllocError> {
    let ExprNode::TypeCast {
        operand,
        written,
        ..
    } = node
    else {
        return Ok(());
    };
    out.text("(as")?;
    out.spaced_expression(operand)?;
    out.text(" ")?;
    out.written(written)?;
    out.text(")")
}

/// Writes a conditional.
fn conditional<'t>(out: &mut Pieces<'t>, node: &'t ExprNode) -> Result<(), AllocError> {
    let ExprNode::Conditional {
        condition,
        then_value,
        else_value,
        ..
    } = node
    else {
        return Ok(());
    };
    out.text("(?")?;
    out.spaced_expression(condition)?;
    out.spaced_expression(then_value)?;
    out.spaced_expression(else_value)?;
    out.text(")")
}

/// Writes an assignment, plain or with an operator.
fn assignment<'t>(out: &mut Pieces<'t>, node: &'t ExprNode) -> Result<(), AllocError> {
    let ExprNode::Assignment {
        operator,
        target,
        value,
        ..
    } = node
    else {
        return Ok(());
    };
    out.text("(")?;
    if let Some(compound) = operator.compound {
        out.text(binary(compound))?;
    }
    out.text("=")?;
    out.spaced_expression(target)?;
    out.spaced_expression(value)?;
    out.text(")")
}

/// Writes a member of a receiver.
fn property<'t>(out: &mut Pieces<'t>, node: &'t ExprNode) -> Result<(), AllocError> {
    let ExprNode::Property {
        receiver,
        null_aware,
        name,
        ..
    } = node
    else {
        return Ok(());
    };
    out.text(if *null_aware { "(?." } else { "(." })?;
    out.spaced_expression(receiver)?;
    out.spaced_word(name.word)?;
    out.text(")")
}

/// Writes an element of a receiver.
fn index<'t>(out: &mut Pieces<'t>, node: &'t ExprNode) -> Result<(), AllocError> {
    let ExprNode::Index {
        receiver,
        null_aware,
        index,
        ..
    } = node
    else {
        return Ok(());
    };
    two(out, if *null_aware { "?[]" } else { "[]" }, receiver, index)
}

/// Writes a call.
fn call<'t>(out: &mut Pieces<'t>, node: &'t ExprNode) -> Result<(), AllocError> {
    let ExprNode::Call {
        callee,
        type_arguments,
        arguments,
        ..
    } = node
    else {
        return Ok(());
    };
    out.text("(call")?;
    out.spaced_expression(callee)?;
    optional_type_arguments(out, type_arguments)?;
    arguments_of(out, arguments)?;
    out.text(")")
}

/// Writes a section of a cascade over what stands before it.
fn cascade<'t>(out: &mut Pieces<'t>, node: &'t ExprNode) -> Result<(), AllocError> {
    let ExprNode::Cascade {
        receiver,
        null_aware,
        section,
        ..
    } = node
    else {
        return Ok(());
    };
    two(
        out,
        if *null_aware { "?.." } else { ".." },
        receiver,
        section,
    )
}
