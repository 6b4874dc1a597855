//! The errors in expressions and their parts.

ghost use Rattle.std.specs.Prelude.{◌≡◌, ◌++◌, OnOk};
ghost use Rattle.dart_tree.specs.Tree.{trees_of, part_of};
ghost use Rattle.error_nodes.specs.Errors.{errors_of, errors_of_all, errors_of_part};

use crate::functions::{add_from_body, add_from_parameter_list};
use crate::types::{
    add_from_optional_type_arguments, add_from_type_arguments, add_from_written_type,
};
use dart_tree::{
    Argument, ArgumentList, Expr, ExprNode, MapEntry, Place, StringElement, StringElementNode,
    StringLiteral, StringLiteralNode,
};
use std::alloc::AllocError;

/// Adds the errors in an expression.
#[cycle(parts)]
pub(crate) fn add_from_expr(expr: &Expr, errors: &mut Vec<Place>) -> Result<(), AllocError>
    ensures { OnOk result (errors.new.items ≡ errors.old.items ++ errors_of expr.now) }
{
    match &*expr.node {
        ExprNode::Integer { .. } => return Ok(()),
        ExprNode::Text { strings, .. } => return add_from_strings(strings.as_slice(), errors),
        ExprNode::Boolean { .. } => return Ok(()),
        ExprNode::Null { .. } => return Ok(()),
        ExprNode::This { .. } => return Ok(()),
        ExprNode::Super { .. } => return Ok(()),
        ExprNode::Identifier { .. } => return Ok(()),
        ExprNode::Parenthesis { inner, .. } => return add_from_expr(inner, errors),
        ExprNode::New {
            written,
            arguments,
            ..
        } => {
            add_from_written_type(written, errors)?;
            return add_from_argument_list(arguments, errors);
        }
        ExprNode::List {
            type_arguments,
            elements,
            ..
        } => {
            add_from_optional_type_arguments(type_arguments, errors)?;
            return add_from_exprs(elements.as_slice(), errors);
        }
        ExprNode::SetOrMap {
            type_arguments,
            entries,
            ..
        } => {
            add_from_optional_type_arguments(type_arguments, errors)?;
            return add_from_entries(entries.as_slice(), errors);
        }
        ExprNode::Function {
            parameters,
            body,
            ..
        } => {
            add_from_parameter_list(parameters, errors)?;
            return add_from_body(body, errors);
        }
        ExprNode::GenericIdentifier { type_arguments, .. } => return add_from_type_arguments(
            type_arguments,
            errors,
        ),
        ExprNode::Property { receiver, .. } => return add_from_expr(receiver, errors),
        ExprNode::Index {
            receiver,
            index,
            ..
        } => {
            add_from_expr(receiver, errors)?;
            return add_from_expr(index, errors);
        }
        ExprNode::NullCheck { operand, .. } => return add_from_expr(operand, errors),
        ExprNode::Call {
            callee,
            type_arguments,
            arguments,
            ..
        } => {
            add_from_expr(callee, errors)?;
            add_from_optional_type_arguments(type_arguments, errors)?;
            return add_from_argument_list(arguments, errors);
        }
        ExprNode::Unary { operand, .. } => return add_from_expr(operand, errors),
        ExprNode::Postfix { operand, .. } => return add_from_expr(operand, errors),
        ExprNode::Binary { left, right, .. } => {
            add_from_expr(left, errors)?;
            return add_from_expr(right, errors);
        }
        ExprNode::TypeTest {
            operand,
            written,
            ..
        } => {
            add_from_expr(operand, errors)?;
            return add_from_written_type(written, errors);
        }
        ExprNode::TypeCast {
            operand,
            written,
            ..
        } => {
            add_from_expr(operand, errors)?;
            return add_from_written_type(written, errors);
        }
        ExprNode::Conditional {
            condition,
            then_value,
            else_value,
            ..
        } => {
            add_from_expr(condition, errors)?;
            add_from_expr(then_value, errors)?;
            return add_from_expr(else_value, errors);
        }
        ExprNode::Assignment { target, value, .. } => {
            add_from_expr(target, errors)?;
            return add_from_expr(value, errors);
        }
        ExprNode::Throw { value, .. } => return add_from_expr(value, errors),
        ExprNode::Cascade {
            receiver,
            section,
            ..
        } => {
            add_from_expr(receiver, errors)?;
            return add_from_expr(section, errors);
        }
        ExprNode::CascadedName { .. } => return Ok(()),
        ExprNode::CascadedIndex { index, .. } => return add_from_expr(index, errors),
    }
}

/// Adds the errors in expressions, one after the other.
#[cycle(parts)]
pub(crate) fn add_from_exprs(exprs: &[Expr], errors: &mut Vec<Place>) -> Result<(), AllocError>
    ensures { OnOk result (errors.new.items ≡ errors.old.items ++ errors_of_all (trees_of exprs.now)) }
{
    for item in exprs {
        add_from_expr(item, errors)?;
    }
    Ok(())
}

/// Adds those in one that may be left out.
#[cycle(parts)]
pub(crate) fn add_from_optional_expr(
    expr: &Option<Expr>,
    errors: &mut Vec<Place>,
) -> Result<(), AllocError>
    ensures { OnOk result (errors.new.items ≡ errors.old.items ++ errors_of_part (part_of expr.now)) }
{
    match expr {
        None => Ok(()),
        Some(tree) => add_from_expr(tree, errors),
    }
}

/// Adds the errors in a string.
#[cycle(parts)]
pub(crate) fn add_from_string(
    string: &StringLiteral,
    errors: &mut Vec<Place>,
) -> Result<(), AllocError>
    ensures { OnOk result (errors.new.items ≡ errors.old.items ++ errors_of string.now) }
{
    match &string.node {
        StringLiteralNode::Simple { .. } => Ok(()),
        StringLiteralNode::Interpolated { elements, .. } => add_from_string_elements(
            elements.as_slice(),
            errors,
        ),
    }
}

/// Adds the errors in strings, one after the other.
#[cycle(parts)]
pub(crate) fn add_from_strings(
    strings: &[StringLiteral],
    errors: &mut Vec<Place>,
) -> Result<(), AllocError>
    ensures { OnOk result (errors.new.items ≡ errors.old.items ++ errors_of_all (trees_of strings.now)) }
{
    for item in strings {
        add_from_string(item, errors)?;
    }
    Ok(())
}

/// Adds the errors in a part of a string.
#[cycle(parts)]
pub(crate) fn add_from_string_element(
    string_element: &StringElement,
    errors: &mut Vec<Place>,
) -> Result<(), AllocError>
    ensures { OnOk result (errors.new.items ≡ errors.old.items ++ errors_of string_element.now) }
{
    match &string_element.node {
        StringElementNode::Text { .. } => Ok(()),
        StringElementNode::Interpolation { value, .. } => add_from_expr(value, errors),
    }
}

/// Adds the errors in parts of a string, one after the other.
#[cycle(parts)]
pub(crate) fn add_from_string_elements(
    string_elements: &[StringElement],
    errors: &mut Vec<Place>,
) -> Result<(), AllocError>
    ensures { OnOk result (errors.new.items ≡ errors.old.items ++ errors_of_all (trees_of string_elements.now)) }
{
    for item in string_elements {
        add_from_string_element(item, errors)?;
    }
    Ok(())
}

/// Adds the errors in an entry.
#[cycle(parts)]
pub(crate) fn add_from_entry(entry: &MapEntry, errors: &mut Vec<Place>) -> Result<(), AllocError>
    ensures { OnOk result (errors.new.items ≡ errors.old.items ++ errors_of entry.now) }
{
    add_from_expr(&entry.key, errors)?;
    add_from_optional_expr(&entry.value, errors)
}

/// Adds the errors in entries, one after the other.
#[cycle(parts)]
pub(crate) fn add_from_entries(
    entries: &[MapEntry],
    errors: &mut Vec<Place>,
) -> Result<(), AllocError>
    ensures { OnOk result (errors.new.items ≡ errors.old.items ++ errors_of_all (trees_of entries.now)) }
{
    for item in entries {
        add_from_entry(item, errors)?;
    }
    Ok(())
}

/// Adds the errors in an argument list.
#[cycle(parts)]
pub(crate) fn add_from_argument_list(
    argument_list: &ArgumentList,
    errors: &mut Vec<Place>,
) -> Result<(), AllocError>
    ensures { OnOk result (errors.new.items ≡ errors.old.items ++ errors_of argument_list.now) }
{
    add_from_arguments(argument_list.node.arguments.as_slice(), errors)
}

/// Adds the errors in an argument.
#[cycle(parts)]
pub(crate) fn add_from_argument(
    argument: &Argument,
    errors: &mut Vec<Place>,
) -> Result<(), AllocError>
    ensures { OnOk result (errors.new.items ≡ errors.old.items ++ errors_of argument.now) }
{
    add_from_expr(&argument.value, errors)
}

/// Adds the errors in arguments, one after the other.
#[cycle(parts)]
pub(crate) fn add_from_arguments(
    arguments: &[Argument],
    errors: &mut Vec<Place>,
) -> Result<(), AllocError>
    ensures { OnOk result (errors.new.items ≡ errors.old.items ++ errors_of_all (trees_of arguments.now)) }
{
    for item in arguments {
        add_from_argument(item, errors)?;
    }
    Ok(())
}
