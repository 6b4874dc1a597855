//! Reading the lists of statements in expressions and their parts.

ghost use Rattle.std.specs.Prelude.{◌≡◌, ◌≤◌, OnOk};
ghost use Rattle.dart_tree.specs.Tree.{trees_of, part_of};
ghost use Rattle.unread_lists.specs.WithLists.{with_lists, all_with_lists, part_with_lists};

use crate::functions::{read_body, read_parameter_list};
use crate::lists::ReadsLists;
use crate::types::{read_optional_type_arguments, read_type_arguments, read_written_type};
use dart_tree::{
    Argument, ArgumentList, ArgumentListNode, Expr, ExprNode, MapEntry, StringElement,
    StringElementNode, StringLiteral, StringLiteralNode,
};
use std::alloc::{AllocError, Global};

/// Reads the lists of statements in an expression, where `room` nodes may lie on a way down from it.
#[cycle(parts)]
pub fn read_expr<R: ReadsLists>(
    reader: &R,
    alloc: Global,
    room: u32,
    expr: &mut Expr,
) -> Result<(), AllocError>
    requires limit { room ≤ 201 }
    requires sound { R.sound reader.now }
    ensures { OnOk result (expr.new ≡ with_lists (R.lists reader.now) room expr.old) }
{
    let inside = room.saturating_sub(1);
    match &mut *expr.node {
        ExprNode::Integer { .. } => return Ok(()),
        ExprNode::Text { strings, .. } => return read_strings(
            reader,
            alloc,
            inside,
            strings.as_mut_slice(),
        ),
        ExprNode::Boolean { .. } => return Ok(()),
        ExprNode::Null { .. } => return Ok(()),
        ExprNode::This { .. } => return Ok(()),
        ExprNode::Super { .. } => return Ok(()),
        ExprNode::Identifier { .. } => return Ok(()),
        ExprNode::Parenthesis { inner, .. } => return read_expr(reader, alloc, inside, inner),
        ExprNode::New {
            written,
            arguments,
            ..
        } => {
            read_written_type(reader, alloc, inside, written)?;
            return read_argument_list(reader, alloc, inside, arguments);
        }
        ExprNode::List {
            type_arguments,
            elements,
            ..
        } => {
            read_optional_type_arguments(reader, alloc, inside, type_arguments)?;
            return read_exprs(reader, alloc, inside, elements.as_mut_slice());
        }
        ExprNode::SetOrMap {
            type_arguments,
            entries,
            ..
        } => {
            read_optional_type_arguments(reader, alloc, inside, type_arguments)?;
            return read_entries(reader, alloc, inside, entries.as_mut_slice());
        }
        ExprNode::Function {
            parameters,
            body,
            ..
        } => {
            read_parameter_list(reader, alloc, inside, parameters)?;
            return read_body(reader, alloc, inside, body);
        }
        ExprNode::GenericIdentifier { type_arguments, .. } => return read_type_arguments(
            reader,
            alloc,
            inside,
            type_arguments,
        ),
        ExprNode::Property { receiver, .. } => return read_expr(reader, alloc, inside, receiver),
        ExprNode::Index {
            receiver,
            index,
            ..
        } => {
            read_expr(reader, alloc, inside, receiver)?;
            return read_expr(reader, alloc, inside, index);
        }
        ExprNode::NullCheck { operand, .. } => return read_expr(reader, alloc, inside, operand),
        ExprNode::Call {
            callee,
            type_arguments,
            arguments,
            ..
        } => {
            read_expr(reader, alloc, inside, callee)?;
            read_optional_type_arguments(reader, alloc, inside, type_arguments)?;
            return read_argument_list(reader, alloc, inside, arguments);
        }
        ExprNode::Unary { operand, .. } => return read_expr(reader, alloc, inside, operand),
        ExprNode::Postfix { operand, .. } => return read_expr(reader, alloc, inside, operand),
        ExprNode::Binary { left, right, .. } => {
            read_expr(reader, alloc, inside, left)?;
            return read_expr(reader, alloc, inside, right);
        }
        ExprNode::TypeTest {
            operand,
            written,
            ..
        } => {
            read_expr(reader, alloc, inside, operand)?;
            return read_written_type(reader, alloc, inside, written);
        }
        ExprNode::TypeCast {
            operand,
            written,
            ..
        } => {
            read_expr(reader, alloc, inside, operand)?;
            return read_written_type(reader, alloc, inside, written);
        }
        ExprNode::Conditional {
            condition,
            then_value,
            else_value,
            ..
        } => {
            read_expr(reader, alloc, inside, condition)?;
            read_expr(reader, alloc, inside, then_value)?;
            return read_expr(reader, alloc, inside, else_value);
        }
        ExprNode::Assignment { target, value, .. } => {
            read_expr(reader, alloc, inside, target)?;
            return read_expr(reader, alloc, inside, value);
        }
        ExprNode::Throw { value, .. } => return read_expr(reader, alloc, inside, value),
        ExprNode::Cascade {
            receiver,
            section,
            ..
        } => {
            read_expr(reader, alloc, inside, receiver)?;
            return read_expr(reader, alloc, inside, section);
        }
        ExprNode::CascadedName { .. } => return Ok(()),
        ExprNode::CascadedIndex { index, .. } => return read_expr(reader, alloc, room, index),
    }
}

/// Reads the lists of statements in expressions, where `room` nodes may lie on a way down from each.
#[cycle(parts)]
pub(crate) fn read_exprs<R: ReadsLists>(
    reader: &R,
    alloc: Global,
    room: u32,
    exprs: &mut [Expr],
) -> Result<(), AllocError>
    requires limit { room ≤ 201 }
    requires sound { R.sound reader.now }
    ensures { OnOk result (trees_of exprs.new ≡ all_with_lists (R.lists reader.now) room (trees_of exprs.old)) }
{
    for item in exprs.iter_mut() {
        read_expr(reader, alloc, room, item)?;
    }
    Ok(())
}

/// So of one that may be left out.
#[cycle(parts)]
pub(crate) fn read_optional_expr<R: ReadsLists>(
    reader: &R,
    alloc: Global,
    room: u32,
    expr: &mut Option<Expr>,
) -> Result<(), AllocError>
    requires limit { room ≤ 201 }
    requires sound { R.sound reader.now }
    ensures { OnOk result (part_of expr.new ≡ part_with_lists (R.lists reader.now) room (part_of expr.old)) }
{
    match expr {
        None => Ok(()),
        Some(tree) => read_expr(reader, alloc, room, tree),
    }
}

/// Reads the lists of statements in a string, where `room` nodes may lie on a way down from it.
#[cycle(parts)]
pub(crate) fn read_string<R: ReadsLists>(
    reader: &R,
    alloc: Global,
    room: u32,
    string: &mut StringLiteral,
) -> Result<(), AllocError>
    requires limit { room ≤ 201 }
    requires sound { R.sound reader.now }
    ensures { OnOk result (string.new ≡ with_lists (R.lists reader.now) room string.old) }
{
    match &mut string.node {
        StringLiteralNode::Simple { .. } => Ok(()),
        StringLiteralNode::Interpolated { elements, .. } => read_string_elements(
            reader,
            alloc,
            room,
            elements.as_mut_slice(),
        ),
    }
}

/// Reads the lists of statements in strings, where `room` nodes may lie on a way down from each.
#[cycle(parts)]
pub(crate) fn read_strings<R: ReadsLists>(
    reader: &R,
    alloc: Global,
    room: u32,
    strings: &mut [StringLiteral],
) -> Result<(), AllocError>
    requires limit { room ≤ 201 }
    requires sound { R.sound reader.now }
    ensures { OnOk result (trees_of strings.new ≡ all_with_lists (R.lists reader.now) room (trees_of strings.old)) }
{
    for item in strings.iter_mut() {
        read_string(reader, alloc, room, item)?;
    }
    Ok(())
}

/// Reads the lists of statements in a part of a string, where `room` nodes may lie on a way down from it.
#[cycle(parts)]
pub(crate) fn read_string_element<R: ReadsLists>(
    reader: &R,
    alloc: Global,
    room: u32,
    string_element: &mut StringElement,
) -> Result<(), AllocError>
    requires limit { room ≤ 201 }
    requires sound { R.sound reader.now }
    ensures { OnOk result (string_element.new ≡ with_lists (R.lists reader.now) room string_element.old) }
{
    match &mut string_element.node {
        StringElementNode::Text { .. } => Ok(()),
        StringElementNode::Interpolation { value, .. } => read_expr(reader, alloc, room, value),
    }
}

/// Reads the lists of statements in parts of a string, where `room` nodes may lie on a way down from each.
#[cycle(parts)]
pub(crate) fn read_string_elements<R: ReadsLists>(
    reader: &R,
    alloc: Global,
    room: u32,
    string_elements: &mut [StringElement],
) -> Result<(), AllocError>
    requires limit { room ≤ 201 }
    requires sound { R.sound reader.now }
    ensures { OnOk result (trees_of string_elements.new ≡ all_with_lists (R.lists reader.now) room (trees_of string_elements.old)) }
{
    for item in string_elements.iter_mut() {
        read_string_element(reader, alloc, room, item)?;
    }
    Ok(())
}

/// Reads the lists of statements in an entry, where `room` nodes may lie on a way down from it.
#[cycle(parts)]
pub(crate) fn read_entry<R: ReadsLists>(
    reader: &R,
    alloc: Global,
    room: u32,
    entry: &mut MapEntry,
) -> Result<(), AllocError>
    requires limit { room ≤ 201 }
    requires sound { R.sound reader.now }
    ensures { OnOk result (entry.new ≡ with_lists (R.lists reader.now) room entry.old) }
{
    read_expr(reader, alloc, room, &mut entry.key)?;
    read_optional_expr(reader, alloc, room, &mut entry.value)
}

/// Reads the lists of statements in entries, where `room` nodes may lie on a way down from each.
#[cycle(parts)]
pub(crate) fn read_entries<R: ReadsLists>(
    reader: &R,
    alloc: Global,
    room: u32,
    entries: &mut [MapEntry],
) -> Result<(), AllocError>
    requires limit { room ≤ 201 }
    requires sound { R.sound reader.now }
    ensures { OnOk result (trees_of entries.new ≡ all_with_lists (R.lists reader.now) room (trees_of entries.old)) }
{
    for item in entries.iter_mut() {
        read_entry(reader, alloc, room, item)?;
    }
    Ok(())
}

/// Reads the lists of statements in an argument list, where `room` nodes may lie on a way down from it.
#[cycle(parts)]
pub(crate) fn read_argument_list<R: ReadsLists>(
    reader: &R,
    alloc: Global,
    room: u32,
    argument_list: &mut ArgumentList,
) -> Result<(), AllocError>
    requires limit { room ≤ 201 }
    requires sound { R.sound reader.now }
    ensures { OnOk result (argument_list.new ≡ with_lists (R.lists reader.now) room argument_list.old) }
{
    let ArgumentListNode { arguments, .. } = &mut *argument_list.node;
    read_arguments(reader, alloc, room, arguments.as_mut_slice())
}

/// Reads the lists of statements in an argument, where `room` nodes may lie on a way down from it.
#[cycle(parts)]
pub(crate) fn read_argument<R: ReadsLists>(
    reader: &R,
    alloc: Global,
    room: u32,
    argument: &mut Argument,
) -> Result<(), AllocError>
    requires limit { room ≤ 201 }
    requires sound { R.sound reader.now }
    ensures { OnOk result (argument.new ≡ with_lists (R.lists reader.now) room argument.old) }
{
    read_expr(reader, alloc, room, &mut argument.value)
}

/// Reads the lists of statements in arguments, where `room` nodes may lie on a way down from each.
#[cycle(parts)]
pub(crate) fn read_arguments<R: ReadsLists>(
    reader: &R,
    alloc: Global,
    room: u32,
    arguments: &mut [Argument],
) -> Result<(), AllocError>
    requires limit { room ≤ 201 }
    requires sound { R.sound reader.now }
    ensures { OnOk result (trees_of arguments.new ≡ all_with_lists (R.lists reader.now) room (trees_of arguments.old)) }
{
    for item in arguments.iter_mut() {
        read_argument(reader, alloc, room, item)?;
    }
    Ok(())
}
