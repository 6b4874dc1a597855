//! Reading the lists of statements in functions, their parameters and bodies, and variables.

ghost use Rattle.std.specs.Prelude.{◌≡◌, ◌≤◌, OnOk};
ghost use Rattle.dart_tree.specs.Tree.{trees_of};
ghost use Rattle.unread_lists.specs.WithLists.{with_lists, all_with_lists};

use crate::expressions::{read_expr, read_optional_expr};
use crate::lists::{ReadsLists, read_list};
use crate::types::{read_optional_written_type, read_type_parameters};
use dart_tree::{
    Body, BodyNode, Function, FunctionNode, Parameter, ParameterList, Variable, VariableList,
};
use std::alloc::{AllocError, Global};

/// Reads the lists of statements in a parameter list, where `room` nodes may lie on a way down from it.
#[cycle(parts)]
pub fn read_parameter_list<R: ReadsLists>(
    reader: &R,
    alloc: Global,
    room: u32,
    parameter_list: &mut ParameterList,
) -> Result<(), AllocError>
    requires limit { room ≤ 201 }
    requires sound { R.sound reader.now }
    ensures { OnOk result (parameter_list.new ≡ with_lists (R.lists reader.now) room parameter_list.old) }
{
    read_parameters(
        reader,
        alloc,
        room,
        parameter_list.parameters.as_mut_slice(),
    )
}

/// Reads the lists of statements in a parameter, where `room` nodes may lie on a way down from it.
#[cycle(parts)]
pub(crate) fn read_parameter<R: ReadsLists>(
    reader: &R,
    alloc: Global,
    room: u32,
    parameter: &mut Parameter,
) -> Result<(), AllocError>
    requires limit { room ≤ 201 }
    requires sound { R.sound reader.now }
    ensures { OnOk result (parameter.new ≡ with_lists (R.lists reader.now) room parameter.old) }
{
    read_optional_written_type(reader, alloc, room, &mut parameter.written)?;
    read_optional_expr(reader, alloc, room, &mut parameter.default_value)
}

/// Reads the lists of statements in parameters, where `room` nodes may lie on a way down from each.
#[cycle(parts)]
pub(crate) fn read_parameters<R: ReadsLists>(
    reader: &R,
    alloc: Global,
    room: u32,
    parameters: &mut [Parameter],
) -> Result<(), AllocError>
    requires limit { room ≤ 201 }
    requires sound { R.sound reader.now }
    ensures { OnOk result (trees_of parameters.new ≡ all_with_lists (R.lists reader.now) room (trees_of parameters.old)) }
{
    for item in parameters.iter_mut() {
        read_parameter(reader, alloc, room, item)?;
    }
    Ok(())
}

/// Reads the lists of statements in a body, where `room` nodes may lie on a way down from it.
#[cycle(parts)]
pub fn read_body<R: ReadsLists>(
    reader: &R,
    alloc: Global,
    room: u32,
    body: &mut Body,
) -> Result<(), AllocError>
    requires limit { room ≤ 201 }
    requires sound { R.sound reader.now }
    ensures { OnOk result (body.new ≡ with_lists (R.lists reader.now) room body.old) }
{
    let inside = room.saturating_sub(1);
    match &mut body.node {
        BodyNode::Block { statements, .. } => read_list(reader, alloc, inside, statements),
        BodyNode::Expression { value, .. } => read_expr(reader, alloc, room, value),
        BodyNode::Empty { .. } => Ok(()),
        BodyNode::Native { .. } => Ok(()),
    }
}

/// Reads the lists of statements in a function, where `room` nodes may lie on a way down from it.
pub fn read_function<R: ReadsLists>(
    reader: &R,
    alloc: Global,
    room: u32,
    function: &mut Function,
) -> Result<(), AllocError>
    requires limit { room ≤ 201 }
    requires sound { R.sound reader.now }
    ensures { OnOk result (function.new ≡ with_lists (R.lists reader.now) room function.old) }
{
    match &mut *function.node {
        FunctionNode::Getter { result, body, .. } => {
            read_optional_written_type(reader, alloc, room, result)?;
            read_body(reader, alloc, room, body)
        }
        FunctionNode::Setter {
            result,
            parameters,
            body,
            ..
        } => {
            read_optional_written_type(reader, alloc, room, result)?;
            read_parameter_list(reader, alloc, room, parameters)?;
            read_body(reader, alloc, room, body)
        }
        FunctionNode::Plain {
            result,
            type_parameters,
            parameters,
            body,
            ..
        } => {
            read_optional_written_type(reader, alloc, room, result)?;
            read_type_parameters(reader, alloc, room, type_parameters.as_mut_slice())?;
            read_parameter_list(reader, alloc, room, parameters)?;
            read_body(reader, alloc, room, body)
        }
    }
}

/// Reads the lists of statements in a variable list, where `room` nodes may lie on a way down from it.
pub fn read_variable_list<R: ReadsLists>(
    reader: &R,
    alloc: Global,
    room: u32,
    variable_list: &mut VariableList,
) -> Result<(), AllocError>
    requires limit { room ≤ 201 }
    requires sound { R.sound reader.now }
    ensures { OnOk result (variable_list.new ≡ with_lists (R.lists reader.now) room variable_list.old) }
{
    read_optional_written_type(reader, alloc, room, &mut variable_list.written)?;
    read_variables(reader, alloc, room, variable_list.variables.as_mut_slice())
}

/// Reads the lists of statements in a variable, where `room` nodes may lie on a way down from it.
pub(crate) fn read_variable<R: ReadsLists>(
    reader: &R,
    alloc: Global,
    room: u32,
    variable: &mut Variable,
) -> Result<(), AllocError>
    requires limit { room ≤ 201 }
    requires sound { R.sound reader.now }
    ensures { OnOk result (variable.new ≡ with_lists (R.lists reader.now) room variable.old) }
{
    read_optional_expr(reader, alloc, room, &mut variable.initializer)
}

/// Reads the lists of statements in variables, where `room` nodes may lie on a way down from each.
pub(crate) fn read_variables<R: ReadsLists>(
    reader: &R,
    alloc: Global,
    room: u32,
    variables: &mut [Variable],
) -> Result<(), AllocError>
    requires limit { room ≤ 201 }
    requires sound { R.sound reader.now }
    ensures { OnOk result (trees_of variables.new ≡ all_with_lists (R.lists reader.now) room (trees_of variables.old)) }
{
    for item in variables.iter_mut() {
        read_variable(reader, alloc, room, item)?;
    }
    Ok(())
}
