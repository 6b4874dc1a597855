//! Reading the lists of statements in types.

ghost use Rattle.std.specs.Prelude.{◌≡◌, ◌≤◌, OnOk};
ghost use Rattle.dart_tree.specs.Tree.{trees_of, part_of};
ghost use Rattle.unread_lists.specs.WithLists.{with_lists, all_with_lists, part_with_lists};

use crate::functions::read_parameters;
use crate::lists::ReadsLists;
use dart_tree::{
    FunctionTypeParts, ParameterType, TypeArguments, TypeArgumentsNode, TypeParameter, WrittenType,
    WrittenTypeNode,
};
use std::alloc::{AllocError, Global};

/// Reads the lists of statements in a written type, where `room` nodes may lie on a way down from it.
#[cycle(parts)]
pub fn read_written_type<R: ReadsLists>(
    reader: &R,
    alloc: Global,
    room: u32,
    written_type: &mut WrittenType,
) -> Result<(), AllocError>
    requires limit { room ≤ 201 }
    requires sound { R.sound reader.now }
    ensures { OnOk result (written_type.new ≡ with_lists (R.lists reader.now) room written_type.old) }
{
    let inside = room.saturating_sub(1);
    match &mut *written_type.node {
        WrittenTypeNode::Void { .. } => Ok(()),
        WrittenTypeNode::Named { arguments, .. } => read_optional_type_arguments(
            reader, alloc, inside, arguments,
        ),
        WrittenTypeNode::Function { result, parts, .. } => {
            read_optional_written_type(reader, alloc, inside, result)?;
            let FunctionTypeParts {
                type_parameters,
                parameters,
                optional,
            } = &mut **parts;
            read_type_parameters(reader, alloc, inside, type_parameters.as_mut_slice())?;
            read_parameter_types(reader, alloc, inside, parameters.as_mut_slice())?;
            read_parameters(reader, alloc, inside, optional.as_mut_slice())
        }
    }
}

/// Reads the lists of statements in written types, where `room` nodes may lie on a way down from each.
#[cycle(parts)]
pub(crate) fn read_written_types<R: ReadsLists>(
    reader: &R,
    alloc: Global,
    room: u32,
    written_types: &mut [WrittenType],
) -> Result<(), AllocError>
    requires limit { room ≤ 201 }
    requires sound { R.sound reader.now }
    ensures { OnOk result (trees_of written_types.new ≡ all_with_lists (R.lists reader.now) room (trees_of written_types.old)) }
{
    for item in written_types.iter_mut() {
        read_written_type(reader, alloc, room, item)?;
    }
    Ok(())
}

/// So of one that may be left out.
#[cycle(parts)]
pub(crate) fn read_optional_written_type<R: ReadsLists>(
    reader: &R,
    alloc: Global,
    room: u32,
    written_type: &mut Option<WrittenType>,
) -> Result<(), AllocError>
    requires limit { room ≤ 201 }
    requires sound { R.sound reader.now }
    ensures { OnOk result (part_of written_type.new ≡ part_with_lists (R.lists reader.now) room (part_of written_type.old)) }
{
    match written_type {
        None => Ok(()),
        Some(tree) => read_written_type(reader, alloc, room, tree),
    }
}

/// Reads the lists of statements in type arguments, where `room` nodes may lie on a way down from it.
#[cycle(parts)]
pub(crate) fn read_type_arguments<R: ReadsLists>(
    reader: &R,
    alloc: Global,
    room: u32,
    type_arguments: &mut TypeArguments,
) -> Result<(), AllocError>
    requires limit { room ≤ 201 }
    requires sound { R.sound reader.now }
    ensures { OnOk result (type_arguments.new ≡ with_lists (R.lists reader.now) room type_arguments.old) }
{
    let TypeArgumentsNode { types, .. } = &mut *type_arguments.node;
    read_written_types(reader, alloc, room, types.as_mut_slice())
}

/// So of one that may be left out.
#[cycle(parts)]
pub(crate) fn read_optional_type_arguments<R: ReadsLists>(
    reader: &R,
    alloc: Global,
    room: u32,
    type_arguments: &mut Option<TypeArguments>,
) -> Result<(), AllocError>
    requires limit { room ≤ 201 }
    requires sound { R.sound reader.now }
    ensures { OnOk result (part_of type_arguments.new ≡ part_with_lists (R.lists reader.now) room (part_of type_arguments.old)) }
{
    match type_arguments {
        None => Ok(()),
        Some(tree) => read_type_arguments(reader, alloc, room, tree),
    }
}

/// Reads the lists of statements in a type parameter, where `room` nodes may lie on a way down from it.
#[cycle(parts)]
pub(crate) fn read_type_parameter<R: ReadsLists>(
    reader: &R,
    alloc: Global,
    room: u32,
    type_parameter: &mut TypeParameter,
) -> Result<(), AllocError>
    requires limit { room ≤ 201 }
    requires sound { R.sound reader.now }
    ensures { OnOk result (type_parameter.new ≡ with_lists (R.lists reader.now) room type_parameter.old) }
{
    read_optional_written_type(reader, alloc, room, &mut type_parameter.bound)
}

/// Reads the lists of statements in type parameters, where `room` nodes may lie on a way down from each.
#[cycle(parts)]
pub(crate) fn read_type_parameters<R: ReadsLists>(
    reader: &R,
    alloc: Global,
    room: u32,
    type_parameters: &mut [TypeParameter],
) -> Result<(), AllocError>
    requires limit { room ≤ 201 }
    requires sound { R.sound reader.now }
    ensures { OnOk result (trees_of type_parameters.new ≡ all_with_lists (R.lists reader.now) room (trees_of type_parameters.old)) }
{
    for item in type_parameters.iter_mut() {
        read_type_parameter(reader, alloc, room, item)?;
    }
    Ok(())
}

/// Reads the lists of statements in a parameter of a function type, where `room` nodes may lie on a way down from it.
#[cycle(parts)]
pub(crate) fn read_parameter_type<R: ReadsLists>(
    reader: &R,
    alloc: Global,
    room: u32,
    parameter_type: &mut ParameterType,
) -> Result<(), AllocError>
    requires limit { room ≤ 201 }
    requires sound { R.sound reader.now }
    ensures { OnOk result (parameter_type.new ≡ with_lists (R.lists reader.now) room parameter_type.old) }
{
    read_written_type(reader, alloc, room, &mut parameter_type.written)
}

/// Reads the lists of statements in parameters of a function type, where `room` nodes may lie on a way down from each.
#[cycle(parts)]
pub(crate) fn read_parameter_types<R: ReadsLists>(
    reader: &R,
    alloc: Global,
    room: u32,
    parameter_types: &mut [ParameterType],
) -> Result<(), AllocError>
    requires limit { room ≤ 201 }
    requires sound { R.sound reader.now }
    ensures { OnOk result (trees_of parameter_types.new ≡ all_with_lists (R.lists reader.now) room (trees_of parameter_types.old)) }
{
    for item in parameter_types.iter_mut() {
        read_parameter_type(reader, alloc, room, item)?;
    }
    Ok(())
}
