//! The errors in types.

ghost use Rattle.std.specs.Prelude.{◌≡◌, ◌++◌, OnOk};
ghost use Rattle.dart_tree.specs.Tree.{trees_of, part_of};
ghost use Rattle.error_nodes.specs.Errors.{errors_of, errors_of_all, errors_of_part};

use crate::functions::add_from_parameters;
use dart_tree::{ParameterType, Place, TypeArguments, TypeParameter, WrittenType, WrittenTypeNode};
use std::alloc::AllocError;

/// Adds the errors in a written type.
#[cycle(parts)]
pub(crate) fn add_from_written_type(
    written_type: &WrittenType,
    errors: &mut Vec<Place>,
) -> Result<(), AllocError>
    ensures { OnOk result (errors.new.items ≡ errors.old.items ++ errors_of written_type.now) }
{
    match &*written_type.node {
        WrittenTypeNode::Void { .. } => Ok(()),
        WrittenTypeNode::Named { arguments, .. } => add_from_optional_type_arguments(
            arguments, errors,
        ),
        WrittenTypeNode::Function { result, parts, .. } => {
            add_from_optional_written_type(result, errors)?;
            add_from_type_parameters(parts.type_parameters.as_slice(), errors)?;
            add_from_parameter_types(parts.parameters.as_slice(), errors)?;
            add_from_parameters(parts.optional.as_slice(), errors)
        }
    }
}

/// Adds the errors in written types, one after the other.
#[cycle(parts)]
pub(crate) fn add_from_written_types(
    written_types: &[WrittenType],
    errors: &mut Vec<Place>,
) -> Result<(), AllocError>
    ensures { OnOk result (errors.new.items ≡ errors.old.items ++ errors_of_all (trees_of written_types.now)) }
{
    for item in written_types {
        add_from_written_type(item, errors)?;
    }
    Ok(())
}

/// Adds those in one that may be left out.
#[cycle(parts)]
pub(crate) fn add_from_optional_written_type(
    written_type: &Option<WrittenType>,
    errors: &mut Vec<Place>,
) -> Result<(), AllocError>
    ensures { OnOk result (errors.new.items ≡ errors.old.items ++ errors_of_part (part_of written_type.now)) }
{
    match written_type {
        None => Ok(()),
        Some(tree) => add_from_written_type(tree, errors),
    }
}

/// Adds the errors in type arguments.
#[cycle(parts)]
pub(crate) fn add_from_type_arguments(
    type_arguments: &TypeArguments,
    errors: &mut Vec<Place>,
) -> Result<(), AllocError>
    ensures { OnOk result (errors.new.items ≡ errors.old.items ++ errors_of type_arguments.now) }
{
    add_from_written_types(type_arguments.node.types.as_slice(), errors)
}

/// Adds those in one that may be left out.
#[cycle(parts)]
pub(crate) fn add_from_optional_type_arguments(
    type_arguments: &Option<TypeArguments>,
    errors: &mut Vec<Place>,
) -> Result<(), AllocError>
    ensures { OnOk result (errors.new.items ≡ errors.old.items ++ errors_of_part (part_of type_arguments.now)) }
{
    match type_arguments {
        None => Ok(()),
        Some(tree) => add_from_type_arguments(tree, errors),
    }
}

/// Adds the errors in a type parameter.
#[cycle(parts)]
pub(crate) fn add_from_type_parameter(
    type_parameter: &TypeParameter,
    errors: &mut Vec<Place>,
) -> Result<(), AllocError>
    ensures { OnOk result (errors.new.items ≡ errors.old.items ++ errors_of type_parameter.now) }
{
    add_from_optional_written_type(&type_parameter.bound, errors)
}

/// Adds the errors in type parameters, one after the other.
#[cycle(parts)]
pub(crate) fn add_from_type_parameters(
    type_parameters: &[TypeParameter],
    errors: &mut Vec<Place>,
) -> Result<(), AllocError>
    ensures { OnOk result (errors.new.items ≡ errors.old.items ++ errors_of_all (trees_of type_parameters.now)) }
{
    for item in type_parameters {
        add_from_type_parameter(item, errors)?;
    }
    Ok(())
}

/// Adds the errors in a parameter of a function type.
#[cycle(parts)]
pub(crate) fn add_from_parameter_type(
    parameter_type: &ParameterType,
    errors: &mut Vec<Place>,
) -> Result<(), AllocError>
    ensures { OnOk result (errors.new.items ≡ errors.old.items ++ errors_of parameter_type.now) }
{
    add_from_written_type(&parameter_type.written, errors)
}

/// Adds the errors in parameters of a function type, one after the other.
#[cycle(parts)]
pub(crate) fn add_from_parameter_types(
    parameter_types: &[ParameterType],
    errors: &mut Vec<Place>,
) -> Result<(), AllocError>
    ensures { OnOk result (errors.new.items ≡ errors.old.items ++ errors_of_all (trees_of parameter_types.now)) }
{
    for item in parameter_types {
        add_from_parameter_type(item, errors)?;
    }
    Ok(())
}
