//! The errors in members of classes and mixins.

ghost use Rattle.std.specs.Prelude.{◌≡◌, ◌++◌, OnOk};
ghost use Rattle.dart_tree.specs.Tree.{trees_of};
ghost use Rattle.error_nodes.specs.Errors.{errors_of, errors_of_all};

use crate::expressions::{add_from_argument_list, add_from_expr};
use crate::functions::{
    add_from_body, add_from_function, add_from_parameter_list, add_from_variable_list,
};
use crate::types::add_from_optional_written_type;
use dart_tree::{Initializer, InitializerNode, Member, MemberNode, Place, ReadMember};
use std::alloc::AllocError;

/// Adds the errors in an initializer.
pub(crate) fn add_from_initializer(
    initializer: &Initializer,
    errors: &mut Vec<Place>,
) -> Result<(), AllocError>
    ensures { OnOk result (errors.new.items ≡ errors.old.items ++ errors_of initializer.now) }
{
    match &initializer.node {
        InitializerNode::Field { value, .. } => add_from_expr(value, errors),
        InitializerNode::Super { arguments, .. } => add_from_argument_list(arguments, errors),
        InitializerNode::Redirection { arguments, .. } => add_from_argument_list(arguments, errors),
    }
}

/// Adds the errors in initializers, one after the other.
pub(crate) fn add_from_initializers(
    initializers: &[Initializer],
    errors: &mut Vec<Place>,
) -> Result<(), AllocError>
    ensures { OnOk result (errors.new.items ≡ errors.old.items ++ errors_of_all (trees_of initializers.now)) }
{
    for item in initializers {
        add_from_initializer(item, errors)?;
    }
    Ok(())
}

/// Adds the errors in a member.
pub(crate) fn add_from_member(member: &Member, errors: &mut Vec<Place>) -> Result<(), AllocError>
    ensures { OnOk result (errors.new.items ≡ errors.old.items ++ errors_of member.now) }
{
    let node = match &member.node {
        MemberNode::Read(node) => node,
        MemberNode::Error { at } => {
            errors.push(*at)?;
            return Ok(());
        }
    };
    match &**node {
        ReadMember::Constructor {
            parameters,
            initializers,
            body,
            ..
        } => {
            add_from_parameter_list(parameters, errors)?;
            add_from_initializers(initializers.as_slice(), errors)?;
            add_from_body(body, errors)
        }
        ReadMember::Factory {
            parameters,
            body,
            ..
        } => {
            add_from_parameter_list(parameters, errors)?;
            add_from_body(body, errors)
        }
        ReadMember::Method { function, .. } => add_from_function(function, errors),
        ReadMember::Fields { variables, .. } => add_from_variable_list(variables, errors),
        ReadMember::Operator {
            result,
            parameters,
            body,
            ..
        } => {
            add_from_optional_written_type(result, errors)?;
            add_from_parameter_list(parameters, errors)?;
            add_from_body(body, errors)
        }
    }
}

/// Adds the errors in members, one after the other.
pub(crate) fn add_from_members(
    members: &[Member],
    errors: &mut Vec<Place>,
) -> Result<(), AllocError>
    ensures { OnOk result (errors.new.items ≡ errors.old.items ++ errors_of_all (trees_of members.now)) }
{
    for item in members {
        add_from_member(item, errors)?;
    }
    Ok(())
}
