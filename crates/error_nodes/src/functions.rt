//! The errors in functions, their parameters and bodies, and variables.

ghost use Rattle.std.specs.Prelude.{◌≡◌, ◌++◌, OnOk};
ghost use Rattle.dart_tree.specs.Tree.{trees_of};
ghost use Rattle.error_nodes.specs.Errors.{errors_of, errors_of_all};

use crate::expressions::{add_from_expr, add_from_optional_expr};
use crate::statements::add_from_stmts;
use crate::types::{add_from_optional_written_type, add_from_type_parameters};
use dart_tree::{
    Body, BodyNode, Function, FunctionNode, Parameter, ParameterList, Place, Variable, VariableList,
};
use std::alloc::AllocError;

/// Adds the errors in a parameter list.
#[cycle(parts)]
pub(crate) fn add_from_parameter_list(
    parameter_list: &ParameterList,
    errors: &mut Vec<Place>,
) -> Result<(), AllocError>
    ensures { OnOk result (errors.new.items ≡ errors.old.items ++ errors_of parameter_list.now) }
{
    add_from_parameters(parameter_list.parameters.as_slice(), errors)
}

/// Adds the errors in a parameter.
#[cycle(parts)]
pub(crate) fn add_from_parameter(
    parameter: &Parameter,
    errors: &mut Vec<Place>,
) -> Result<(), AllocError>
    ensures { OnOk result (errors.new.items ≡ errors.old.items ++ errors_of parameter.now) }
{
    add_from_optional_written_type(&parameter.written, errors)?;
    add_from_optional_expr(&parameter.default_value, errors)
}

/// Adds the errors in parameters, one after the other.
#[cycle(parts)]
pub(crate) fn add_from_parameters(
    parameters: &[Parameter],
    errors: &mut Vec<Place>,
) -> Result<(), AllocError>
    ensures { OnOk result (errors.new.items ≡ errors.old.items ++ errors_of_all (trees_of parameters.now)) }
{
    for item in parameters {
        add_from_parameter(item, errors)?;
    }
    Ok(())
}

/// Adds the errors in a body.
#[cycle(parts)]
pub(crate) fn add_from_body(body: &Body, errors: &mut Vec<Place>) -> Result<(), AllocError>
    ensures { OnOk result (errors.new.items ≡ errors.old.items ++ errors_of body.now) }
{
    match &body.node {
        BodyNode::Block { statements, .. } => add_from_stmts(statements.as_slice(), errors),
        BodyNode::Expression { value, .. } => add_from_expr(value, errors),
        BodyNode::Empty { .. } => Ok(()),
        BodyNode::Native { .. } => Ok(()),
    }
}

/// Adds the errors in a function.
#[cycle(parts)]
pub(crate) fn add_from_function(
    function: &Function,
    errors: &mut Vec<Place>,
) -> Result<(), AllocError>
    ensures { OnOk result (errors.new.items ≡ errors.old.items ++ errors_of function.now) }
{
    match &*function.node {
        FunctionNode::Getter { result, body, .. } => {
            add_from_optional_written_type(result, errors)?;
            add_from_body(body, errors)
        }
        FunctionNode::Setter {
            result,
            parameters,
            body,
            ..
        } => {
            add_from_optional_written_type(result, errors)?;
            add_from_parameter_list(parameters, errors)?;
            add_from_body(body, errors)
        }
        FunctionNode::Plain {
            result,
            type_parameters,
            parameters,
            body,
            ..
        } => {
            add_from_optional_written_type(result, errors)?;
            add_from_type_parameters(type_parameters.as_slice(), errors)?;
            add_from_parameter_list(parameters, errors)?;
            add_from_body(body, errors)
        }
    }
}

/// Adds the errors in a variable list.
#[cycle(parts)]
pub(crate) fn add_from_variable_list(
    variable_list: &VariableList,
    errors: &mut Vec<Place>,
) -> Result<(), AllocError>
    ensures { OnOk result (errors.new.items ≡ errors.old.items ++ errors_of variable_list.now) }
{
    add_from_optional_written_type(&variable_list.written, errors)?;
    add_from_variables(variable_list.variables.as_slice(), errors)
}

/// Adds the errors in a variable.
#[cycle(parts)]
pub(crate) fn add_from_variable(
    variable: &Variable,
    errors: &mut Vec<Place>,
) -> Result<(), AllocError>
    ensures { OnOk result (errors.new.items ≡ errors.old.items ++ errors_of variable.now) }
{
    add_from_optional_expr(&variable.initializer, errors)
}

/// Adds the errors in variables, one after the other.
#[cycle(parts)]
pub(crate) fn add_from_variables(
    variables: &[Variable],
    errors: &mut Vec<Place>,
) -> Result<(), AllocError>
    ensures { OnOk result (errors.new.items ≡ errors.old.items ++ errors_of_all (trees_of variables.now)) }
{
    for item in variables {
        add_from_variable(item, errors)?;
    }
    Ok(())
}
