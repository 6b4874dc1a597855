//! The numbers of the nodes of types, expressions and functions.

ghost use Rattle.std.specs.Prelude.{◌≡◌, ◌+◌, ◌<◌, ◌^◌};
ghost use Rattle.dart_tree.specs.Tree.{trees_of, part_of};
ghost use Rattle.dart_tree.specs.Numbers.{nodes_in, nodes_in_all, nodes_in_part, numbered, all_numbered, part_numbered, place_numbered};

use crate::numbering_names::{number_annotations, number_name, number_place};
use crate::numbering_statements::number_stmts;
use dart_tree::{
    Argument, ArgumentList, ArgumentListNode, Block, Body, BodyNode, Expr, ExprNode, Function,
    FunctionNode, FunctionTypeParts, MapEntry, Parameter, ParameterList, ParameterType, Place,
    StringElement, StringElementNode, StringLiteral, StringLiteralNode, TypeArguments,
    TypeArgumentsNode, TypeParameter, Variable, VariableList, WrittenType, WrittenTypeNode,
};

/// Numbers a written type's nodes from `first` on, and answers the number after the last.
#[cycle(number)]
pub(crate) fn number_written_type(written_type: &mut WrittenType, first: u32) -> u32
    requires { first + nodes_in written_type.old < 2 ^ 32 }
    ensures tree { written_type.new ≡ numbered first written_type.old }
    ensures next { result ≡ first + nodes_in written_type.old }
{
    match &mut *written_type.node {
        WrittenTypeNode::Void { at } => number_place(at, first),
        WrittenTypeNode::Named { at, arguments, .. } => {
            let next = number_place(at, first);
            number_optional_type_arguments(arguments, next)
        }
        WrittenTypeNode::Function {
            at,
            result,
            parts,
            ..
        } => {
            let next = number_place(at, first);
            let next = number_optional_written_type(result, next);
            let FunctionTypeParts {
                type_parameters,
                parameters,
                optional,
            } = &mut **parts;
            let next = number_type_parameters(type_parameters.as_mut_slice(), next);
            let next = number_parameter_types(parameters.as_mut_slice(), next);
            number_parameters(optional.as_mut_slice(), next)
        }
    }
}

/// Numbers the nodes of written types, one after the other.
#[cycle(number)]
pub(crate) fn number_written_types(written_types: &mut [WrittenType], first: u32) -> u32
    requires { first + nodes_in_all (trees_of written_types.old) < 2 ^ 32 }
    ensures trees { trees_of written_types.new ≡ all_numbered first (trees_of written_types.old) }
    ensures next { result ≡ first + nodes_in_all (trees_of written_types.old) }
{
    let mut next = first;
    for item in written_types.iter_mut() {
        next = number_written_type(item, next);
    }
    next
}

/// So of one that may be left out.
#[cycle(number)]
pub(crate) fn number_optional_written_type(
    written_type: &mut Option<WrittenType>,
    first: u32,
) -> u32
    requires { first + nodes_in_part (part_of written_type.old) < 2 ^ 32 }
    ensures part { part_of written_type.new ≡ part_numbered first (part_of written_type.old) }
    ensures next { result ≡ first + nodes_in_part (part_of written_type.old) }
{
    match written_type {
        None => first,
        Some(tree) => number_written_type(tree, first),
    }
}

/// Numbers type arguments' nodes from `first` on, and answers the number after the last.
#[cycle(number)]
fn number_type_arguments(type_arguments: &mut TypeArguments, first: u32) -> u32
    requires { first + nodes_in type_arguments.old < 2 ^ 32 }
    ensures tree { type_arguments.new ≡ numbered first type_arguments.old }
    ensures next { result ≡ first + nodes_in type_arguments.old }
{
    let TypeArgumentsNode { at, types } = &mut *type_arguments.node;
    let next = number_place(at, first);
    number_written_types(types.as_mut_slice(), next)
}

/// So of one that may be left out.
#[cycle(number)]
fn number_optional_type_arguments(type_arguments: &mut Option<TypeArguments>, first: u32) -> u32
    requires { first + nodes_in_part (part_of type_arguments.old) < 2 ^ 32 }
    ensures part { part_of type_arguments.new ≡ part_numbered first (part_of type_arguments.old) }
    ensures next { result ≡ first + nodes_in_part (part_of type_arguments.old) }
{
    match type_arguments {
        None => first,
        Some(tree) => number_type_arguments(tree, first),
    }
}

/// Numbers a type parameter's nodes from `first` on, and answers the number after the last.
#[cycle(number)]
fn number_type_parameter(type_parameter: &mut TypeParameter, first: u32) -> u32
    requires { first + nodes_in type_parameter.old < 2 ^ 32 }
    ensures tree { type_parameter.new ≡ numbered first type_parameter.old }
    ensures next { result ≡ first + nodes_in type_parameter.old }
{
    let next = number_place(&mut type_parameter.at, first);
    let next = number_name(&mut type_parameter.name, next);
    number_optional_written_type(&mut type_parameter.bound, next)
}

/// Numbers the nodes of type parameters, one after the other.
#[cycle(number)]
pub(crate) fn number_type_parameters(type_parameters: &mut [TypeParameter], first: u32) -> u32
    requires { first + nodes_in_all (trees_of type_parameters.old) < 2 ^ 32 }
    ensures trees { trees_of type_parameters.new ≡ all_numbered first (trees_of type_parameters.old) }
    ensures next { result ≡ first + nodes_in_all (trees_of type_parameters.old) }
{
    let mut next = first;
    for item in type_parameters.iter_mut() {
        next = number_type_parameter(item, next);
    }
    next
}

/// Numbers a parameter's nodes from `first` on, and answers the number after the last.
#[cycle(number)]
fn number_parameter_type(parameter_type: &mut ParameterType, first: u32) -> u32
    requires { first + nodes_in parameter_type.old < 2 ^ 32 }
    ensures tree { parameter_type.new ≡ numbered first parameter_type.old }
    ensures next { result ≡ first + nodes_in parameter_type.old }
{
    let next = number_place(&mut parameter_type.at, first);
    number_written_type(&mut parameter_type.written, next)
}

/// Numbers the nodes of parameters of a function type, one after the other.
#[cycle(number)]
fn number_parameter_types(parameter_types: &mut [ParameterType], first: u32) -> u32
    requires { first + nodes_in_all (trees_of parameter_types.old) < 2 ^ 32 }
    ensures trees { trees_of parameter_types.new ≡ all_numbered first (trees_of parameter_types.old) }
    ensures next { result ≡ first + nodes_in_all (trees_of parameter_types.old) }
{
    let mut next = first;
    for item in parameter_types.iter_mut() {
        next = number_parameter_type(item, next);
    }
    next
}

/// Numbers an expression's nodes from `first` on, and answers the number after the last.
#[cycle(number)]
pub(crate) fn number_expr(expr: &mut Expr, first: u32) -> u32
    requires { first + nodes_in expr.old < 2 ^ 32 }
    ensures tree { expr.new ≡ numbered first expr.old }
    ensures next { result ≡ first + nodes_in expr.old }
{
    match &mut *expr.node {
        ExprNode::Integer { at, .. } => number_place(at, first),
        ExprNode::Text { at, strings } => {
            let next = number_place(at, first);
            number_strings(strings.as_mut_slice(), next)
        }
        ExprNode::Boolean { at, .. } => number_place(at, first),
        ExprNode::Null { at } => number_place(at, first),
        ExprNode::This { at } => number_place(at, first),
        ExprNode::Super { at } => number_place(at, first),
        ExprNode::Identifier { at, .. } => number_place(at, first),
        ExprNode::Parenthesis { at, inner } => number_one(at, inner, first),
        ExprNode::New {
            at,
            written,
            arguments,
            ..
        } => {
            let next = number_place(at, first);
            let next = number_written_type(written, next);
            number_argument_list(arguments, next)
        }
        ExprNode::List {
            at,
            type_arguments,
            elements,
        } => {
            let next = number_place(at, first);
            let next = number_optional_type_arguments(type_arguments, next);
            number_exprs(elements.as_mut_slice(), next)
        }
        ExprNode::SetOrMap {
            at,
            type_arguments,
            entries,
        } => {
            let next = number_place(at, first);
            let next = number_optional_type_arguments(type_arguments, next);
            number_entries(entries.as_mut_slice(), next)
        }
        ExprNode::Function {
            at,
            parameters,
            body,
        } => {
            let next = number_place(at, first);
            let next = number_parameter_list(parameters, next);
            number_body(body, next)
        }
        ExprNode::GenericIdentifier {
            at,
            type_arguments,
            ..
        } => {
            let next = number_place(at, first);
            number_type_arguments(type_arguments, next)
        }
        ExprNode::Property { at, receiver, .. } => number_one(at, receiver, first),
        ExprNode::Index {
            at,
            receiver,
            index,
            ..
        } => number_two(at, receiver, index, first),
        ExprNode::NullCheck { at, operand } => number_one(at, operand, first),
        ExprNode::Call {
            at,
            callee,
            type_arguments,
            arguments,
        } => {
            let next = number_place(at, first);
            let next = number_expr(callee, next);
            let next = number_optional_type_arguments(type_arguments, next);
            number_argument_list(arguments, next)
        }
        ExprNode::Unary { at, operand, .. } => number_one(at, operand, first),
        ExprNode::Postfix { at, operand, .. } => number_one(at, operand, first),
        ExprNode::Binary {
            at,
            left,
            right,
            ..
        } => number_two(at, left, right, first),
        ExprNode::TypeTest {
            at,
            operand,
            written,
            ..
        } => number_typed(at, operand, written, first),
        ExprNode::TypeCast {
            at,
            operand,
            written,
        } => number_typed(at, operand, written, first),
        ExprNode::Conditional {
            at,
            condition,
            then_value,
            else_value,
        } => {
            let next = number_place(at, first);
            let next = number_expr(condition, next);
            let next = number_expr(then_value, next);
            number_expr(else_value, next)
        }
        ExprNode::Assignment {
            at,
            target,
            value,
            ..
        } => number_two(at, target, value, first),
        ExprNode::Throw { at, value } => number_one(at, value, first),
        ExprNode::Cascade {
            at,
            receiver,
            section,
            ..
        } => number_two(at, receiver, section, first),
        ExprNode::CascadedName { at, .. } => number_place(at, first),
        ExprNode::CascadedIndex { at, index, .. } => number_one(at, index, first),
    }
}

/// Numbers a node with one expression in it.
#[cycle(number)]
fn number_one(at: &mut Place, inner: &mut Expr, first: u32) -> u32
    requires { first + 1 + nodes_in inner.old < 2 ^ 32 }
    ensures place { at.new ≡ place_numbered first at.old }
    ensures inner { inner.new ≡ numbered (first + 1) inner.old }
    ensures next { result ≡ first + 1 + nodes_in inner.old }
{
    let next = number_place(at, first);
    number_expr(inner, next)
}

/// Numbers a node with two expressions in it.
#[cycle(number)]
fn number_two(at: &mut Place, left: &mut Expr, right: &mut Expr, first: u32) -> u32
    requires { first + 1 + nodes_in left.old + nodes_in right.old < 2 ^ 32 }
    ensures place { at.new ≡ place_numbered first at.old }
    ensures left { left.new ≡ numbered (first + 1) left.old }
    ensures right { right.new ≡ numbered (first + 1 + nodes_in left.old) right.old }
    ensures next { result ≡ first + 1 + nodes_in left.old + nodes_in right.old }
{
    let next = number_place(at, first);
    let next = number_expr(left, next);
    number_expr(right, next)
}

/// Numbers a node with an expression and a type in it.
#[cycle(number)]
fn number_typed(at: &mut Place, operand: &mut Expr, written: &mut WrittenType, first: u32) -> u32
    requires { first + 1 + nodes_in operand.old + nodes_in written.old < 2 ^ 32 }
    ensures place { at.new ≡ place_numbered first at.old }
    ensures operand { operand.new ≡ numbered (first + 1) operand.old }
    ensures written { written.new ≡ numbered (first + 1 + nodes_in operand.old) written.old }
    ensures next { result ≡ first + 1 + nodes_in operand.old + nodes_in written.old }
{
    let next = number_place(at, first);
    let next = number_expr(operand, next);
    number_written_type(written, next)
}

/// Numbers the nodes of expressions, one after the other.
#[cycle(number)]
pub(crate) fn number_exprs(exprs: &mut [Expr], first: u32) -> u32
    requires { first + nodes_in_all (trees_of exprs.old) < 2 ^ 32 }
    ensures trees { trees_of exprs.new ≡ all_numbered first (trees_of exprs.old) }
    ensures next { result ≡ first + nodes_in_all (trees_of exprs.old) }
{
    let mut next = first;
    for item in exprs.iter_mut() {
        next = number_expr(item, next);
    }
    next
}

/// So of one that may be left out.
#[cycle(number)]
pub(crate) fn number_optional_expr(expr: &mut Option<Expr>, first: u32) -> u32
    requires { first + nodes_in_part (part_of expr.old) < 2 ^ 32 }
    ensures part { part_of expr.new ≡ part_numbered first (part_of expr.old) }
    ensures next { result ≡ first + nodes_in_part (part_of expr.old) }
{
    match expr {
        None => first,
        Some(tree) => number_expr(tree, first),
    }
}

/// Numbers a string's nodes from `first` on, and answers the number after the last.
#[cycle(number)]
pub(crate) fn number_string(string: &mut StringLiteral, first: u32) -> u32
    requires { first + nodes_in string.old < 2 ^ 32 }
    ensures tree { string.new ≡ numbered first string.old }
    ensures next { result ≡ first + nodes_in string.old }
{
    match &mut string.node {
        StringLiteralNode::Simple { at, .. } => number_place(at, first),
        StringLiteralNode::Interpolated { at, elements } => {
            let next = number_place(at, first);
            number_string_elements(elements.as_mut_slice(), next)
        }
    }
}

/// Numbers the nodes of strings, one after the other.
#[cycle(number)]
fn number_strings(strings: &mut [StringLiteral], first: u32) -> u32
    requires { first + nodes_in_all (trees_of strings.old) < 2 ^ 32 }
    ensures trees { trees_of strings.new ≡ all_numbered first (trees_of strings.old) }
    ensures next { result ≡ first + nodes_in_all (trees_of strings.old) }
{
    let mut next = first;
    for item in strings.iter_mut() {
        next = number_string(item, next);
    }
    next
}

/// Numbers the nodes from `first` on, and answers the number after the last.
#[cycle(number)]
fn number_string_element(string_element: &mut StringElement, first: u32) -> u32
    requires { first + nodes_in string_element.old < 2 ^ 32 }
    ensures tree { string_element.new ≡ numbered first string_element.old }
    ensures next { result ≡ first + nodes_in string_element.old }
{
    match &mut string_element.node {
        StringElementNode::Text { at, .. } => number_place(at, first),
        StringElementNode::Interpolation { at, value } => {
            let next = number_place(at, first);
            number_expr(value, next)
        }
    }
}

/// Numbers the nodes of parts of a string, one after the other.
#[cycle(number)]
fn number_string_elements(string_elements: &mut [StringElement], first: u32) -> u32
    requires { first + nodes_in_all (trees_of string_elements.old) < 2 ^ 32 }
    ensures trees { trees_of string_elements.new ≡ all_numbered first (trees_of string_elements.old) }
    ensures next { result ≡ first + nodes_in_all (trees_of string_elements.old) }
{
    let mut next = first;
    for item in string_elements.iter_mut() {
        next = number_string_element(item, next);
    }
    next
}

/// Numbers an entry's nodes from `first` on, and answers the number after the last.
#[cycle(number)]
fn number_entry(entry: &mut MapEntry, first: u32) -> u32
    requires { first + nodes_in entry.old < 2 ^ 32 }
    ensures tree { entry.new ≡ numbered first entry.old }
    ensures next { result ≡ first + nodes_in entry.old }
{
    let next = number_place(&mut entry.at, first);
    let next = number_expr(&mut entry.key, next);
    number_optional_expr(&mut entry.value, next)
}

/// Numbers the nodes of entries, one after the other.
#[cycle(number)]
fn number_entries(entries: &mut [MapEntry], first: u32) -> u32
    requires { first + nodes_in_all (trees_of entries.old) < 2 ^ 32 }
    ensures trees { trees_of entries.new ≡ all_numbered first (trees_of entries.old) }
    ensures next { result ≡ first + nodes_in_all (trees_of entries.old) }
{
    let mut next = first;
    for item in entries.iter_mut() {
        next = number_entry(item, next);
    }
    next
}

/// Numbers an argument list's nodes from `first` on, and answers the number after the last.
#[cycle(number)]
pub(crate) fn number_argument_list(argument_list: &mut ArgumentList, first: u32) -> u32
    requires { first + nodes_in argument_list.old < 2 ^ 32 }
    ensures tree { argument_list.new ≡ numbered first argument_list.old }
    ensures next { result ≡ first + nodes_in argument_list.old }
{
    let ArgumentListNode { at, arguments } = &mut *argument_list.node;
    let next = number_place(at, first);
    number_arguments(arguments.as_mut_slice(), next)
}

/// Numbers an argument's nodes from `first` on, and answers the number after the last.
#[cycle(number)]
fn number_argument(argument: &mut Argument, first: u32) -> u32
    requires { first + nodes_in argument.old < 2 ^ 32 }
    ensures tree { argument.new ≡ numbered first argument.old }
    ensures next { result ≡ first + nodes_in argument.old }
{
    let next = number_place(&mut argument.at, first);
    number_expr(&mut argument.value, next)
}

/// Numbers the nodes of arguments, one after the other.
#[cycle(number)]
fn number_arguments(arguments: &mut [Argument], first: u32) -> u32
    requires { first + nodes_in_all (trees_of arguments.old) < 2 ^ 32 }
    ensures trees { trees_of arguments.new ≡ all_numbered first (trees_of arguments.old) }
    ensures next { result ≡ first + nodes_in_all (trees_of arguments.old) }
{
    let mut next = first;
    for item in arguments.iter_mut() {
        next = number_argument(item, next);
    }
    next
}

/// Numbers a parameter list's nodes from `first` on, and answers the number after the last.
#[cycle(number)]
pub(crate) fn number_parameter_list(parameter_list: &mut ParameterList, first: u32) -> u32
    requires { first + nodes_in parameter_list.old < 2 ^ 32 }
    ensures tree { parameter_list.new ≡ numbered first parameter_list.old }
    ensures next { result ≡ first + nodes_in parameter_list.old }
{
    let next = number_place(&mut parameter_list.at, first);
    number_parameters(parameter_list.parameters.as_mut_slice(), next)
}

/// Numbers a parameter's nodes from `first` on, and answers the number after the last.
#[cycle(number)]
fn number_parameter(parameter: &mut Parameter, first: u32) -> u32
    requires { first + nodes_in parameter.old < 2 ^ 32 }
    ensures tree { parameter.new ≡ numbered first parameter.old }
    ensures next { result ≡ first + nodes_in parameter.old }
{
    let next = number_place(&mut parameter.at, first);
    let next = number_annotations(parameter.metadata.as_mut_slice(), next);
    let next = number_optional_written_type(&mut parameter.written, next);
    let next = number_name(&mut parameter.name, next);
    number_optional_expr(&mut parameter.default_value, next)
}

/// Numbers the nodes of parameters, one after the other.
#[cycle(number)]
fn number_parameters(parameters: &mut [Parameter], first: u32) -> u32
    requires { first + nodes_in_all (trees_of parameters.old) < 2 ^ 32 }
    ensures trees { trees_of parameters.new ≡ all_numbered first (trees_of parameters.old) }
    ensures next { result ≡ first + nodes_in_all (trees_of parameters.old) }
{
    let mut next = first;
    for item in parameters.iter_mut() {
        next = number_parameter(item, next);
    }
    next
}

/// Numbers a body's nodes from `first` on, and answers the number after the last.
#[cycle(number)]
pub(crate) fn number_body(body: &mut Body, first: u32) -> u32
    requires { first + nodes_in body.old < 2 ^ 32 }
    ensures tree { body.new ≡ numbered first body.old }
    ensures next { result ≡ first + nodes_in body.old }
{
    match &mut body.node {
        BodyNode::Block { at, statements } => {
            let next = number_place(at, first);
            number_stmts(statements.as_mut_slice(), next)
        }
        BodyNode::Expression { at, value } => {
            let next = number_place(at, first);
            number_expr(value, next)
        }
        BodyNode::Empty { at } => number_place(at, first),
        BodyNode::Native { at } => number_place(at, first),
    }
}

/// Numbers a function's nodes from `first` on, and answers the number after the last.
#[cycle(number)]
pub(crate) fn number_function(function: &mut Function, first: u32) -> u32
    requires { first + nodes_in function.old < 2 ^ 32 }
    ensures tree { function.new ≡ numbered first function.old }
    ensures next { result ≡ first + nodes_in function.old }
{
    match &mut *function.node {
        FunctionNode::Getter {
            at,
            result,
            name,
            body,
        } => {
            let next = number_place(at, first);
            let next = number_optional_written_type(result, next);
            let next = number_name(name, next);
            number_body(body, next)
        }
        FunctionNode::Setter {
            at,
            result,
            name,
            parameters,
            body,
        } => {
            let next = number_place(at, first);
            let next = number_optional_written_type(result, next);
            let next = number_name(name, next);
            let next = number_parameter_list(parameters, next);
            number_body(body, next)
        }
        FunctionNode::Plain {
            at,
            result,
            name,
            type_parameters,
            parameters,
            body,
        } => {
            let next = number_place(at, first);
            let next = number_optional_written_type(result, next);
            let next = number_name(name, next);
            let next = number_type_parameters(type_parameters.as_mut_slice(), next);
            let next = number_parameter_list(parameters, next);
            number_body(body, next)
        }
    }
}

/// Numbers a variable list's nodes from `first` on, and answers the number after the last.
#[cycle(number)]
pub(crate) fn number_variable_list(variable_list: &mut VariableList, first: u32) -> u32
    requires { first + nodes_in variable_list.old < 2 ^ 32 }
    ensures tree { variable_list.new ≡ numbered first variable_list.old }
    ensures next { result ≡ first + nodes_in variable_list.old }
{
    let next = number_place(&mut variable_list.at, first);
    let next = number_optional_written_type(&mut variable_list.written, next);
    number_variables(variable_list.variables.as_mut_slice(), next)
}

/// Numbers a variable's nodes from `first` on, and answers the number after the last.
#[cycle(number)]
fn number_variable(variable: &mut Variable, first: u32) -> u32
    requires { first + nodes_in variable.old < 2 ^ 32 }
    ensures tree { variable.new ≡ numbered first variable.old }
    ensures next { result ≡ first + nodes_in variable.old }
{
    let next = number_place(&mut variable.at, first);
    let next = number_name(&mut variable.name, next);
    number_optional_expr(&mut variable.initializer, next)
}

/// Numbers the nodes of variables, one after the other.
#[cycle(number)]
fn number_variables(variables: &mut [Variable], first: u32) -> u32
    requires { first + nodes_in_all (trees_of variables.old) < 2 ^ 32 }
    ensures trees { trees_of variables.new ≡ all_numbered first (trees_of variables.old) }
    ensures next { result ≡ first + nodes_in_all (trees_of variables.old) }
{
    let mut next = first;
    for item in variables.iter_mut() {
        next = number_variable(item, next);
    }
    next
}
