//! Types, and the parameters of functions: `T`, `p.T`, `T<A B>?`, `(function R <X B> (A a, B) [b T = e]?)`.

use crate::pieces::Pieces;
use dart_tree::{
    Parameter, ParameterKind, ParameterType, TypeArguments, TypeParameter, WrittenType,
    WrittenTypeNode,
};
use std::alloc::AllocError;

/// Writes a type.
pub fn written_type<'t>(out: &mut Pieces<'t>, written: &'t WrittenType) -> Result<(), AllocError> {
    match &*written.node {
        WrittenTypeNode::Void { .. } => out.text("void"),
        WrittenTypeNode::Named { .. } => named_type(out, &*written.node),
        WrittenTypeNode::Function { .. } => function_type(out, &*written.node),
    }
}

/// Writes a type that has a name.
fn named_type<'t>(out: &mut Pieces<'t>, node: &'t WrittenTypeNode) -> Result<(), AllocError> {
    let WrittenTypeNode::Named {
        prefix,
        name,
        arguments,
        nullable,
        ..
    } = node
    else {
        return Ok(());
    };
    if let Some(prefix) = prefix {
        out.word(prefix.word)?;
        out.text(".")?;
    }
    out.word(name.word)?;
    if let Some(arguments) = arguments {
        type_arguments(out, arguments)?;
    }
    out.text_if(*nullable, "?")
}

/// Writes the type of a function.
fn function_type<'t>(out: &mut Pieces<'t>, node: &'t WrittenTypeNode) -> Result<(), AllocError> {
    let WrittenTypeNode::Function {
        result,
        parts,
        nullable,
        ..
    } = node
    else {
        return Ok(());
    };
    out.text("(function")?;
    if let Some(result) = result {
        out.text(" ")?;
        out.written(result)?;
    }
    type_parameters(out, parts.type_parameters.as_slice())?;
    parameter_types(out, parts.parameters.as_slice())?;
    parameters_of(out, parts.optional.as_slice())?;
    out.text(if *nullable { "?)" } else { ")" })
}

/// Writes type arguments.
pub fn type_arguments<'t>(
    out: &mut Pieces<'t>,
    arguments: &'t TypeArguments,
) -> Result<(), AllocError> {
    out.text("<")?;
    let mut is_first = true;
    for each in arguments.node.types.iter() {
        out.text_if(!is_first, " ")?;
        is_first = false;
        out.written(each)?;
    }
    out.text(">")
}

/// Writes type arguments behind a blank, where there are some.
pub fn optional_type_arguments<'t>(
    out: &mut Pieces<'t>,
    arguments: &'t Option<TypeArguments>,
) -> Result<(), AllocError> {
    match arguments {
        Some(arguments) => {
            out.text(" ")?;
            type_arguments(out, arguments)
        }
        None => Ok(()),
    }
}

/// Writes type parameters with their bounds.
pub fn type_parameters<'t>(
    out: &mut Pieces<'t>,
    parameters: &'t [TypeParameter],
) -> Result<(), AllocError> {
    for each in parameters.iter() {
        out.text(" ")?;
        out.range(each.at)?;
        out.text("<")?;
        out.word(each.name.word)?;
        out.optional_type(&each.bound)?;
        out.text(">")?;
    }
    Ok(())
}

/// Writes the required parameters of a function type.
fn parameter_types<'t>(
    out: &mut Pieces<'t>,
    parameters: &'t [ParameterType],
) -> Result<(), AllocError> {
    out.text(" (")?;
    let mut is_first = true;
    for each in parameters.iter() {
        out.text_if(!is_first, ", ")?;
        is_first = false;
        out.written(&each.written)?;
        out.optional_name(&each.name)?;
    }
    out.text(")")
}

/// Writes parameters, each in the brackets of its kind: its words, its name, its type and its default.
pub fn parameters_of<'t>(
    out: &mut Pieces<'t>,
    parameters: &'t [Parameter],
) -> Result<(), AllocError> {
    for each in parameters.iter() {
        let (opening, closing) = match each.kind {
            ParameterKind::Positional => ("(", ")"),
            ParameterKind::OptionalPositional => ("[", "]"),
            ParameterKind::Named => ("{", "}"),
        };
        out.text(" ")?;
        out.range(each.at)?;
        out.text(opening)?;
        parameter(out, each)?;
        out.text(closing)?;
    }
    Ok(())
}

/// Writes a parameter without its brackets.
fn parameter<'t>(out: &mut Pieces<'t>, parameter: &'t Parameter) -> Result<(), AllocError> {
    for each in parameter.metadata.iter() {
        out.text("@")?;
        out.word(each.name.word)?;
        out.text(" ")?;
    }
    out.text_if(parameter.is_required, "required ")?;
    out.text_if(parameter.is_final, "final ")?;
    out.text_if(parameter.is_field, "this.")?;
    out.word(parameter.name.word)?;
    out.optional_type(&parameter.written)?;
    if let Some(value) = &parameter.default_value {
        out.text(" =")?;
        out.spaced_expression(value)?;
    }
    Ok(())
}
