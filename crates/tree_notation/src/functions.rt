//! Functions, bodies and variables: `(function T f <X> (x int) {..})`, `(final T a=e b)`.

use crate::pieces::Pieces;
use crate::types::{parameters_of, type_parameters};
use dart_tree::{Body, BodyNode, Function, FunctionNode, VariableList};
use std::alloc::AllocError;

/// Writes a body behind a blank.
pub fn body_of<'t>(out: &mut Pieces<'t>, body: &'t Body) -> Result<(), AllocError> {
    out.text(" ")?;
    out.range(body.place())?;
    match &body.node {
        BodyNode::Block { statements, .. } => out.block(statements.as_slice()),
        BodyNode::Expression { value, .. } => {
            out.text("=>")?;
            out.spaced_expression(value)
        }
        BodyNode::Empty { .. } => out.text(";"),
        BodyNode::Native { .. } => out.text("native"),
    }
}

/// Writes a function with its name.
pub fn function<'t>(out: &mut Pieces<'t>, function: &'t Function) -> Result<(), AllocError> {
    out.range(function.place())?;
    match &*function.node {
        FunctionNode::Getter { .. } => getter(out, &*function.node),
        FunctionNode::Setter { .. } => setter(out, &*function.node),
        FunctionNode::Plain { .. } => plain(out, &*function.node),
    }
}

/// Writes a getter.
fn getter<'t>(out: &mut Pieces<'t>, node: &'t FunctionNode) -> Result<(), AllocError> {
    let FunctionNode::Getter {
        result,
        name,
        body,
        ..
    } = node
    else {
        return Ok(());
    };
    out.text("(get")?;
    out.optional_type(result)?;
    out.spaced_word(name.word)?;
    body_of(out, body)?;
    out.text(")")
}

/// Writes a setter.
fn setter<'t>(out: &mut Pieces<'t>, node: &'t FunctionNode) -> Result<(), AllocError> {
    let FunctionNode::Setter {
        result,
        name,
        parameters,
        body,
        ..
    } = node
    else {
        return Ok(());
    };
    out.text("(set")?;
    out.optional_type(result)?;
    out.spaced_word(name.word)?;
    parameters_of(out, parameters.parameters.as_slice())?;
    body_of(out, body)?;
    out.text(")")
}

/// Writes any other function.
fn plain<'t>(out: &mut Pieces<'t>, node: &'t FunctionNode) -> Result<(), AllocError> {
    let FunctionNode::Plain {
        result,
        name,
        type_parameters: variables,
        parameters,
        body,
        ..
    } = node
    else {
        return Ok(());
    };
    out.text("(function")?;
    out.optional_type(result)?;
    out.spaced_word(name.word)?;
    type_parameters(out, variables.as_slice())?;
    parameters_of(out, parameters.parameters.as_slice())?;
    body_of(out, body)?;
    out.text(")")
}

/// Writes variables that are declared together.
pub fn variables<'t>(out: &mut Pieces<'t>, list: &'t VariableList) -> Result<(), AllocError> {
    out.range(list.at)?;
    out.text(if list.is_final { "(final" } else { "(var" })?;
    out.optional_type(&list.written)?;
    for each in list.variables.iter() {
        out.text(" ")?;
        out.range(each.at)?;
        out.word(each.name.word)?;
        if let Some(value) = &each.initializer {
            out.text("=")?;
            out.expression(value)?;
        }
    }
    out.text(")")
}
