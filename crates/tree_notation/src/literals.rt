//! Literals, and what makes a value of others: strings, collections, closures, new objects, arguments.

use crate::functions::body_of;
use crate::pieces::Pieces;
use crate::types::{optional_type_arguments, parameters_of, type_arguments};
use dart_tree::{
    Argument, ArgumentList, ExprNode, MapEntry, StringElement, StringElementNode, StringLiteral,
    StringLiteralNode,
};
use std::alloc::AllocError;

/// Writes a literal, a new object or a generic name: the last forms that an expression may have.
pub fn literal<'t>(out: &mut Pieces<'t>, node: &'t ExprNode) -> Result<(), AllocError> {
    match node {
        ExprNode::Text { strings, .. } => strings_of(out, strings.as_slice()),
        ExprNode::New { .. } => new_object(out, node),
        ExprNode::List { .. } => list(out, node),
        ExprNode::SetOrMap { .. } => set_or_map(out, node),
        ExprNode::Function { .. } => closure(out, node),
        ExprNode::GenericIdentifier { .. } => generic_name(out, node),
        _ => out.text("<unknown>"),
    }
}

/// Writes strings side by side.
fn strings_of<'t>(out: &mut Pieces<'t>, strings: &'t [StringLiteral]) -> Result<(), AllocError> {
    let mut is_first = true;
    for each in strings.iter() {
        out.text_if(!is_first, "+")?;
        is_first = false;
        string(out, each)?;
    }
    Ok(())
}

/// Writes a string: as it stands, or with its interpolations.
pub fn string<'t>(out: &mut Pieces<'t>, string: &'t StringLiteral) -> Result<(), AllocError> {
    out.range(string.place())?;
    match &string.node {
        StringLiteralNode::Simple { word, .. } => out.word(*word),
        StringLiteralNode::Interpolated { elements, .. } => {
            out.text("(string")?;
            for each in elements.iter() {
                string_element(out, each)?;
            }
            out.text(")")
        }
    }
}

/// Writes a text or an interpolation of a string, behind a blank.
fn string_element<'t>(out: &mut Pieces<'t>, element: &'t StringElement) -> Result<(), AllocError> {
    match &element.node {
        StringElementNode::Text { word, .. } => out.spaced_word(*word),
        StringElementNode::Interpolation { value, .. } => out.spaced_expression(value),
    }
}

/// Writes a new object.
fn new_object<'t>(out: &mut Pieces<'t>, node: &'t ExprNode) -> Result<(), AllocError> {
    let ExprNode::New {
        written,
        name,
        arguments,
        ..
    } = node
    else {
        return Ok(());
    };
    out.text("(new ")?;
    out.written(written)?;
    if let Some(name) = name {
        out.text(" .")?;
        out.word(name.word)?;
    }
    arguments_of(out, arguments)?;
    out.text(")")
}

/// Writes a list.
fn list<'t>(out: &mut Pieces<'t>, node: &'t ExprNode) -> Result<(), AllocError> {
    let ExprNode::List {
        type_arguments,
        elements,
        ..
    } = node
    else {
        return Ok(());
    };
    out.text("(list")?;
    optional_type_arguments(out, type_arguments)?;
    out.expressions(elements.as_slice())?;
    out.text(")")
}

/// Writes a set or a map.
fn set_or_map<'t>(out: &mut Pieces<'t>, node: &'t ExprNode) -> Result<(), AllocError> {
    let ExprNode::SetOrMap {
        type_arguments,
        entries,
        ..
    } = node
    else {
        return Ok(());
    };
    out.text("(map")?;
    optional_type_arguments(out, type_arguments)?;
    for each in entries.iter() {
        entry(out, each)?;
    }
    out.text(")")
}

/// Writes an entry of a set or a map, behind a blank.
fn entry<'t>(out: &mut Pieces<'t>, entry: &'t MapEntry) -> Result<(), AllocError> {
    let Some(value) = &entry.value else {
        return out.spaced_expression(&entry.key);
    };
    out.text(" (:")?;
    out.spaced_expression(&entry.key)?;
    out.spaced_expression(value)?;
    out.text(")")
}

/// Writes a closure.
fn closure<'t>(out: &mut Pieces<'t>, node: &'t ExprNode) -> Result<(), AllocError> {
    let ExprNode::Function {
        parameters,
        body,
        ..
    } = node
    else {
        return Ok(());
    };
    out.text("(closure")?;
    parameters_of(out, parameters.parameters.as_slice())?;
    body_of(out, body)?;
    out.text(")")
}

/// Writes a name with type arguments.
fn generic_name<'t>(out: &mut Pieces<'t>, node: &'t ExprNode) -> Result<(), AllocError> {
    let ExprNode::GenericIdentifier {
        name,
        type_arguments: arguments,
        ..
    } = node
    else {
        return Ok(());
    };
    out.word(name.word)?;
    type_arguments(out, arguments)
}

/// Writes arguments, each behind a blank.
pub fn arguments_of<'t>(out: &mut Pieces<'t>, list: &'t ArgumentList) -> Result<(), AllocError> {
    for each in list.node.arguments.iter() {
        argument(out, each)?;
    }
    Ok(())
}

/// Writes an argument behind a blank, with its name.
fn argument<'t>(out: &mut Pieces<'t>, argument: &'t Argument) -> Result<(), AllocError> {
    out.text(" ")?;
    if let Some(name) = &argument.name {
        out.word(name.word)?;
        out.text(":")?;
    }
    out.expression(&argument.value)
}
