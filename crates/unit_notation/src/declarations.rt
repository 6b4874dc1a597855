//! Declarations with members: `@o (abstract class C <X T> extends S with M implements I J {..})`, and
//! names of types: `(typedef T A)`.

use crate::members::member;
use dart_tree::{Annotation, Member, ReadItem, WrittenType};
use std::alloc::AllocError;
use tree_notation::{Pieces, type_parameters};

/// Writes a class, a mixin or a name of a type.
pub fn declaration<'t>(out: &mut Pieces<'t>, node: &'t ReadItem) -> Result<(), AllocError> {
    match node {
        ReadItem::Class { .. } => class(out, node),
        ReadItem::Mixin { .. } => mixin(out, node),
        ReadItem::TypeAlias { .. } => type_alias(out, node),
        _ => out.text("<unknown>"),
    }
}

/// Writes annotations, each before a blank.
pub fn marked<'t>(out: &mut Pieces<'t>, metadata: &'t [Annotation]) -> Result<(), AllocError> {
    for each in metadata.iter() {
        out.range(each.at)?;
        out.text("@")?;
        out.word(each.name.word)?;
        out.text(" ")?;
    }
    Ok(())
}

/// Writes a class.
fn class<'t>(out: &mut Pieces<'t>, node: &'t ReadItem) -> Result<(), AllocError> {
    let ReadItem::Class {
        metadata,
        is_abstract,
        name,
        type_parameters: variables,
        superclass,
        mixins,
        interfaces,
        members,
        ..
    } = node
    else {
        return Ok(());
    };
    marked(out, metadata.as_slice())?;
    out.text(if *is_abstract {
        "(abstract class"
    } else {
        "(class"
    })?;
    out.spaced_word(name.word)?;
    type_parameters(out, variables.as_slice())?;
    out.text_if(superclass.is_some(), " extends")?;
    out.optional_type(superclass)?;
    types_behind(out, " with", mixins.as_slice())?;
    types_behind(out, " implements", interfaces.as_slice())?;
    members_of(out, members.as_slice())?;
    out.text(")")
}

/// Writes a mixin.
fn mixin<'t>(out: &mut Pieces<'t>, node: &'t ReadItem) -> Result<(), AllocError> {
    let ReadItem::Mixin {
        metadata,
        name,
        type_parameters: variables,
        constraints,
        interfaces,
        members,
        ..
    } = node
    else {
        return Ok(());
    };
    marked(out, metadata.as_slice())?;
    out.text("(mixin")?;
    out.spaced_word(name.word)?;
    type_parameters(out, variables.as_slice())?;
    types_behind(out, " on", constraints.as_slice())?;
    types_behind(out, " implements", interfaces.as_slice())?;
    members_of(out, members.as_slice())?;
    out.text(")")
}

/// Writes the name of a type.
fn type_alias<'t>(out: &mut Pieces<'t>, node: &'t ReadItem) -> Result<(), AllocError> {
    let ReadItem::TypeAlias {
        metadata,
        name,
        written,
        ..
    } = node
    else {
        return Ok(());
    };
    marked(out, metadata.as_slice())?;
    out.text("(typedef")?;
    out.spaced_word(name.word)?;
    out.text(" ")?;
    out.written(written)?;
    out.text(")")
}

/// Writes a word and types, each behind a blank, where there are some.
fn types_behind<'t>(
    out: &mut Pieces<'t>,
    word: &'static str,
    types: &'t [WrittenType],
) -> Result<(), AllocError> {
    out.text_if(!types.is_empty(), word)?;
    for each in types.iter() {
        out.text(" ")?;
        out.written(each)?;
    }
    Ok(())
}

/// Writes members in braces, with blanks between them, behind a blank.
fn members_of<'t>(out: &mut Pieces<'t>, members: &'t [Member]) -> Result<(), AllocError> {
    out.text(" {")?;
    let mut is_first = true;
    for each in members.iter() {
        out.text_if(!is_first, " ")?;
        is_first = false;
        member(out, each)?;
    }
    out.text("}")
}
