//! Directives: `(library a.b)`, `(import 'u' as p (show a b) (hide c))`, `(part of a.b)`.

use dart_tree::{Combinator, CombinatorNode, ListedName, ReadItem, StringLiteral};
use std::alloc::AllocError;
use tree_notation::{Pieces, string};

/// Writes a directive: the last forms that an item may have.
pub fn directive<'t>(out: &mut Pieces<'t>, node: &'t ReadItem) -> Result<(), AllocError> {
    match node {
        ReadItem::Library { names, .. } => of_library(out, "(library ", names.as_slice()),
        ReadItem::Import { .. } => import(out, node),
        ReadItem::Export {
            uri,
            combinators,
            ..
        } => {
            out.text("(export ")?;
            string(out, uri)?;
            combinators_of(out, combinators.as_slice())?;
            out.text(")")
        }
        ReadItem::Part { uri, .. } => of_text(out, "(part ", uri),
        ReadItem::PartOf { uri, .. } => of_text(out, "(part of ", uri),
        ReadItem::PartOfLibrary { names, .. } => of_library(out, "(part of ", names.as_slice()),
        _ => out.text("<unknown>"),
    }
}

/// Writes a directive with a string.
fn of_text<'t>(
    out: &mut Pieces<'t>,
    head: &'static str,
    uri: &'t StringLiteral,
) -> Result<(), AllocError> {
    out.text(head)?;
    string(out, uri)?;
    out.text(")")
}

/// Writes a directive with the names of a library, with dots between them.
fn of_library<'t>(
    out: &mut Pieces<'t>,
    head: &'static str,
    names: &'t [ListedName],
) -> Result<(), AllocError> {
    out.text(head)?;
    let mut is_first = true;
    for each in names.iter() {
        out.text_if(!is_first, ".")?;
        is_first = false;
        out.range(each.at)?;
        out.word(each.word)?;
    }
    out.text(")")
}

/// Writes an import.
fn import<'t>(out: &mut Pieces<'t>, node: &'t ReadItem) -> Result<(), AllocError> {
    let ReadItem::Import {
        uri,
        prefix,
        combinators,
        ..
    } = node
    else {
        return Ok(());
    };
    out.text("(import ")?;
    string(out, uri)?;
    if let Some(prefix) = prefix {
        out.text(" as")?;
        listed(out, prefix)?;
    }
    combinators_of(out, combinators.as_slice())?;
    out.text(")")
}

/// Writes what brings some names alone, each behind a blank.
fn combinators_of<'t>(
    out: &mut Pieces<'t>,
    combinators: &'t [Combinator],
) -> Result<(), AllocError> {
    for each in combinators.iter() {
        out.text(" ")?;
        let (at, head, names) = match &each.node {
            CombinatorNode::Show { at, names } => (*at, "(show", names),
            CombinatorNode::Hide { at, names } => (*at, "(hide", names),
        };
        out.range(at)?;
        out.text(head)?;
        for name in names.iter() {
            listed(out, name)?;
        }
        out.text(")")?;
    }
    Ok(())
}

/// Writes a name behind a blank.
fn listed<'t>(out: &mut Pieces<'t>, name: &'t ListedName) -> Result<(), AllocError> {
    out.text(" ")?;
    out.range(name.at)?;
    out.word(name.word)
}
