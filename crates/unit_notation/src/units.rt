//! Whole texts, and each of their items by its form.

use crate::declarations::{declaration, marked};
use crate::directives::directive;
use dart_tokens::Words;
use dart_tree::{Item, ItemNode, ReadItem, UnitTree};
use std::alloc::{AllocError, Global};
use tree_notation::{Pieces, Ranges, function, text_of, variables};

/// Writes a directive or a declaration.
fn item<'t>(out: &mut Pieces<'t>, item: &'t Item) -> Result<(), AllocError> {
    out.range(item.place())?;
    let ItemNode::Read(node) = &item.node else {
        return out.text("(error)");
    };
    match &**node {
        ReadItem::Function {
            metadata,
            function: declared,
            ..
        } => {
            marked(out, metadata.as_slice())?;
            function(out, declared)
        }
        ReadItem::Variables {
            metadata,
            variables: declared,
            ..
        } => {
            marked(out, metadata.as_slice())?;
            variables(out, declared)
        }
        ReadItem::Class { .. } | ReadItem::Mixin { .. } | ReadItem::TypeAlias { .. } => {
            declaration(out, node)
        }
        other => directive(out, other),
    }
}

/// The notation of the tree of a text, with its words, and with ranges or without. The error is want of
/// memory.
pub fn unit_text(
    alloc: Global,
    words: &Words,
    tree: &UnitTree,
    ranges: Ranges,
) -> Result<String, AllocError> {
    let mut pieces = Pieces::new(alloc);
    pieces.range(tree.at)?;
    let mut is_first = true;
    for each in tree.items.iter() {
        pieces.text_if(!is_first, " ")?;
        is_first = false;
        item(&mut pieces, each)?;
    }
    text_of(alloc, words, &pieces, ranges)
}
