//! Imports of dart:core that may leave names of it out.

ghost use Rattle.std.specs.Prelude.{◌≡◌, [], slice_index_or, IfOk};
ghost use Rattle.dart_tree.specs.Tree.{absent, part_of, trees_of};
ghost use Rattle.built_forms.specs.CoreImports.{says_core, brings_all, narrows, narrows_core};

use dart_scan::string_value;
use dart_tree::{
    Combinator, Item, ItemNode, ListedName, ReadItem, StringLiteral, StringLiteralNode,
};
use plain_text::PlainText;
use std::alloc::{AllocError, Global};

/// `dart:core`, in UTF-16 code units.
const CORE: [u16; 9] = [
    b'd' as u16,
    b'a' as u16,
    b'r' as u16,
    b't' as u16,
    b':' as u16,
    b'c' as u16,
    b'o' as u16,
    b'r' as u16,
    b'e' as u16,
];

/// The letters of the word at a place.
fn word_at(words: &[PlainText], word: u32) -> &str
    ensures { result.now ≡ slice_index_or words.now word [] }
{
    match words.get(word as usize) {
        Some(text) => text.as_str(),
        None => "",
    }
}

/// Whether the value of a string is `dart:core`.
fn says_core(
    alloc: Global,
    words: &[PlainText],
    literal: &StringLiteral,
) -> Result<bool, AllocError>
    ensures { IfOk result (λ said. said ≡ says_core words.now literal.now) }
{
    match &literal.node {
        StringLiteralNode::Simple { kind, word, .. } => {
            let value = string_value(alloc, *kind, word_at(words, *word))?;
            Ok(value.as_slice() == CORE.as_slice())
        }
        StringLiteralNode::Interpolated { .. } => Ok(false),
    }
}

/// Whether an import without a prefix brings all names: it has no combinators.
fn no_combinators(combinators: &[Combinator]) -> bool
    ensures { result ≡ brings_all absent (trees_of combinators.now) }
{
    combinators.is_empty()
}

/// Whether an import brings all names as they are: it has no prefix and no combinators.
fn brings_all(prefix: &Option<ListedName>, combinators: &[Combinator]) -> bool
    ensures { result ≡ brings_all (part_of prefix.now) (trees_of combinators.now) }
{
    match prefix {
        None => no_combinators(combinators),
        Some(_) => false,
    }
}

/// Whether an item is an import of dart:core that may leave names of it out.
fn narrows(alloc: Global, words: &[PlainText], item: &Item) -> Result<bool, AllocError>
    ensures { IfOk result (λ narrow. narrow ≡ narrows words.now item.now) }
{
    let ItemNode::Read(node) = &item.node else {
        return Ok(false);
    };
    match &**node {
        ReadItem::Import {
            uri,
            prefix,
            combinators,
            ..
        } => {
            if brings_all(prefix, combinators) {
                return Ok(false);
            }
            says_core(alloc, words, uri)
        }
        _ => Ok(false),
    }
}

/// Whether one of these is such an import.
pub(crate) fn narrows_core(
    alloc: Global,
    words: &[PlainText],
    items: &[Item],
) -> Result<bool, AllocError>
    ensures { IfOk result (λ narrow. narrow ≡ narrows_core words.now (trees_of items.now)) }
{
    for item in items {
        if narrows(alloc, words, item)? {
            return Ok(true);
        }
    }
    Ok(false)
}
