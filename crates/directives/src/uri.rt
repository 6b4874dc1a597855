//! The URIs of directives.

ghost use Rattle.std.specs.Prelude.{◌≡◌, IfOk};
ghost use Rattle.directives.specs.Uris.{text_of_units, uri_of, uri_text, word_at};

use dart_scan::string_value;
use dart_tree::{Span, StringLiteral, StringLiteralNode};
use plain_text::PlainText;
use std::alloc::{AllocError, Global};

/// The URI of a directive.
#[derive(Drop)]
pub struct Uri {
    /// Where its string stands.
    pub span: Span,
    /// The text that the string stands for. A string with interpolations stands for none, and so does
    /// one with half of a surrogate pair.
    pub text: Option<PlainText>,
}

/// The letters of the word at a place.
pub(crate) fn word_at(words: &[PlainText], word: u32) -> &str
    ensures { result.now ≡ word_at words.now word }
{
    match words.get(word as usize) {
        Some(text) => text.as_str(),
        None => "",
    }
}

/// The text that UTF-16 code units spell, if they spell one.
fn text_of_units(alloc: Global, units: &[u16]) -> Result<Option<PlainText>, AllocError>
    ensures { IfOk result (λ text. text ≡ text_of_units units.now) }
{
    match String::from_utf16(alloc, units)? {
        Ok(text) => Ok(Some(PlainText::from_string(text))),
        Err(_) => Ok(None),
    }
}

/// The text that the string of a directive stands for.
fn uri_text(
    alloc: Global,
    words: &[PlainText],
    literal: &StringLiteral,
) -> Result<Option<PlainText>, AllocError>
    ensures { IfOk result (λ text. text ≡ uri_text words.now literal.now) }
{
    match &literal.node {
        StringLiteralNode::Simple { kind, word, .. } => {
            let units = string_value(alloc, *kind, word_at(words, *word))?;
            text_of_units(alloc, units.as_slice())
        }
        StringLiteralNode::Interpolated { .. } => Ok(None),
    }
}

/// The URI that a string says.
pub(crate) fn uri_of(
    alloc: Global,
    words: &[PlainText],
    literal: &StringLiteral,
) -> Result<Uri, AllocError>
    ensures { IfOk result (λ uri. uri ≡ uri_of words.now literal.now) }
{
    let text = uri_text(alloc, words, literal)?;
    Ok(Uri {
        span: literal.place().span,
        text,
    })
}
