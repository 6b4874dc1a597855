//! What a text of Dart reads as.

ghost use Rattle.std.specs.Prelude.{◌≡◌, true};
ghost use Rattle.std.specs.List.Sorted.{IsNonDecreasingBy};

use dart_scan::scan_grouped;
use dart_text::{Text, TextRefusal};
use dart_tokens::Words;
use grammar::Token;
use parse_expr::{parse_expression, parse_statement};
use std::alloc::{AllocError, Global};
use tree_notation::{expression_text, statement_text};

/// Each token begins where the one before it does, or later.
#[tactic(auto, using(crate::proofs::Orders::in_order_next, crate::proofs::Orders::in_order_at_end))]
pub(crate) fn are_in_order(tokens: &[Token]) -> bool
    ensures { result ≡ true → IsNonDecreasingBy (λ t. t.start) tokens.now }
{
    for place in 1..tokens.len() {
        if tokens[place].start < tokens[place - 1].start {
            return false;
        }
    }
    true
}

/// A notation, and ` ..` behind it where tokens are left.
fn with_rest(text: String, is_all: bool) -> Result<String, AllocError> {
    let mut text = text;
    text.push_str(if is_all { "" } else { " .." })?;
    Ok(text)
}

/// The notation of the statement that the tokens begin with, if there is one, with its root at a depth.
fn statement(
    alloc: Global,
    words: &Words,
    tokens: &[Token],
    depth: u32,
) -> Result<Option<String>, AllocError>
    requires ordered { IsNonDecreasingBy (λ t. t.start) tokens.now }
{
    match parse_statement(alloc, tokens, 0, depth)? {
        Some((found, behind)) => {
            let text = statement_text(alloc, words, &found)?;
            Ok(Some(with_rest(text, behind == tokens.len())?))
        }
        None => Ok(None),
    }
}

/// The notation of the expression that the tokens begin with, if there is one, with its root at a depth.
fn expression(
    alloc: Global,
    words: &Words,
    tokens: &[Token],
    depth: u32,
) -> Result<Option<String>, AllocError>
    requires ordered { IsNonDecreasingBy (λ t. t.start) tokens.now }
{
    match parse_expression(alloc, tokens, 0, depth)? {
        Some((found, behind)) => {
            let text = expression_text(alloc, words, &found)?;
            Ok(Some(with_rest(text, behind == tokens.len())?))
        }
        None => Ok(None),
    }
}

/// The notation of the statement that a text begins with, or else of the expression, or else `none`,
/// with its root at a depth, and ` ..` behind it where tokens are left. The errors are a text that is
/// too long, and want of memory.
pub fn read(alloc: Global, text: &str, depth: u32) -> Result<String, TextRefusal> {
    let text = Text::from_str(alloc, text)?;
    let scanned = scan_grouped(alloc, &text)?;
    let tokens = scanned.tokens.read();
    if !are_in_order(tokens) {
        return Ok(String::from_str(alloc, "out of order")?);
    }
    if let Some(text) = statement(alloc, &scanned.words, tokens, depth)? {
        return Ok(text);
    }
    match expression(alloc, &scanned.words, tokens, depth)? {
        Some(text) => Ok(text),
        None => Ok(String::from_str(alloc, "none")?),
    }
}
