//! The text of a unit.

ghost use Rattle.std.specs.Prelude.{◌≡◌, ◌++◌, ◌≤◌, IfOk, OnOk, drop, length, string_bytes};
ghost use Rattle.tree_print.specs.Printed.{adjoins, gap, gap_before, lexeme_of, printed};

use dart_tokens::{Kind, Token};
use dart_tree::Unit;
use plain_text::PlainText;
use std::alloc::{AllocError, Global};

/// The lexeme of a token among the words of its text.
fn lexeme_of(words: &[PlainText], token: Token) -> &str
    ensures { result.now ≡ lexeme_of words.now token }
{
    match words.get(token.word as usize) {
        Some(word) => word.as_str(),
        None => "",
    }
}

/// A gap behind a token: only a line feed ends a string that never ends.
fn gap(token: Token) -> &'static str
    ensures { result.now ≡ gap token }
{
    if token.kind == Kind::UnterminatedString {
        "\n"
    } else {
        " "
    }
}

/// What is printed between a token and those behind it.
fn gap_before(behind: &[Token], token: Token) -> &'static str
    ensures { result.now ≡ gap_before behind.now token }
{
    match behind.split_first() {
        Some((next, _)) => {
            if token.end == next.start {
                ""
            } else {
                gap(token)
            }
        }
        None => "",
    }
}

/// The tokens behind the first ones.
fn behind(tokens: &[Token], count: usize) -> &[Token]
    requires { count ≤ length tokens.now }
    ensures { result.now ≡ drop count tokens.now }
{
    tokens.split_at(count).1
}

/// Adds a token to a text, and what is printed between it and those behind it.
fn add_token(
    text: &mut String,
    words: &[PlainText],
    token: Token,
    behind: &[Token],
) -> Result<(), AllocError>
    ensures { OnOk result (string_bytes text.new ≡ string_bytes text.old ++ (lexeme_of words.now token ++ gap_before behind.now token)) }
{
    text.push_str(lexeme_of(words, token))?;
    text.push_str(gap_before(behind, token))?;
    Ok(())
}

/// The text that is printed of tokens with these words.
fn print_tokens(alloc: Global, words: &[PlainText], tokens: &[Token]) -> Result<String, AllocError>
    ensures { IfOk result (λ text. string_bytes text ≡ printed words.now tokens.now) }
{
    let mut text = String::new(alloc);
    for at in 0..tokens.len() {
        add_token(&mut text, words, tokens[at], behind(tokens, at + 1))?;
    }
    Ok(text)
}

/// A text with the tokens of a unit: scanned again, it has the same lexemes, and these adjoin where
/// they did in the text from which the unit was read. Comments are left out. The error is want of
/// memory.
pub fn print(alloc: Global, unit: &Unit) -> Result<String, AllocError>
    ensures { IfOk result (λ text. string_bytes text ≡ printed unit.now.words unit.now.tokens) }
{
    let tokens = unit.tokens.listed(alloc)?;
    print_tokens(alloc, unit.words.as_slice(), &tokens)
}
