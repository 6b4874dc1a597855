//! Where the tokens that were read stand, and the names that they make.

ghost use Rattle.std.specs.Prelude.{◌≡◌, List};
ghost use Rattle.dart_tree.specs.declared.places.Place.{Place};
ghost use Rattle.dart_tree.specs.declared.places.Span.{Span};
ghost use Rattle.dart_tokens.specs.declared.grouped_token.GroupedToken.{GroupedToken as Token};
ghost use Rattle.readings.specs.Readings.{tokens_read};
ghost use Rattle.dart_tree.specs.Heights.{higher};
ghost use Rattle.grammar.specs.Tokens.{first_start, last_end, span_over, span_of, place_at, place_over, place_of, name_at, identifier_at};

use dart_tree::{Identifier, Name, NodeId, Place, Span};
use grammar::Token;

/// Where the first of the tokens begins.
fn first_start(tokens: &[Token]) -> u32
    ensures { result ≡ first_start tokens.now }
{
    tokens.first().map_or(0, |first| first.start)
}

/// Where the last of the tokens ends.
fn last_end(tokens: &[Token]) -> u32
    ensures { result ≡ last_end tokens.now }
{
    tokens.last().map_or(0, |last| last.end)
}

/// From the first to the last of the tokens.
pub fn span_over(tokens: &[Token]) -> Span
    ensures { result ≡ span_over tokens.now }
{
    Span {
        start: first_start(tokens),
        end: last_end(tokens),
    }
}

/// The place of a node that has no number yet.
fn place_at(span: Span) -> Place
    ensures { result ≡ place_at span }
{
    Place {
        node: NodeId(0),
        span,
    }
}

/// From the first to the last of the tokens that were read, where `rest` is left.
pub fn place_over(tokens: &[Token], rest: &[Token]) -> Place
    ensures { result ≡ place_over (tokens_read tokens.now rest.now) }
{
    place_at(span_over(readings::tokens_read(tokens, rest)))
}

/// The range of a token.
pub fn span_of(token: Token) -> Span
    ensures { result ≡ span_of token }
{
    Span {
        start: token.start,
        end: token.end,
    }
}

/// The place of a node that is one token.
pub fn place_of(token: Token) -> Place
    ensures { result ≡ place_of token }
{
    place_at(span_of(token))
}

/// The name that an identifier declares.
pub fn name_at(token: Token) -> Name
    ensures { result ≡ name_at token }
{
    Name {
        at: place_of(token),
        word: token.word,
    }
}

/// An identifier that is a mere part of a node.
pub fn identifier_at(token: Token) -> Identifier
    ensures { result ≡ identifier_at token }
{
    Identifier {
        span: span_of(token),
        word: token.word,
    }
}

/// The greater of two heights.
pub fn higher(a: u32, b: u32) -> u32
    ensures { result ≡ higher a b }
{
    if a < b { b } else { a }
}
