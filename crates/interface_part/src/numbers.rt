//! The numbers of tokens among the parts of an interface part.

ghost use Rattle.std.specs.Prelude.{◌≡◌, [], ◌∷◌, ◌++◌, List, ◌+◌, ◌<◌, ◌≤◌, ◌^◌, ◌==◌, Some, None, IfOk, OnOk, Option, if◌then◌else◌, length, map, nat_lt, true, false};
ghost use Rattle.std.specs.List.{find};
ghost use Rattle.std.specs.List.Sorted.{IsPartitionPoint};
ghost use Rattle.dart_tokens.specs.declared.token.Token.{Token};
ghost use Rattle.interface_part.specs.Interface.{is_seen};
ghost use Rattle.interface_part.specs.Keys.{SeenApart, key_of};
ghost use Rattle.interface_part.specs.Order.{TokensApart};
ghost use Rattle.interface_part.specs.Numbers.{number_at, number_to, numbers_between, numbers_over, seen_from, seen_tokens, span_at, span_between, span_over, tokens_of_parts};

use crate::hidden::{Hidden, hidden_in};
use crate::shown::{behind, count_before, is_seen};
use dart_tokens::Token;
use dart_tree::{Span, Unit};
use std::alloc::{AllocError, Global};
use std::marker::Model;

/// A token that other libraries see.
#[derive(Clone, Copy, Debug, PartialEq, Eq)]
pub struct SeenToken {
    /// Its number: how many parts of the interface part stand before its lexeme, marks among them.
    pub number: usize,
    /// Where it stands in the text.
    pub span: Span,
}

/// The numbers of the first and the last token of a range of a text.
#[derive(Clone, Copy, Debug, PartialEq, Eq)]
pub struct NumberRange {
    /// The number of the token that begins where the range does.
    pub first: usize,
    /// The number of the token that ends where the range does.
    pub last: usize,
}

/// By what a token is looked for.
#[derive(Clone, Copy, Debug, PartialEq, Eq)]
enum Key {
    /// Its number.
    Number,
    /// The offset at which it begins.
    Start,
    /// The offset at which it ends.
    End,
}

/// What a token is looked for by.
fn key_of(by: Key, token: &SeenToken) -> usize
    ensures { result ≡ key_of by token.now }
{
    match by {
        Key::Number => token.number,
        Key::Start => token.span.start as usize,
        Key::End => token.span.end as usize,
    }
}

/// How many tokens have a smaller key.
fn smaller(tokens: &[SeenToken], by: Key, key: usize) -> usize
    requires { SeenApart 0 0 tokens.now }
    ensures bound { result ≤ length tokens.now }
    ensures parts { IsPartitionPoint (λ s. nat_lt (key_of by s) key ≡ true) (λ s. nat_lt (key_of by s) key ≡ false) tokens.now result }
{
    tokens.partition_point(|token| key_of(by, token) < key)
}

/// The token with a key, if there is one.
fn find_by(tokens: &[SeenToken], by: Key, key: usize) -> Option<SeenToken>
    requires { SeenApart 0 0 tokens.now }
    ensures { result ≡ find (λ s. key_of by s == key) tokens.now }
{
    let at = smaller(tokens, by, key);
    if at >= tokens.len() {
        return None;
    }
    let token = tokens[at];
    if key_of(by, &token) == key {
        Some(token)
    } else {
        None
    }
}

/// Adds tokens that are seen behind so many marks.
fn see_tokens(seen: &mut Vec<SeenToken>, marks: usize, tokens: &[Token]) -> Result<(), AllocError>
    requires { marks < 2 ^ 63 }
    ensures { OnOk result (seen.new.items ≡ seen.old.items ++ seen_from (length seen.old.items + marks) (map Some tokens.now)) }
{
    for token in tokens {
        let number = seen.len() + marks;
        let span = Span {
            start: token.start,
            end: token.end,
        };
        seen.push(SeenToken { number, span })?;
    }
    Ok(())
}

/// Adds what is hidden: its tokens, if it is seen after all, or else one mark more than so many.
fn see_hidden(
    seen: &mut Vec<SeenToken>,
    marks: usize,
    hidden: Hidden,
    within: &[Token],
) -> Result<usize, AllocError>
    requires { marks + 1 < 2 ^ 63 }
    ensures more { IfOk result (λ more. more ≤ marks + 1) }
    ensures added { IfOk result (λ more. (parts : List (Option Token)) → seen.new.items ++ seen_from (length seen.new.items + more) parts
        ≡ seen.old.items ++ seen_from (length seen.old.items + marks) ((if is_seen hidden within.now then map Some within.now else None ∷ []) ++ parts)) }
{
    if is_seen(hidden, within) {
        see_tokens(seen, marks, within)?;
        Ok(marks)
    } else {
        Ok(marks + 1)
    }
}

/// The tokens of a text that are seen, where these ranges are hidden.
fn seen_among(
    alloc: Global,
    hidden: &[Hidden],
    tokens: &[Token],
) -> Result<Vec<SeenToken>, AllocError>
    ensures { IfOk result (λ seen. seen.items ≡ seen_from 0 (tokens_of_parts hidden.now tokens.now)) }
{
    let mut seen = Vec::new(alloc);
    let mut marks = 0;
    let mut rest = tokens;
    for range in hidden {
        let first = count_before(rest, range.span.start);
        see_tokens(&mut seen, marks, &rest[..first])?;
        rest = behind(rest, first);
        let inside = count_before(rest, range.span.end);
        marks = see_hidden(&mut seen, marks, *range, &rest[..inside])?;
        rest = behind(rest, inside);
    }
    see_tokens(&mut seen, marks, rest)?;
    Ok(seen)
}

/// The tokens of a unit that other libraries see, each with its number among the parts of the
/// interface part, which contracts see as their list.
///
/// It holds no text, and may be kept longer than its unit. A look-up takes steps in the logarithm
/// of how many tokens it holds.
#[derive(Debug, Drop)]
pub struct SeenTokens {
    tokens: Vec<SeenToken>,
}

impl Model for SeenTokens {
    ghost use Rattle.std.specs.Prelude.{List};
    ghost use Rattle.interface_part.specs.declared.numbers.SeenToken.{SeenToken};
    ghost use Rattle.interface_part.specs.Keys.{SeenApart};

    ghost Value = { List SeenToken };

    ghost view = { λ a. a.tokens.items };

    ghost invariant = { λ a. SeenApart 0 0 a.tokens.items };
}

/// Both numbers, if there are both.
fn numbers_between(first: Option<usize>, last: Option<usize>) -> Option<NumberRange>
    ensures { result ≡ numbers_between first last }
{
    match (first, last) {
        (Some(first), Some(last)) => Some(NumberRange { first, last }),
        (Some(_), None) | (None, _) => None,
    }
}

/// The range from the start of one to the end of another, if there are both.
fn span_between(first: Option<Span>, last: Option<Span>) -> Option<Span>
    ensures { result ≡ span_between first last }
{
    match (first, last) {
        (Some(first), Some(last)) => Some(Span {
            start: first.start,
            end: last.end,
        }),
        (Some(_), None) | (None, _) => None,
    }
}

impl SeenTokens {
    /// Those of a unit, in time that is linear in its tokens.
    pub fn of(alloc: Global, unit: &Unit) -> Result<SeenTokens, AllocError>
        requires { TokensApart 0 unit.now.tokens }
        ensures { IfOk result (λ seen. seen ≡ seen_tokens unit.now) }
    {
        let hidden = hidden_in(alloc, &unit.tree)?;
        let listed = unit.tokens.listed(alloc)?;
        let tokens = seen_among(alloc, hidden.as_slice(), &listed)?;
        Ok(SeenTokens { tokens })
    }

    /// The number of the token that begins at an offset of the text, if it is seen.
    pub fn number_of(&self, offset: u32) -> Option<usize>
        ensures { result ≡ number_at self.now offset }
    {
        let token = find_by(self.tokens.as_slice(), Key::Start, offset as usize)?;
        Some(token.number)
    }

    /// The number of the token that ends at an offset of the text, if it is seen.
    pub fn number_to(&self, offset: u32) -> Option<usize>
        ensures { result ≡ number_to self.now offset }
    {
        let token = find_by(self.tokens.as_slice(), Key::End, offset as usize)?;
        Some(token.number)
    }

    /// Where the token with a number stands in the text: none where a mark has it, or no part does.
    pub fn token_at(&self, number: usize) -> Option<Span>
        ensures { result ≡ span_at self.now number }
    {
        let token = find_by(self.tokens.as_slice(), Key::Number, number)?;
        Some(token.span)
    }

    /// The numbers of the token that begins where a range of the text does and of the one that ends
    /// where it does, if both are seen.
    pub fn numbers_of(&self, span: Span) -> Option<NumberRange>
        ensures { result ≡ numbers_over self.now span }
    {
        numbers_between(self.number_of(span.start), self.number_to(span.end))
    }

    /// The range of the text from the start of the first token to the end of the last.
    pub fn span_of(&self, numbers: NumberRange) -> Option<Span>
        ensures { result ≡ span_over self.now numbers }
    {
        span_between(self.token_at(numbers.first), self.token_at(numbers.last))
    }
}
