//! The interface part of a unit.

ghost use Rattle.std.specs.Prelude.{◌≡◌, [], ◌∷◌, ◌++◌, ◌≤◌, IfOk, drop, length, take, if◌then◌else◌};
ghost use Rattle.std.specs.List.{list_any};
ghost use Rattle.dart_tokens.specs.declared.token.Kind.TheVariants as kind;
ghost use Rattle.interface_part.specs.Parts.{mark};
ghost use Rattle.interface_part.specs.Interface.{adjoins, count_before, interface_of, is, is_seen, letters_of, lexeme_of, lexemes, parts_of};

use crate::hidden::{Hidden, hidden_in};
use crate::parts::Interface;
use dart_tokens::{Kind, Token};
use dart_tree::Unit;
use plain_text::PlainText;
use std::alloc::{AllocError, Global};

/// Whether the next of these tokens begins where that one ends.
fn adjoins(token: Token, behind: &[Token]) -> bool
    ensures { result ≡ adjoins token behind.now }
{
    match behind.split_first() {
        Some((next, _)) => next.start == token.end,
        None => false,
    }
}

/// The letters of a token, in UTF-8.
fn letters_of(words: &[PlainText], token: Token) -> &[u8]
    ensures { result.now ≡ letters_of words.now token }
{
    match words.get(token.word as usize) {
        Some(word) => word.as_str().as_bytes(),
        None => &[],
    }
}

/// The parts so far with a token behind them, of which these are the tokens behind it.
fn with_token(
    part: Interface,
    words: &[PlainText],
    token: Token,
    behind: &[Token],
) -> Result<Interface, AllocError>
    ensures { IfOk result (λ more. more ≡ part ++ lexeme_of words.now token behind.now ∷ []) }
{
    let adjoins = token.kind == Kind::Greater && adjoins(token, behind);
    part.with_lexeme(token.kind, letters_of(words, token), adjoins)
}

/// The tokens behind the first ones.
pub(crate) fn behind(tokens: &[Token], count: usize) -> &[Token]
    requires { count ≤ length tokens.now }
    ensures { result.now ≡ drop count tokens.now }
{
    tokens.split_at(count).1
}

/// The parts so far with the first tokens of a text's rest behind them.
fn with_lexemes(
    part: Interface,
    words: &[PlainText],
    tokens: &[Token],
    count: usize,
) -> Result<Interface, AllocError>
    requires { count ≤ length tokens.now }
    ensures { IfOk result (λ more. more ≡ part ++ take count (lexemes words.now tokens.now)) }
{
    let mut more = part;
    for at in 0..count {
        more = with_token(more, words, tokens[at], behind(tokens, at + 1))?;
    }
    Ok(more)
}

/// How many tokens come before the first that begins at an offset of the text, or behind it.
#[tactic(auto, using(crate::proofs::Walks::count_more, crate::proofs::Walks::count_stop))]
pub(crate) fn count_before(tokens: &[Token], offset: u32) -> usize
    ensures count { result ≡ count_before offset tokens.now }
    ensures within { result ≤ length tokens.now }
{
    for (at, token) in tokens.iter().enumerate() {
        if token.start >= offset {
            return at;
        }
    }
    tokens.len()
}

/// Whether the word `super` stands among tokens.
fn has_super(tokens: &[Token]) -> bool
    ensures { result ≡ list_any (is kind.Super) tokens.now }
{
    for token in tokens {
        if token.kind == Kind::Super {
            return true;
        }
    }
    false
}

/// Of what stands in a mixin, that is seen in which the word `super` stands.
pub(crate) fn is_seen(hidden: Hidden, within: &[Token]) -> bool
    ensures { result ≡ is_seen hidden within.now }
{
    hidden.in_mixin && has_super(within)
}

/// The parts so far with a mark for what is hidden behind them, or its lexemes, if it is seen.
fn with_hidden(
    part: Interface,
    words: &[PlainText],
    hidden: Hidden,
    tokens: &[Token],
    inside: usize,
) -> Result<Interface, AllocError>
    requires { inside ≤ length tokens.now }
    ensures { IfOk result (λ more. more ≡ part ++ (if is_seen hidden (take inside tokens.now) then take inside (lexemes words.now tokens.now) else mark ∷ [])) }
{
    if is_seen(hidden, &tokens[..inside]) {
        with_lexemes(part, words, tokens, inside)
    } else {
        part.with_mark()
    }
}

/// The parts of a text's tokens, of which these ranges are hidden.
fn parts_of(
    alloc: Global,
    words: &[PlainText],
    hidden: &[Hidden],
    tokens: &[Token],
) -> Result<Interface, AllocError>
    ensures { IfOk result (λ part. part ≡ parts_of words.now hidden.now tokens.now) }
{
    let mut part = Interface::new(alloc);
    let mut rest = tokens;
    for range in hidden {
        let first = count_before(rest, range.span.start);
        part = with_lexemes(part, words, rest, first)?;
        rest = behind(rest, first);
        let inside = count_before(rest, range.span.end);
        part = with_hidden(part, words, *range, rest, inside)?;
        rest = behind(rest, inside);
    }
    let whole = with_lexemes(part, words, rest, rest.len())?;
    Ok(whole)
}

/// The interface part of a unit, in time that is linear in its tokens.
pub fn interface_part(alloc: Global, unit: &Unit) -> Result<Interface, AllocError>
    ensures { IfOk result (λ part. part ≡ interface_of unit.now) }
{
    let hidden = hidden_in(alloc, &unit.tree)?;
    let tokens = unit.tokens.listed(alloc)?;
    parts_of(alloc, unit.words.as_slice(), hidden.as_slice(), &tokens)
}
