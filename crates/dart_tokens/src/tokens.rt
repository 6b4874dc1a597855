//! The tokens of a text, each once: as the grammar reads them, and beside these the few brackets that
//! it doesn't read.

ghost use Rattle.std.specs.Prelude.{◌≡◌, ◌++◌, IfOk, OnOk, drop, map, take};
ghost use Rattle.dart_tokens.specs.Read.{all_tokens, grammar_tokens, without_group};

use crate::grouped_token::GroupedToken;
use crate::token::Token;
use std::alloc::{AllocError, Global};
use std::marker::Model;

/// A bracket that closes no group.
#[derive(Clone, Copy, Debug, PartialEq, Eq)]
pub struct UnopenedBracket {
    /// How many of the tokens that the grammar reads stand before it.
    pub before: u32,
    /// The bracket itself.
    pub token: Token,
}

/// The tokens of a text, in its order.
#[derive(Debug, Drop)]
pub struct Tokens {
    read: Vec<GroupedToken>,
    unopened: Vec<UnopenedBracket>,
}

impl Model for Tokens {
    ghost use Rattle.std.specs.Prelude.{◌≡◌, List};
    ghost use Rattle.dart_tokens.specs.declared.token.Token.{Token};
    ghost use Rattle.dart_tokens.specs.Read.{all_tokens, grammar_tokens};

    ghost Value = { List Token };

    ghost view = { λ a. all_tokens a.read.items a.unopened.items };

    ghost invariant = { λ a. a.read.items ≡ grammar_tokens (all_tokens a.read.items a.unopened.items) };
}

impl Tokens {
    /// Those that the grammar reads, and the brackets between them that close no group. It takes no
    /// memory.
    pub fn from_parts(read: Vec<GroupedToken>, unopened: Vec<UnopenedBracket>) -> Tokens
        requires { read.items ≡ grammar_tokens (all_tokens read.items unopened.items) }
        ensures { result ≡ all_tokens read.items unopened.items }
    {
        Tokens { read, unopened }
    }

    /// Those that the grammar reads, themselves.
    pub fn read(&self) -> &[GroupedToken]
        ensures { result.now ≡ grammar_tokens self.now }
    {
        self.read.as_slice()
    }

    /// All of them, in a list without their groups.
    pub fn listed(&self, alloc: Global) -> Result<Vec<Token>, AllocError>
        ensures { IfOk result (λ tokens. tokens.items ≡ self.now) }
    {
        put_together(alloc, &self.read, &self.unopened)
    }
}

/// A token without its group.
fn without_group(token: GroupedToken) -> Token
    ensures { result ≡ without_group token }
{
    Token {
        kind: token.kind,
        start: token.start,
        end: token.end,
        word: token.word,
    }
}

/// Adds tokens without their groups.
fn add_read(all: &mut Vec<Token>, read: &[GroupedToken]) -> Result<(), AllocError>
    ensures { OnOk result (all.new.items ≡ all.old.items ++ map without_group read.now) }
{
    for token in read {
        all.push(without_group(*token))?;
    }
    Ok(())
}

/// Adds the first of these tokens without their groups, so many of them, and answers the others.
fn add_first<'r>(
    all: &mut Vec<Token>,
    read: &'r [GroupedToken],
    count: usize,
) -> Result<&'r [GroupedToken], AllocError>
    ensures added { OnOk result (all.new.items ≡ all.old.items ++ map without_group (take count read.now)) }
    ensures others { IfOk result (λ others. others.now ≡ drop count read.now) }
{
    if count >= read.len() {
        add_read(all, read)?;
        return Ok(&[]);
    }
    let (first, others) = read.split_at(count);
    add_read(all, first)?;
    Ok(others)
}

/// All tokens, of which these are read, with these brackets between them.
fn put_together(
    alloc: Global,
    read: &[GroupedToken],
    unopened: &[UnopenedBracket],
) -> Result<Vec<Token>, AllocError>
    ensures { IfOk result (λ tokens. tokens.items ≡ all_tokens read.now unopened.now) }
{
    let mut all = Vec::with_capacity(alloc, read.len().saturating_add(unopened.len()))?;
    let mut others = read;
    let mut before = 0;
    for bracket in unopened {
        let count = bracket.before.saturating_sub(before) as usize;
        others = add_first(&mut all, others, count)?;
        all.push(bracket.token)?;
        before = bracket.before;
    }
    add_read(&mut all, others)?;
    Ok(all)
}
