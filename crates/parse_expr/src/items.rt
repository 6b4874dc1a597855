//! Items of a list of statements: a statement, or an error over a segment where none can be read.
//!
//! Behind an error a statement is tried again, which may be read to the end of the text in vain. So
//! from a first error on it is kept what stands behind operands, until a statement is read: where
//! nothing but an expression can begin, that tells where it would end, and only before a `;` is a
//! statement tried.

ghost use Rattle.std.specs.Prelude.{◌≡◌, ◌≤◌, ◌-◌, true, suc, None, drop, IfOk};
ghost use Rattle.readings.specs.Readings.{tokens_read};
ghost use Rattle.grammar.specs.Statements.{segment, error_of};
ghost use Rattle.grammar.specs.Descents.{lower};
ghost use Rattle.last_parts.specs.LastParts.{IsLast};
ghost use Rattle.parse_leaves.specs.Answers.{Gives, IsDeep};
ghost use Rattle.parse_expr.specs.Attempts.{heads_operand, Serves};
ghost use Rattle.parse_expr.specs.Items.{item_of};
ghost use Rattle.parse_expr.specs.Parts.{tree_of, reads, IsFormOf};

use crate::lists::{behind_segment, statement_at};
use crate::node::part_at;
use crate::reader::Reader;
use dart_tokens::Kind;
use dart_tree::{Stmt, StmtNode};
use grammar::Token;
use parse_leaves::{Miss, heads, heads_either, heads_prefix, place_over};
use parse_operators::{Known, expression_end};
use std::alloc::{AllocError, Global};

/// An error over the segment that comes next, and the tokens that are left.
fn error_item<'k>(alloc: Global, tokens: &'k [Token]) -> Result<(Stmt, &'k [Token]), AllocError>
    ensures error { IfOk result (λ x. x.0 ≡ error_of (tokens_read tokens.now x.1.now)) }
    ensures rest { IfOk result (λ x. x.1.now ≡ drop (suc (segment tokens.now)) tokens.now) }
{
    let after = behind_segment(tokens);
    let at = place_over(tokens, after);
    let node = Box::new(alloc, StmtNode::Error { at })?;
    Ok((Stmt { node }, after))
}

/// An operand begins here, and no other statement than an expression does.
fn heads_operand(tokens: &[Token]) -> bool
    ensures { result ≡ heads_operand tokens.now }
{
    heads_prefix(tokens) || heads_either(tokens, Kind::OpenParenthesis, Kind::OpenBracket)
}

/// Tells of some places that no statement can be read there: where nothing but an expression can
/// begin, and no `;` stands where it ends.
#[tactic(auto, using(crate::proofs::Begun::untold, crate::proofs::Begun::statement_missing))]
fn has_no_statement<'k>(
    known: &mut Known<'k>,
    alloc: Global,
    room: u32,
    tokens: &'k [Token],
) -> Result<bool, AllocError>
    requires enough { 2 ≤ room }
    requires limit { room ≤ 201 }
    requires room { known.old.room ≡ room - 2 }
    requires last { IsLast tokens.now known.old.tokens }
    ensures kept { known.new ≡ known.old }
    ensures none { IfOk result (λ none. none ≡ true → (lower room).statement tokens.now ≡ None) }
{
    if !heads_operand(tokens) {
        return Ok(false);
    }
    let less = room - 2;
    let below = Reader {
        read: |part, rest|
            requires limit { less ≤ 199 }
            ensures reading { Gives (λ x. (tree_of x.0, x.2.now)) result (reads (lower less) part rest.now) }
            ensures form { IfOk result (λ x. IsFormOf part x.0) }
            ensures deep { IfOk result (λ x. IsDeep less (tree_of x.0) x.1) }
        { part_at(alloc, part, less, rest) },
        room: less,
    };
    match expression_end(known, &below, alloc, tokens)? {
        Some(rest) => Ok(!heads(rest, Kind::Semicolon)),
        None => Ok(true),
    }
}

/// The same by what is kept of operands: if nothing is kept, nothing is told.
fn is_known_error<'k>(
    known: &mut Option<Known<'k>>,
    alloc: Global,
    room: u32,
    tokens: &'k [Token],
) -> Result<bool, AllocError>
    requires limit { room ≤ 201 }
    requires served { Serves known.old room tokens.now }
    ensures kept { known.new ≡ known.old }
    ensures none { IfOk result (λ none. none ≡ true → (lower room).statement tokens.now ≡ None) }
{
    match known {
        Some(places) => has_no_statement(places, alloc, room, tokens),
        None => Ok(false),
    }
}

/// Keeps what stands behind operands from here on, where it isn't kept yet.
#[tactic(auto, using(crate::proofs::Attempts::serves_from))]
fn keep_from<'k>(known: &mut Option<Known<'k>>, alloc: Global, room: u32, tokens: &'k [Token])
    requires { Serves known.old room tokens.now }
    ensures { Serves known.new room tokens.now }
{
    if known.is_none() && room >= 2 {
        *known = Some(Known::new(alloc, room - 2, tokens));
    }
}

/// The statement that comes next, or an error over the segment that does, and the tokens that are left.
#[tactic(auto, using(crate::specs::ItemLaws::item_missing))]
pub(crate) fn next_item<'k>(
    known: &mut Option<Known<'k>>,
    alloc: Global,
    room: u32,
    tokens: &'k [Token],
) -> Result<(Stmt, &'k [Token]), AllocError>
    requires limit { room ≤ 201 }
    requires served { Serves known.old room tokens.now }
    ensures reading { IfOk result (λ x. item_of ((lower room).statement) tokens.now ≡ (x.0, x.1.now)) }
    ensures served { IfOk result (λ x. Serves known.new room x.1.now) }
{
    if is_known_error(known, alloc, room, tokens)? {
        let (error, rest) = error_item(alloc, tokens)?;
        return Ok((error, rest));
    }
    match statement_at(alloc, room, tokens) {
        Ok((found, rest)) => {
            *known = None;
            Ok((found, rest))
        }
        Err(Miss::NoReading) => {
            keep_from(known, alloc, room, tokens);
            let (error, rest) = error_item(alloc, tokens)?;
            Ok((error, rest))
        }
        Err(Miss::Memory) => Err(AllocError),
    }
}
