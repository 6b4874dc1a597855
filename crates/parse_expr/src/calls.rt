//! What stands at a place of a text.
//!
//! The text is its tokens, each group of brackets with its end, as `grammar` has them; `at` counts the
//! tokens before the place, from 0, and `depth` the nodes above the one that is read. None is answered
//! exactly where no beginning of what follows is one with nodes at most 200 deep; else the answer is the
//! longest, with the place behind it.

ghost use Rattle.std.specs.Prelude.{◌≡◌, ◌≤◌, ◌-◌, suc, length, drop, IfOk, option_map};
ghost use Rattle.std.specs.List.Sorted.{IsNonDecreasingBy};
ghost use Rattle.grammar.specs.Descents.{lower, take_parameter_list};
ghost use Rattle.parse_leaves.specs.Answers.{Gives, IsDeep};
ghost use Rattle.parse_expr.specs.Parts.{tree_of, reads, IsFormOf};
ghost use Rattle.parse_expr.specs.Calls.{room_at as room_of, parsed, parsed_parameters};

use crate::lists::{TextLists, statement_at};
use crate::node::part_at;
use crate::part::{Node, Part};
use crate::reader::Reader;
use dart_tree::{Block, Expr, ParameterList, Stmt, WrittenType};
use grammar::{Setting, Token};
use parse_leaves::{Miss, tokens_behind};
use parse_types::parameter_list;
use read_lists::{read_block, read_expr, read_parameter_list, read_stmt, read_written_type};
use std::alloc::{AllocError, Global};

/// How many nodes may lie on a way down from a node at a depth, itself among them.
fn room_at(depth: u32) -> u32
    ensures { result ≡ room_of depth }
{
    201u32.saturating_sub(depth)
}

/// How many nodes may lie on a way down from a node below one at a depth.
fn room_below(depth: u32) -> u32
    ensures { result ≡ room_of (suc depth) }
{
    200u32.saturating_sub(depth)
}

/// How many tokens of a text lie before what is left of it.
fn tokens_before(text: &[Token], rest: &[Token]) -> usize
    ensures { result ≡ length text.now - length rest.now }
{
    text.len().saturating_sub(rest.len())
}

/// A type with all that lies below it, lists of statements aside, and the tokens that are left.
fn type_at<'k>(
    alloc: Global,
    room: u32,
    tokens: &'k [Token],
) -> Result<(WrittenType, &'k [Token]), Miss>
    requires limit { room ≤ 201 }
    ensures { Gives (λ x. (x.0, x.1.now)) result ((lower room).written tokens.now) }
{
    let (node, _, rest) = part_at(alloc, Part::Written, room, tokens)?;
    match node {
        Node::Type(found) => Ok((found, rest)),
        _ => Err(Miss::NoReading),
    }
}

/// An expression with all that lies below it, lists of statements aside, and the tokens that are left.
fn expression_at<'k>(
    alloc: Global,
    room: u32,
    tokens: &'k [Token],
) -> Result<(Expr, &'k [Token]), Miss>
    requires limit { room ≤ 201 }
    ensures { Gives (λ x. (x.0, x.1.now)) result ((lower room).expression Setting.Plain tokens.now) }
{
    let (node, _, rest) = part_at(alloc, Part::Expression(Setting::Plain), room, tokens)?;
    match node {
        Node::Expr(found) => Ok((found, rest)),
        _ => Err(Miss::NoReading),
    }
}

/// A block with all that lies below it, lists of statements aside, and the tokens that are left.
fn block_at<'k>(alloc: Global, room: u32, tokens: &'k [Token]) -> Result<(Block, &'k [Token]), Miss>
    requires limit { room ≤ 201 }
    ensures { Gives (λ x. (x.0, x.1.now)) result ((lower room).block tokens.now) }
{
    let (node, _, rest) = part_at(alloc, Part::Block, room, tokens)?;
    match node {
        Node::Block(found) => Ok((found, rest)),
        _ => Err(Miss::NoReading),
    }
}

/// A type at a place of a text, its lists of statements read, and the place behind it. The error is
/// want of memory.
#[tactic(auto, using(crate::proofs::Found::type_found, crate::proofs::Found::type_missing))]
pub fn parse_type(
    alloc: Global,
    text: &[Token],
    at: usize,
    depth: u32,
) -> Result<Option<(WrittenType, usize)>, AllocError>
    requires ordered { IsNonDecreasingBy (λ t. t.start) text.now }
    ensures { IfOk result (λ found. option_map (λ x. (x.0, x.1)) found ≡ parsed (λ l. l.written) text.now at depth) }
{
    let room = room_at(depth);
    match type_at(alloc, room, tokens_behind(text, at)) {
        Ok((mut found, rest)) => {
            read_written_type(&TextLists::new(text), alloc, room, &mut found)?;
            Ok(Some((found, tokens_before(text, rest))))
        }
        Err(Miss::NoReading) => Ok(None),
        Err(Miss::Memory) => Err(AllocError),
    }
}

/// An expression at a place of a text, its lists of statements read, and the place behind it. The error is
/// want of memory.
#[tactic(auto, using(crate::proofs::Found::expression_found, crate::proofs::Found::expression_missing))]
pub fn parse_expression(
    alloc: Global,
    text: &[Token],
    at: usize,
    depth: u32,
) -> Result<Option<(Expr, usize)>, AllocError>
    requires ordered { IsNonDecreasingBy (λ t. t.start) text.now }
    ensures { IfOk result (λ found. option_map (λ x. (x.0, x.1)) found ≡ parsed (λ l. l.expression Setting.Plain) text.now at depth) }
{
    let room = room_at(depth);
    match expression_at(alloc, room, tokens_behind(text, at)) {
        Ok((mut found, rest)) => {
            read_expr(&TextLists::new(text), alloc, room, &mut found)?;
            Ok(Some((found, tokens_before(text, rest))))
        }
        Err(Miss::NoReading) => Ok(None),
        Err(Miss::Memory) => Err(AllocError),
    }
}

/// A statement at a place of a text, its lists of statements read, and the place behind it. The error is
/// want of memory.
#[tactic(auto, using(crate::proofs::Found::statement_found, crate::proofs::Found::statement_missing))]
pub fn parse_statement(
    alloc: Global,
    text: &[Token],
    at: usize,
    depth: u32,
) -> Result<Option<(Stmt, usize)>, AllocError>
    requires ordered { IsNonDecreasingBy (λ t. t.start) text.now }
    ensures { IfOk result (λ found. option_map (λ x. (x.0, x.1)) found ≡ parsed (λ l. l.statement) text.now at depth) }
{
    let room = room_at(depth);
    match statement_at(alloc, room, tokens_behind(text, at)) {
        Ok((mut found, rest)) => {
            read_stmt(&TextLists::new(text), alloc, room, &mut found)?;
            Ok(Some((found, tokens_before(text, rest))))
        }
        Err(Miss::NoReading) => Ok(None),
        Err(Miss::Memory) => Err(AllocError),
    }
}

/// A block at a place of a text, its lists of statements read, and the place behind it. The error is
/// want of memory.
#[tactic(auto, using(crate::proofs::Found::block_found, crate::proofs::Found::block_missing))]
pub fn parse_block(
    alloc: Global,
    text: &[Token],
    at: usize,
    depth: u32,
) -> Result<Option<(Block, usize)>, AllocError>
    requires ordered { IsNonDecreasingBy (λ t. t.start) text.now }
    ensures { IfOk result (λ found. option_map (λ x. (x.0, x.1)) found ≡ parsed (λ l. l.block) text.now at depth) }
{
    let room = room_at(depth);
    match block_at(alloc, room, tokens_behind(text, at)) {
        Ok((mut found, rest)) => {
            read_block(&TextLists::new(text), alloc, room, &mut found)?;
            Ok(Some((found, tokens_before(text, rest))))
        }
        Err(Miss::NoReading) => Ok(None),
        Err(Miss::Memory) => Err(AllocError),
    }
}

/// The same of the parameters in parentheses, of a node at the depth.
#[tactic(auto, using(crate::proofs::Found::parameters_found, crate::proofs::Found::parameters_missing))]
fn parameters_below(
    alloc: Global,
    text: &[Token],
    at: usize,
    depth: u32,
) -> Result<Option<(ParameterList, usize)>, AllocError>
    requires ordered { IsNonDecreasingBy (λ t. t.start) text.now }
    ensures { IfOk result (λ found. option_map (λ x. (x.0, x.1)) found ≡ parsed take_parameter_list text.now at (suc depth)) }
{
    let room = room_below(depth);
    let below = Reader {
        read: |part, rest|
            requires limit { room ≤ 200 }
            ensures reading { Gives (λ x. (tree_of x.0, x.2.now)) result (reads (lower room) part rest.now) }
            ensures form { IfOk result (λ x. IsFormOf part x.0) }
            ensures deep { IfOk result (λ x. IsDeep room (tree_of x.0) x.1) }
        { part_at(alloc, part, room, rest) },
        room,
    };
    match parameter_list(&below, alloc, tokens_behind(text, at)) {
        Ok((mut found, _, rest)) => {
            read_parameter_list(&TextLists::new(text), alloc, room, &mut found)?;
            Ok(Some((found, tokens_before(text, rest))))
        }
        Err(Miss::NoReading) => Ok(None),
        Err(Miss::Memory) => Err(AllocError),
    }
}

/// The parameters in parentheses at a place of a text, of a node at the depth, their lists of
/// statements read, and the place behind them. The error is want of memory.
pub fn parse_parameters(
    alloc: Global,
    text: &[Token],
    at: usize,
    depth: u32,
) -> Result<Option<(ParameterList, usize)>, AllocError>
    requires ordered { IsNonDecreasingBy (λ t. t.start) text.now }
    ensures { IfOk result (λ found. option_map (λ x. (x.0, x.1)) found ≡ parsed_parameters text.now at depth) }
{
    if depth > 200 {
        return Ok(None);
    }
    parameters_below(alloc, text, at, depth)
}
