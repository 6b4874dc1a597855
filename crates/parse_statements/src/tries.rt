//! `try`.

ghost use Rattle.std.specs.Prelude.{◌≡◌, ◌+◌, ◌≤◌, Some, IfOk};
ghost use Rattle.readings.specs.Readings.{tokens_read};
ghost use Rattle.readings.specs.Descent.{take_token, take_maybe, take_many, take_inside, take_make, ◌▸◌};
ghost use Rattle.dart_tree.specs.Tree.{Tree, part_of};
ghost use Rattle.dart_tree.specs.Heights.{higher, height, height_of_part};
ghost use Rattle.grammar.specs.Tokens.{is, is_name, width, past};
ghost use Rattle.dart_tokens.specs.declared.grouped_token.GroupedToken.{GroupedToken as Token};
ghost use Rattle.grammar.specs.Types.{behind_token};
ghost use Rattle.grammar.specs.Statements.{caught, clause_with, on_of, clause_of, has_clause};
ghost use Rattle.grammar.specs.Descents.{lower, take_catch, take_clause, take_try};
ghost use Rattle.parse_leaves.specs.Answers.{Finds, Gives, IsDeep, AreDeep};
ghost use Rattle.parse_leaves.specs.Parts.{IsPartDeep};

use dart_tokens::Kind;
use dart_tree::{Block, CatchClause, ListedName, Stmt, StmtNode, TryParts, WrittenType};
use grammar::Token;
use parse_leaves::{Below, Miss, group, heads, higher, name, place_of, place_over, token};
use std::alloc::Global;

/// A `,` and a name.
fn second_name(tokens: &[Token]) -> Option<(Token, Token, &[Token])>
    ensures { Finds (λ x. ((x.0, x.1), x.2.now)) result ((take_token (is Kind.Comma) ▸ take_token is_name) tokens.now) }
{
    let (comma, rest) = token(tokens, Kind::Comma)?;
    let (word, rest) = name(rest)?;
    Some((comma, word, rest))
}

/// A `,` and a name, if they come next.
fn some_second_name(tokens: &[Token]) -> (Option<(Token, Token)>, &[Token])
    ensures { take_maybe (take_token (is Kind.Comma) ▸ take_token is_name) tokens.now ≡ Some (result.0, result.1.now) }
{
    match second_name(tokens) {
        Some((comma, word, rest)) => (Some((comma, word)), rest),
        None => (None, tokens),
    }
}

/// The names between the parentheses of a `catch`.
fn caught_names(tokens: &[Token]) -> Option<((Token, Option<(Token, Token)>), &[Token])>
    ensures { Finds (λ x. (x.0, x.1.now)) result ((take_token is_name ▸ take_maybe (take_token (is Kind.Comma) ▸ take_token is_name)) tokens.now) }
{
    let (exception, rest) = name(tokens)?;
    let (trace, rest) = some_second_name(rest);
    Some(((exception, trace), rest))
}

/// The parentheses of a `catch`.
#[tactic(auto, using(parse_leaves::specs::Groups::inside_outside, parse_leaves::specs::Groups::group_missing, parse_leaves::specs::Groups::group_cut, parse_leaves::specs::Groups::group_whole))]
fn caught_group(tokens: &[Token]) -> Option<(Token, (Token, Option<(Token, Token)>), &[Token])>
    ensures { Finds (λ x. ((x.0, x.1), x.2.now)) result
        (take_inside (is Kind.OpenParenthesis) width past (take_token is_name ▸ take_maybe (take_token (is Kind.Comma) ▸ take_token is_name)) tokens.now) }
{
    let Some((opening, inside, rest)) = group(tokens, Kind::OpenParenthesis) else {
        return None;
    };
    let Some((found, left)) = caught_names(inside) else {
        return None;
    };
    if !left.is_empty() {
        return None;
    }
    Some((opening, found, rest))
}

/// `catch` and the names of what is caught.
#[tactic(auto, unfolding(grammar::specs::Descents::take_catch))]
fn catch_names(tokens: &[Token]) -> Option<((Token, Option<Token>), &[Token])>
    ensures { Finds (λ x. (x.0, x.1.now)) result (take_catch tokens.now) }
{
    let (_, rest) = token(tokens, Kind::Catch)?;
    let (_, (exception, trace), rest) = caught_group(rest)?;
    Some(((exception, trace.map(|(_, word)| word)), rest))
}

/// `catch` and the names of what is caught, if they come next.
fn some_catch_names(tokens: &[Token]) -> (Option<(Token, Option<Token>)>, &[Token])
    ensures { take_maybe take_catch tokens.now ≡ Some (result.0, result.1.now) }
{
    match catch_names(tokens) {
        Some((found, rest)) => (Some(found), rest),
        None => (None, tokens),
    }
}

/// A name that a clause catches.
fn caught(token: Token) -> ListedName
    ensures { result ≡ caught token }
{
    ListedName {
        at: place_of(token),
        word: token.word,
    }
}

/// A clause of a `try`, of its parts.
fn clause_node(
    start: &[Token],
    after: &[Token],
    written: Option<WrittenType>,
    names: Option<(Token, Option<Token>)>,
    body: Block,
) -> CatchClause
    ensures reading { result ≡ clause_with (tokens_read start.now after.now) written names body }
    ensures deep { height result ≡ higher (height_of_part (part_of written)) (height body) }
{
    let at = place_over(start, after);
    let (exception, stack_trace) = match names {
        None => (None, None),
        Some((exception, trace)) => (Some(caught(exception)), trace.map(caught)),
    };
    CatchClause {
        at,
        written,
        exception,
        stack_trace,
        body,
    }
}

/// `on`, a type, maybe a `catch`, and a block.
fn on_clause<'k, B: Below<'k>>(
    below: &B,
    alloc: Global,
    tokens: &'k [Token],
) -> Result<(CatchClause, u32, &'k [Token]), Miss>
    requires limit { B.room below.now ≤ 200 }
    requires sound { B.sound below.now }
    ensures reading { Gives (λ x. (x.0, x.2.now)) result
        (take_make on_of (take_token (is Kind.On) ▸ (lower (B.room below.now)).written ▸ take_maybe take_catch ▸ (lower (B.room below.now)).block) tokens.now) }
    ensures deep { IfOk result (λ x. IsDeep (B.room below.now) x.0 x.1) }
{
    let (_, rest) = token(tokens, Kind::On).ok_or(Miss::NoReading)?;
    let (written, tall, rest) = below.written(alloc, rest)?;
    let (names, rest) = some_catch_names(rest);
    let (body, height, rest) = below.block(alloc, rest)?;
    let clause = clause_node(tokens, rest, Some(written), names, body);
    Ok((clause, higher(tall, height), rest))
}

/// A `catch` and a block.
#[tactic(auto, using(parse_leaves::specs::Sizes::zero_higher))]
fn catch_clause<'k, B: Below<'k>>(
    below: &B,
    alloc: Global,
    tokens: &'k [Token],
) -> Result<(CatchClause, u32, &'k [Token]), Miss>
    requires limit { B.room below.now ≤ 200 }
    requires sound { B.sound below.now }
    ensures reading { Gives (λ x. (x.0, x.2.now)) result (take_make clause_of (take_catch ▸ (lower (B.room below.now)).block) tokens.now) }
    ensures deep { IfOk result (λ x. IsDeep (B.room below.now) x.0 x.1) }
{
    let (names, rest) = catch_names(tokens).ok_or(Miss::NoReading)?;
    let (body, height, rest) = below.block(alloc, rest)?;
    let clause = clause_node(tokens, rest, None, Some(names), body);
    Ok((clause, height, rest))
}

/// A clause of a `try`.
#[tactic(auto, unfolding(grammar::specs::Descents::take_clause))]
fn clause<'k, B: Below<'k>>(
    below: &B,
    alloc: Global,
    tokens: &'k [Token],
) -> Result<(CatchClause, u32, &'k [Token]), Miss>
    requires limit { B.room below.now ≤ 200 }
    requires sound { B.sound below.now }
    ensures reading { Gives (λ x. (x.0, x.2.now)) result (take_clause (lower (B.room below.now)) tokens.now) }
    ensures deep { IfOk result (λ x. IsDeep (B.room below.now) x.0 x.1) }
{
    if heads(tokens, Kind::On) {
        on_clause(below, alloc, tokens)
    } else {
        catch_clause(below, alloc, tokens)
    }
}

/// The clauses of a `try`.
#[tactic(auto, using(parse_leaves::specs::Loops::row_out, parse_leaves::specs::Loops::row_stop, parse_leaves::specs::Loops::row_goes, readings::specs::Elements::begun, parse_leaves::specs::Sizes::heights_behind, parse_leaves::specs::Sizes::higher_within))]
fn clauses<'k, B: Below<'k>>(
    below: &B,
    alloc: Global,
    tokens: &'k [Token],
) -> Result<(Vec<CatchClause>, u32, &'k [Token]), Miss>
    requires limit { B.room below.now ≤ 200 }
    requires sound { B.sound below.now }
    ensures reading { Gives (λ x. (x.0.items, x.2.now)) result (take_many (take_clause (lower (B.room below.now))) tokens.now) }
    ensures deep { IfOk result (λ x. AreDeep (B.room below.now) x.0.items x.1) }
{
    let mut list = Vec::new(alloc);
    let mut height = 0;
    let mut rest = tokens;
    let mut more = tokens.len();
    while more > 0 {
        match clause(below, alloc, rest) {
            Ok((next, tall, after)) => {
                list.push(next)?;
                height = higher(height, tall);
                rest = after;
                more -= 1;
            }
            Err(Miss::NoReading) => return Ok((list, height, rest)),
            Err(Miss::Memory) => return Err(Miss::Memory),
        }
    }
    Ok((list, height, rest))
}

/// `finally` and a block.
fn finally_block<'k, B: Below<'k>>(
    below: &B,
    alloc: Global,
    tokens: &'k [Token],
) -> Result<((Token, Block), u32, &'k [Token]), Miss>
    requires limit { B.room below.now ≤ 200 }
    requires sound { B.sound below.now }
    ensures reading { Gives (λ x. (x.0, x.2.now)) result ((take_token (is Kind.Finally) ▸ (lower (B.room below.now)).block) tokens.now) }
    ensures deep { IfOk result (λ x. IsDeep (B.room below.now) x.0.1 x.1) }
{
    let (word, rest) = token(tokens, Kind::Finally).ok_or(Miss::NoReading)?;
    let (block, height, rest) = below.block(alloc, rest)?;
    Ok(((word, block), height, rest))
}

/// `finally` and a block, if they come next.
fn some_finally_block<'k, B: Below<'k>>(
    below: &B,
    alloc: Global,
    tokens: &'k [Token],
) -> Result<(Option<(Token, Block)>, u32, &'k [Token]), Miss>
    requires limit { B.room below.now ≤ 200 }
    requires sound { B.sound below.now }
    ensures reading { Gives (λ x. (x.0, x.2.now)) result (take_maybe (take_token (is Kind.Finally) ▸ (lower (B.room below.now)).block) tokens.now) }
    ensures deep { IfOk result (λ x. IsPartDeep (B.room below.now) (behind_token x.0) x.1) }
{
    match finally_block(below, alloc, tokens) {
        Ok((found, height, rest)) => Ok((Some(found), height, rest)),
        Err(Miss::NoReading) => Ok((None, 0, tokens)),
        Err(Miss::Memory) => Err(Miss::Memory),
    }
}

/// The block behind `finally`.
fn block_behind(found: Option<(Token, Block)>) -> Option<Block>
    ensures { result ≡ behind_token found }
{
    match found {
        Some((_, block)) => Some(block),
        None => None,
    }
}

/// There is a clause or a `finally`.
#[tactic(auto, using(parse_leaves::specs::Sizes::clause_missing, parse_leaves::specs::Sizes::clause_there, parse_leaves::specs::Sizes::finally_there))]
fn has_clause(handlers: &[CatchClause], found: &Option<(Token, Block)>) -> bool
    ensures { (word : Token) (body : Tree) → has_clause ((word, (body, handlers.now)), found.now) ≡ result }
{
    if handlers.is_empty() {
        found.is_some()
    } else {
        true
    }
}

/// `try`.
#[tactic(auto, unfolding(grammar::specs::Descents::take_try))]
pub fn try_statement<'k, B: Below<'k>>(
    below: &B,
    alloc: Global,
    tokens: &'k [Token],
) -> Result<(Stmt, u32, &'k [Token]), Miss>
    requires limit { B.room below.now ≤ 200 }
    requires sound { B.sound below.now }
    ensures reading { Gives (λ x. (x.0, x.2.now)) result (take_try (lower (B.room below.now)) tokens.now) }
    ensures deep { IfOk result (λ x. IsDeep (B.room below.now + 1) x.0 x.1) }
{
    let (_, rest) = token(tokens, Kind::Try).ok_or(Miss::NoReading)?;
    let (body, reach, rest) = below.block(alloc, rest)?;
    let (handlers, tall, rest) = clauses(below, alloc, rest)?;
    let (found, height, rest) = some_finally_block(below, alloc, rest)?;
    if !has_clause(&handlers, &found) {
        return Err(Miss::NoReading);
    }
    let at = place_over(tokens, rest);
    let parts = Box::new(
        alloc,
        TryParts {
            body,
            handlers,
            finally_block: block_behind(found),
        },
    )?;
    let node = Box::new(alloc, StmtNode::Try { at, parts })?;
    Ok((Stmt { node }, higher(reach, higher(tall, height)) + 1, rest))
}
