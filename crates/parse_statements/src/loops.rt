//! `for`.

ghost use Rattle.std.specs.Prelude.{◌≡◌, ◌≢◌, ◌+◌, ◌≤◌, Some, Err, option_map, IfOk};
ghost use Rattle.readings.specs.Readings.{tokens_read};
ghost use Rattle.readings.specs.Descent.{take_token, take_maybe, take_inside, take_turn, ◌▸◌, ◌⊘◌};
ghost use Rattle.dart_tree.specs.Heights.{higher, height};
ghost use Rattle.grammar.specs.Tokens.{is, is_name, width, past};
ghost use Rattle.grammar.specs.Types.{listed_or_none};
ghost use Rattle.grammar.specs.Statements.{ended, each_with, for_with};
ghost use Rattle.grammar.specs.Descents.{lower, take_separated, take_declared, take_variables, take_each, take_start, take_counted, take_for};
ghost use Rattle.parse_leaves.specs.declared.miss.Miss.TheVariants.{NoReading};
ghost use Rattle.parse_leaves.specs.Answers.{Gives, IsDeep, AreDeep};
ghost use Rattle.parse_leaves.specs.Parts.{header_of, header_height, initial_of, declared_height, IsPartDeep};

use crate::blocks::{declared, declared_variables};
use crate::statements::some_expression;
use dart_tokens::Kind;
use dart_tree::{Expr, ForInitializer, Stmt, StmtNode, WrittenType};
use grammar::{Setting, Token};
use parse_leaves::{Below, Header, Miss, group, higher, name, name_at, place_over, token};
use std::alloc::Global;

/// What stands before the name of a variable, if something does.
fn some_declared<'k, B: Below<'k>>(
    below: &B,
    alloc: Global,
    tokens: &'k [Token],
) -> Result<(Option<(bool, Option<WrittenType>)>, u32, &'k [Token]), Miss>
    requires limit { B.room below.now ≤ 200 }
    requires sound { B.sound below.now }
    ensures reading { Gives (λ x. (x.0, x.2.now)) result (take_maybe (take_declared (lower (B.room below.now))) tokens.now) }
    ensures deep { IfOk result (λ x. (x.1 ≡ declared_height x.0) × (x.1 ≤ (B.room below.now))) }
{
    match declared(below, alloc, tokens) {
        Ok((found, height, rest)) => Ok((Some(found), height, rest)),
        Err(Miss::NoReading) => Ok((None, 0, tokens)),
        Err(Miss::Memory) => Err(Miss::Memory),
    }
}

/// What a `for` over the elements of something begins with.
fn each_header(declared: Option<(bool, Option<WrittenType>)>, name: Token, iterable: Expr) -> Header
    ensures reading { header_of result ≡ each_with declared name iterable }
    ensures deep { header_height (header_of result) ≡ higher (declared_height declared) (height iterable) }
{
    match declared {
        None => Header::Assigned { name, iterable },
        Some((is_final, written)) => Header::Declaring {
            is_final,
            written,
            name,
            iterable,
        },
    }
}

/// A name, `in` and an expression.
fn element<'k, B: Below<'k>>(
    below: &B,
    alloc: Global,
    tokens: &'k [Token],
) -> Result<((Token, Token, Expr), u32, &'k [Token]), Miss>
    requires limit { B.room below.now ≤ 200 }
    requires sound { B.sound below.now }
    ensures reading { Gives (λ x. ((x.0.0, (x.0.1, x.0.2)), x.2.now)) result
        ((take_token is_name ▸ take_token (is Kind.In) ▸ (lower (B.room below.now)).expression Setting.Plain) tokens.now) }
    ensures deep { IfOk result (λ x. IsDeep (B.room below.now) x.0.2 x.1) }
{
    let (name, rest) = name(tokens).ok_or(Miss::NoReading)?;
    let (word, rest) = token(rest, Kind::In).ok_or(Miss::NoReading)?;
    let (iterable, height, rest) = below.expression(alloc, Setting::Plain, rest)?;
    Ok(((name, word, iterable), height, rest))
}

/// Variables and a `;`, of which what stands before the names has been read: `start` is where they
/// begin.
fn declaring_start<'k, B: Below<'k>>(
    below: &B,
    alloc: Global,
    start: &[Token],
    before: (bool, Option<WrittenType>),
    reach: u32,
    tokens: &'k [Token],
) -> Result<(ForInitializer, u32, &'k [Token]), Miss>
    requires limit { B.room below.now ≤ 200 }
    requires sound { B.sound below.now }
    requires known { IsPartDeep (B.room below.now) before.1 reach }
    requires read { take_declared (lower (B.room below.now)) start.now ≡ Some (before, tokens.now) }
    ensures reading { Gives (λ x. (initial_of x.0, x.2.now)) result
        (take_turn (λ x. Some (ended x)) (take_variables (lower (B.room below.now)) ▸ take_token (is Kind.Semicolon)) start.now) }
    ensures deep { IfOk result (λ x. IsPartDeep (B.room below.now) (initial_of x.0) x.1) }
{
    let (variables, height, rest) = declared_variables(below, alloc, start, before, reach, tokens)?;
    let (_, rest) = token(rest, Kind::Semicolon).ok_or(Miss::NoReading)?;
    Ok((ForInitializer::Variables(variables), height, rest))
}

/// The expression that a `for` begins with, if it has one.
fn initial_expression(value: Option<Expr>) -> ForInitializer
    ensures { initial_of result ≡ value }
{
    match value {
        Some(value) => ForInitializer::Expression(value),
        None => ForInitializer::Absent,
    }
}

/// An expression, if there is one, and a `;`.
fn plain_start<'k, B: Below<'k>>(
    below: &B,
    alloc: Global,
    tokens: &'k [Token],
) -> Result<(ForInitializer, u32, &'k [Token]), Miss>
    requires limit { B.room below.now ≤ 200 }
    requires sound { B.sound below.now }
    ensures reading { Gives (λ x. (initial_of x.0, x.2.now)) result
        (take_turn ended (take_maybe ((lower (B.room below.now)).expression Setting.Plain) ▸ take_token (is Kind.Semicolon)) tokens.now) }
    ensures deep { IfOk result (λ x. IsPartDeep (B.room below.now) (initial_of x.0) x.1) }
{
    let (value, height, rest) = some_expression(below, alloc, tokens)?;
    let (_, rest) = token(rest, Kind::Semicolon).ok_or(Miss::NoReading)?;
    Ok((initial_expression(value), height, rest))
}

/// How a loop that counts begins, of which what stands before a name has been read: `begin` is where
/// it begins.
#[tactic(auto, unfolding(grammar::specs::Descents::take_start), using(crate::proofs::Once::maybe_some, crate::proofs::Once::maybe_none, crate::proofs::Once::undeclared_variables))]
fn start<'k, B: Below<'k>>(
    below: &B,
    alloc: Global,
    begin: &'k [Token],
    found: Option<(bool, Option<WrittenType>)>,
    reach: u32,
    tokens: &'k [Token],
) -> Result<(ForInitializer, u32, &'k [Token]), Miss>
    requires limit { B.room below.now ≤ 200 }
    requires sound { B.sound below.now }
    requires known { (reach ≡ declared_height found) × (reach ≤ B.room below.now) }
    requires read { take_maybe (take_declared (lower (B.room below.now))) begin.now ≡ Some (found, tokens.now) }
    ensures reading { Gives (λ x. (initial_of x.0, x.2.now)) result (take_start (lower (B.room below.now)) begin.now) }
    ensures deep { IfOk result (λ x. IsPartDeep (B.room below.now) (initial_of x.0) x.1) }
{
    let Some(before) = found else {
        return plain_start(below, alloc, begin);
    };
    match declaring_start(below, alloc, begin, before, reach, tokens) {
        Ok(found) => Ok(found),
        Err(Miss::NoReading) => plain_start(below, alloc, begin),
        Err(Miss::Memory) => Err(Miss::Memory),
    }
}

/// Expressions with commas between them.
#[tactic(auto, using(parse_leaves::specs::Loops::list_out, parse_leaves::specs::Loops::list_stop, parse_leaves::specs::Commas::comma_goes, parse_leaves::specs::Commas::comma_stop, parse_leaves::specs::Loops::continued_first, parse_leaves::specs::Sizes::heights_behind, parse_leaves::specs::Sizes::higher_within))]
fn updates<'k, B: Below<'k>>(
    below: &B,
    alloc: Global,
    tokens: &'k [Token],
) -> Result<(Vec<Expr>, u32, &'k [Token]), Miss>
    requires limit { B.room below.now ≤ 200 }
    requires sound { B.sound below.now }
    ensures reading { Gives (λ x. (x.0.items, x.2.now)) result (take_separated ((lower (B.room below.now)).expression Setting.Listed) tokens.now) }
    ensures deep { IfOk result (λ x. AreDeep (B.room below.now) x.0.items x.1) }
{
    let (first, mut height, mut rest) = below.expression(alloc, Setting::Listed, tokens)?;
    let mut list = Vec::new(alloc);
    list.push(first)?;
    let mut more = rest.len();
    while more > 0 {
        let Some((_, behind)) = token(rest, Kind::Comma) else {
            return Ok((list, height, rest));
        };
        match below.expression(alloc, Setting::Listed, behind) {
            Ok((next, tall, after)) => {
                list.push(next)?;
                height = higher(height, tall);
                rest = after;
                more -= 1;
            }
            Err(Miss::NoReading) => return Ok((list, height, rest)),
            Err(Miss::Memory) => return Err(Miss::Memory),
        }
    }
    Ok((list, height, rest))
}

/// Expressions with commas between them, if there are any.
fn some_updates<'k, B: Below<'k>>(
    below: &B,
    alloc: Global,
    tokens: &'k [Token],
) -> Result<(Option<Vec<Expr>>, u32, &'k [Token]), Miss>
    requires limit { B.room below.now ≤ 200 }
    requires sound { B.sound below.now }
    ensures reading { Gives (λ x. (option_map (λ v. v.items) x.0, x.2.now)) result
        (take_maybe (take_separated ((lower (B.room below.now)).expression Setting.Listed)) tokens.now) }
    ensures deep { IfOk result (λ x. AreDeep (B.room below.now) (listed_or_none (option_map (λ v. v.items) x.0)) x.1) }
{
    match updates(below, alloc, tokens) {
        Ok((found, height, rest)) => Ok((Some(found), height, rest)),
        Err(Miss::NoReading) => Ok((None, 0, tokens)),
        Err(Miss::Memory) => Err(Miss::Memory),
    }
}

/// The updates that were found, or none.
fn listed_updates(alloc: Global, found: Option<Vec<Expr>>) -> Vec<Expr>
    ensures { result.items ≡ listed_or_none (option_map (λ v. v.items) found) }
{
    match found {
        Some(list) => list,
        None => Vec::new(alloc),
    }
}

/// What a loop that counts begins with, of which what stands before a name has been read: `begin` is
/// where it begins.
#[tactic(auto, unfolding(grammar::specs::Descents::take_counted))]
fn counted<'k, B: Below<'k>>(
    below: &B,
    alloc: Global,
    begin: &'k [Token],
    found: Option<(bool, Option<WrittenType>)>,
    reach: u32,
    tokens: &'k [Token],
) -> Result<(Header, u32, &'k [Token]), Miss>
    requires limit { B.room below.now ≤ 200 }
    requires sound { B.sound below.now }
    requires known { (reach ≡ declared_height found) × (reach ≤ B.room below.now) }
    requires read { take_maybe (take_declared (lower (B.room below.now))) begin.now ≡ Some (found, tokens.now) }
    ensures reading { Gives (λ x. (header_of x.0, x.2.now)) result (take_counted (lower (B.room below.now)) begin.now) }
    ensures deep { IfOk result (λ x. (x.1 ≡ header_height (header_of x.0)) × (x.1 ≤ (B.room below.now))) }
{
    let (initializer, reach, rest) = start(below, alloc, begin, found, reach, tokens)?;
    let (condition, tall, rest) = some_expression(below, alloc, rest)?;
    let (_, rest) = token(rest, Kind::Semicolon).ok_or(Miss::NoReading)?;
    let (found, height, rest) = some_updates(below, alloc, rest)?;
    let header = Header::Counted {
        initializer,
        condition,
        updates: listed_updates(alloc, found),
    };
    Ok((header, higher(reach, higher(tall, height)), rest))
}

/// What stands between the parentheses of a `for`, of which what stands before a name has been read:
/// `begin` is where it begins.
#[tactic(auto, unfolding(grammar::specs::Descents::take_each))]
fn header_behind<'k, B: Below<'k>>(
    below: &B,
    alloc: Global,
    begin: &'k [Token],
    found: Option<(bool, Option<WrittenType>)>,
    reach: u32,
    tokens: &'k [Token],
) -> Result<(Header, u32, &'k [Token]), Miss>
    requires limit { B.room below.now ≤ 200 }
    requires sound { B.sound below.now }
    requires known { (reach ≡ declared_height found) × (reach ≤ B.room below.now) }
    requires read { take_maybe (take_declared (lower (B.room below.now))) begin.now ≡ Some (found, tokens.now) }
    ensures reading { Gives (λ x. (header_of x.0, x.2.now)) result
        ((take_each (lower (B.room below.now)) ⊘ take_counted (lower (B.room below.now))) begin.now) }
    ensures deep { IfOk result (λ x. (x.1 ≡ header_height (header_of x.0)) × (x.1 ≤ (B.room below.now))) }
{
    match element(below, alloc, tokens) {
        Ok(((name, _, iterable), height, rest)) => {
            let header = each_header(found, name, iterable);
            Ok((header, higher(reach, height), rest))
        }
        Err(Miss::NoReading) => counted(below, alloc, begin, found, reach, tokens),
        Err(Miss::Memory) => Err(Miss::Memory),
    }
}

/// What stands between the parentheses of a `for`: what stands before a name is read once.
#[tactic(auto, using(crate::proofs::Once::maybe_never))]
fn header<'k, B: Below<'k>>(
    below: &B,
    alloc: Global,
    tokens: &'k [Token],
) -> Result<(Header, u32, &'k [Token]), Miss>
    requires limit { B.room below.now ≤ 200 }
    requires sound { B.sound below.now }
    ensures reading { Gives (λ x. (header_of x.0, x.2.now)) result
        ((take_each (lower (B.room below.now)) ⊘ take_counted (lower (B.room below.now))) tokens.now) }
    ensures deep { IfOk result (λ x. (x.1 ≡ header_height (header_of x.0)) × (x.1 ≤ (B.room below.now))) }
{
    let (found, reach, rest) = some_declared(below, alloc, tokens)?;
    header_behind(below, alloc, tokens, found, reach, rest)
}

/// The parentheses of a `for`.
#[tactic(auto, using(parse_leaves::specs::Groups::inside_outside, parse_leaves::specs::Groups::group_missing, parse_leaves::specs::Groups::group_cut, parse_leaves::specs::Groups::group_whole))]
fn header_group<'k, B: Below<'k>>(
    below: &B,
    alloc: Global,
    tokens: &'k [Token],
) -> Result<(Token, Header, u32, &'k [Token]), Miss>
    requires limit { B.room below.now ≤ 200 }
    requires sound { B.sound below.now }
    ensures reading { Gives (λ x. ((x.0, header_of x.1), x.3.now)) result
        (take_inside (is Kind.OpenParenthesis) width past (take_each (lower (B.room below.now)) ⊘ take_counted (lower (B.room below.now))) tokens.now) }
    ensures deep { IfOk result (λ x. (x.2 ≡ header_height (header_of x.1)) × (x.2 ≤ (B.room below.now))) }
{
    let Some((opening, inside, rest)) = group(tokens, Kind::OpenParenthesis) else {
        return Err(Miss::NoReading);
    };
    match header(below, alloc, inside) {
        Ok((found, height, left)) => {
            if !left.is_empty() {
                return Err(Miss::NoReading);
            }
            Ok((opening, found, height, rest))
        }
        Err(Miss::NoReading) => Err(Miss::NoReading),
        Err(Miss::Memory) => Err(Miss::Memory),
    }
}

/// A `for` of what it begins with and its body.
#[tactic(auto, using(parse_leaves::specs::Sizes::higher_twice, parse_leaves::specs::Sizes::initial_part))]
fn for_node(
    alloc: Global,
    start: &[Token],
    after: &[Token],
    header: Header,
    body: Stmt,
) -> Result<Stmt, Miss>
    ensures reading { IfOk result (λ x. x ≡ for_with (tokens_read start.now after.now) (header_of header) body) }
    ensures deep { IfOk result (λ x. height x ≡ higher (header_height (header_of header)) (height body) + 1) }
    ensures whole { result ≢ Err NoReading }
{
    let at = place_over(start, after);
    let body = body;
    let node = match header {
        Header::Counted {
            initializer,
            condition,
            updates,
        } => StmtNode::For {
            at,
            initializer: Box::new(alloc, initializer)?,
            condition,
            updates,
            body,
        },
        Header::Assigned { name, iterable } => StmtNode::ForInAssignment {
            at,
            name: name_at(name),
            iterable,
            body,
        },
        Header::Declaring {
            is_final,
            written,
            name,
            iterable,
        } => StmtNode::ForIn {
            at,
            is_final,
            written,
            name: name_at(name),
            iterable,
            body,
        },
    };
    let node = Box::new(alloc, node)?;
    Ok(Stmt { node })
}

/// `for`.
#[tactic(auto, unfolding(grammar::specs::Descents::take_for))]
pub fn for_statement<'k, B: Below<'k>>(
    below: &B,
    alloc: Global,
    tokens: &'k [Token],
) -> Result<(Stmt, u32, &'k [Token]), Miss>
    requires limit { B.room below.now ≤ 200 }
    requires sound { B.sound below.now }
    ensures reading { Gives (λ x. (x.0, x.2.now)) result (take_for (lower (B.room below.now)) tokens.now) }
    ensures deep { IfOk result (λ x. IsDeep (B.room below.now + 1) x.0 x.1) }
{
    let (_, rest) = token(tokens, Kind::For).ok_or(Miss::NoReading)?;
    let (_, header, tall, rest) = header_group(below, alloc, rest)?;
    let (body, height, rest) = below.statement(alloc, rest)?;
    let statement = for_node(alloc, tokens, rest, header, body)?;
    Ok((statement, higher(tall, height) + 1, rest))
}
