//! Statements.

ghost use Rattle.std.specs.Prelude.{◌≡◌, ◌≢◌, ◌+◌, ◌≤◌, true, false, None, Some, Err, option_map, IfOk};
ghost use Rattle.readings.specs.Readings.{next};
ghost use Rattle.readings.specs.Descent.{take_token, take_given, take_maybe, take_where, take_before, take_turn, ◌▸◌, ◌⊘◌};
ghost use Rattle.dart_tree.specs.Heights.{height};
ghost use Rattle.grammar.specs.Tokens.{is, is_either, is_name, heads_name, first_then};
ghost use Rattle.grammar.specs.Statements.{ends_open};
ghost use Rattle.grammar.specs.Descents.{lower, take_expression_statement, take_return, take_break, take_continue, take_rethrow, take_labeled, take_condition, take_if, take_while, take_do, take_function_statement, take_variable_statement, take_other_statement, take_block, take_statement};
ghost use Rattle.parse_leaves.specs.declared.miss.Miss.TheVariants.{NoReading};
ghost use Rattle.parse_leaves.specs.Answers.{Gives, IsDeep};
ghost use Rattle.parse_leaves.specs.Parts.{IsPartDeep};

use crate::blocks::{
    block_group, function_statement_behind, some_name_type, variable_statement,
    variable_statement_behind,
};
use crate::loops::for_statement;
use crate::switches::switch_statement;
use crate::tries::try_statement;
use dart_tokens::Kind;
use dart_tree::{Expr, Stmt, StmtNode, WrittenType};
use grammar::{Setting, Token};
use parse_leaves::{
    Below, Miss, expression_group, heads, heads_either, heads_label, higher, identifier_at, name,
    name_at, place_over, some_name, token,
};
use std::alloc::Global;

/// An expression, if one comes next.
pub fn some_expression<'k, B: Below<'k>>(
    below: &B,
    alloc: Global,
    tokens: &'k [Token],
) -> Result<(Option<Expr>, u32, &'k [Token]), Miss>
    requires limit { B.room below.now ≤ 200 }
    requires sound { B.sound below.now }
    ensures reading { Gives (λ x. (x.0, x.2.now)) result (take_maybe ((lower (B.room below.now)).expression Setting.Plain) tokens.now) }
    ensures deep { IfOk result (λ x. IsPartDeep (B.room below.now) x.0 x.1) }
{
    match below.expression(alloc, Setting::Plain, tokens) {
        Ok((found, height, rest)) => Ok((Some(found), height, rest)),
        Err(Miss::NoReading) => Ok((None, 0, tokens)),
        Err(Miss::Memory) => Err(Miss::Memory),
    }
}

/// An expression, if there is one, and a `;`.
#[tactic(auto, unfolding(grammar::specs::Descents::take_expression_statement))]
fn expression_statement<'k, B: Below<'k>>(
    below: &B,
    alloc: Global,
    tokens: &'k [Token],
) -> Result<(Stmt, u32, &'k [Token]), Miss>
    requires limit { B.room below.now ≤ 200 }
    requires sound { B.sound below.now }
    ensures reading { Gives (λ x. (x.0, x.2.now)) result (take_expression_statement (lower (B.room below.now)) tokens.now) }
    ensures deep { IfOk result (λ x. IsDeep (B.room below.now + 1) x.0 x.1) }
{
    let (value, height, rest) = some_expression(below, alloc, tokens)?;
    let (_, rest) = token(rest, Kind::Semicolon).ok_or(Miss::NoReading)?;
    let at = place_over(tokens, rest);
    let node = Box::new(alloc, StmtNode::Expression { at, value })?;
    Ok((Stmt { node }, height + 1, rest))
}

/// `return`.
#[tactic(auto, unfolding(grammar::specs::Descents::take_return))]
fn return_statement<'k, B: Below<'k>>(
    below: &B,
    alloc: Global,
    tokens: &'k [Token],
) -> Result<(Stmt, u32, &'k [Token]), Miss>
    requires limit { B.room below.now ≤ 200 }
    requires sound { B.sound below.now }
    ensures reading { Gives (λ x. (x.0, x.2.now)) result (take_return (lower (B.room below.now)) tokens.now) }
    ensures deep { IfOk result (λ x. IsDeep (B.room below.now + 1) x.0 x.1) }
{
    let (_, rest) = token(tokens, Kind::Return).ok_or(Miss::NoReading)?;
    let (value, height, rest) = some_expression(below, alloc, rest)?;
    let (_, rest) = token(rest, Kind::Semicolon).ok_or(Miss::NoReading)?;
    let at = place_over(tokens, rest);
    let node = Box::new(alloc, StmtNode::Return { at, value })?;
    Ok((Stmt { node }, height + 1, rest))
}

/// `break`.
#[tactic(auto, unfolding(grammar::specs::Descents::take_break))]
fn break_statement(alloc: Global, tokens: &[Token]) -> Result<(Stmt, u32, &[Token]), Miss>
    ensures reading { Gives (λ x. (x.0, x.2.now)) result (take_break tokens.now) }
    ensures deep { IfOk result (λ x. (x.1 ≡ height x.0) × (x.1 ≡ 1)) }
{
    let (_, rest) = token(tokens, Kind::Break).ok_or(Miss::NoReading)?;
    let (found, rest) = some_name(rest);
    let (_, rest) = token(rest, Kind::Semicolon).ok_or(Miss::NoReading)?;
    let at = place_over(tokens, rest);
    let label = found.map(|word| identifier_at(word));
    let node = Box::new(alloc, StmtNode::Break { at, label })?;
    Ok((Stmt { node }, 1, rest))
}

/// `continue`.
#[tactic(auto, unfolding(grammar::specs::Descents::take_continue))]
fn continue_statement(alloc: Global, tokens: &[Token]) -> Result<(Stmt, u32, &[Token]), Miss>
    ensures reading { Gives (λ x. (x.0, x.2.now)) result (take_continue tokens.now) }
    ensures deep { IfOk result (λ x. (x.1 ≡ height x.0) × (x.1 ≡ 1)) }
{
    let (_, rest) = token(tokens, Kind::Continue).ok_or(Miss::NoReading)?;
    let (found, rest) = some_name(rest);
    let (_, rest) = token(rest, Kind::Semicolon).ok_or(Miss::NoReading)?;
    let at = place_over(tokens, rest);
    let label = found.map(|word| identifier_at(word));
    let node = Box::new(alloc, StmtNode::Continue { at, label })?;
    Ok((Stmt { node }, 1, rest))
}

/// `rethrow`.
#[tactic(auto, unfolding(grammar::specs::Descents::take_rethrow))]
fn rethrow_statement(alloc: Global, tokens: &[Token]) -> Result<(Stmt, u32, &[Token]), Miss>
    ensures reading { Gives (λ x. (x.0, x.2.now)) result (take_rethrow tokens.now) }
    ensures deep { IfOk result (λ x. (x.1 ≡ height x.0) × (x.1 ≡ 1)) }
{
    let (_, rest) = token(tokens, Kind::Rethrow).ok_or(Miss::NoReading)?;
    let (_, rest) = token(rest, Kind::Semicolon).ok_or(Miss::NoReading)?;
    let at = place_over(tokens, rest);
    let node = Box::new(alloc, StmtNode::Rethrow { at })?;
    Ok((Stmt { node }, 1, rest))
}

/// A label and a statement.
#[tactic(auto, unfolding(grammar::specs::Descents::take_labeled))]
fn labeled_statement<'k, B: Below<'k>>(
    below: &B,
    alloc: Global,
    tokens: &'k [Token],
) -> Result<(Stmt, u32, &'k [Token]), Miss>
    requires limit { B.room below.now ≤ 200 }
    requires sound { B.sound below.now }
    ensures reading { Gives (λ x. (x.0, x.2.now)) result (take_labeled (lower (B.room below.now)) tokens.now) }
    ensures deep { IfOk result (λ x. IsDeep (B.room below.now + 1) x.0 x.1) }
{
    let (word, rest) = name(tokens).ok_or(Miss::NoReading)?;
    let (_, rest) = token(rest, Kind::Colon).ok_or(Miss::NoReading)?;
    let (body, height, rest) = below.statement(alloc, rest)?;
    let node = Box::new(
        alloc,
        StmtNode::Labeled {
            at: place_over(tokens, rest),
            label: name_at(word),
            body,
        },
    )?;
    Ok((Stmt { node }, height + 1, rest))
}

/// An expression in parentheses, as a condition.
#[tactic(auto, unfolding(grammar::specs::Descents::take_condition))]
pub fn condition<'k, B: Below<'k>>(
    below: &B,
    alloc: Global,
    tokens: &'k [Token],
) -> Result<(Expr, u32, &'k [Token]), Miss>
    requires limit { B.room below.now ≤ 200 }
    requires sound { B.sound below.now }
    ensures reading { Gives (λ x. (x.0, x.2.now)) result (take_condition (lower (B.room below.now)) tokens.now) }
    ensures deep { IfOk result (λ x. IsDeep (B.room below.now) x.0 x.1) }
{
    let ((_, value), height, rest) = expression_group(below, alloc, Kind::OpenParenthesis, tokens)?;
    Ok((value, height, rest))
}

/// `else` and a statement.
fn else_branch<'k, B: Below<'k>>(
    below: &B,
    alloc: Global,
    tokens: &'k [Token],
) -> Result<(Stmt, u32, &'k [Token]), Miss>
    requires limit { B.room below.now ≤ 200 }
    requires sound { B.sound below.now }
    ensures reading { Gives (λ x. (x.0, x.2.now)) result (take_turn (λ x. x.1) (take_token (is Kind.Else) ▸ (lower (B.room below.now)).statement) tokens.now) }
    ensures deep { IfOk result (λ x. IsDeep (B.room below.now) x.0 x.1) }
{
    let (_, rest) = token(tokens, Kind::Else).ok_or(Miss::NoReading)?;
    let (branch, height, rest) = below.statement(alloc, rest)?;
    Ok((branch, height, rest))
}

/// The statement ends with an `if` that has no `else`.
fn ends_open(statement: &Stmt) -> bool
    ensures { result ≡ ends_open statement.now }
{
    match &*statement.node {
        StmtNode::If { else_branch, .. } => match else_branch {
            None => true,
            Some(branch) => ends_open(branch),
        },
        StmtNode::While { body, .. } => ends_open(body),
        StmtNode::For { body, .. } => ends_open(body),
        StmtNode::ForIn { body, .. } => ends_open(body),
        StmtNode::ForInAssignment { body, .. } => ends_open(body),
        StmtNode::Labeled { body, .. } => ends_open(body),
        _ => false,
    }
}

/// The statement behind an `else`, if one comes next and goes to the `if` of this branch.
#[tactic(auto, using(crate::proofs::Nearest::no_else))]
fn some_else_branch<'k, B: Below<'k>>(
    below: &B,
    alloc: Global,
    branch: &Stmt,
    tokens: &'k [Token],
) -> Result<(Option<Stmt>, u32, &'k [Token]), Miss>
    requires limit { B.room below.now ≤ 200 }
    requires sound { B.sound below.now }
    ensures reading { Gives (λ x. (x.0, x.2.now)) result
        (take_where (λ ts. ends_open branch.now) (take_given None)
        (take_maybe (take_turn (λ x. x.1) (take_token (is Kind.Else) ▸ (lower (B.room below.now)).statement))) tokens.now) }
    ensures deep { IfOk result (λ x. IsPartDeep (B.room below.now) x.0 x.1) }
    ensures whole { result ≢ Err NoReading }
{
    if !heads(tokens, Kind::Else) || ends_open(branch) {
        return Ok((None, 0, tokens));
    }
    match else_branch(below, alloc, tokens) {
        Ok((found, height, rest)) => Ok((Some(found), height, rest)),
        Err(Miss::NoReading) => Ok((None, 0, tokens)),
        Err(Miss::Memory) => Err(Miss::Memory),
    }
}

/// `if`.
#[tactic(auto, unfolding(grammar::specs::Descents::take_if), using(crate::proofs::Nearest::nearest_read))]
fn if_statement<'k, B: Below<'k>>(
    below: &B,
    alloc: Global,
    tokens: &'k [Token],
) -> Result<(Stmt, u32, &'k [Token]), Miss>
    requires limit { B.room below.now ≤ 200 }
    requires sound { B.sound below.now }
    ensures reading { Gives (λ x. (x.0, x.2.now)) result (take_if (lower (B.room below.now)) tokens.now) }
    ensures deep { IfOk result (λ x. IsDeep (B.room below.now + 1) x.0 x.1) }
{
    let (_, rest) = token(tokens, Kind::If).ok_or(Miss::NoReading)?;
    let (condition, reach, rest) = condition(below, alloc, rest)?;
    let (branch, tall, rest) = below.statement(alloc, rest)?;
    let (found, height, rest) = some_else_branch(below, alloc, &branch, rest)?;
    let node = Box::new(
        alloc,
        StmtNode::If {
            at: place_over(tokens, rest),
            condition,
            then_branch: branch,
            else_branch: found,
        },
    )?;
    Ok((Stmt { node }, higher(reach, higher(tall, height)) + 1, rest))
}

/// `while`.
#[tactic(auto, unfolding(grammar::specs::Descents::take_while))]
fn while_statement<'k, B: Below<'k>>(
    below: &B,
    alloc: Global,
    tokens: &'k [Token],
) -> Result<(Stmt, u32, &'k [Token]), Miss>
    requires limit { B.room below.now ≤ 200 }
    requires sound { B.sound below.now }
    ensures reading { Gives (λ x. (x.0, x.2.now)) result (take_while (lower (B.room below.now)) tokens.now) }
    ensures deep { IfOk result (λ x. IsDeep (B.room below.now + 1) x.0 x.1) }
{
    let (_, rest) = token(tokens, Kind::While).ok_or(Miss::NoReading)?;
    let (condition, tall, rest) = condition(below, alloc, rest)?;
    let (body, height, rest) = below.statement(alloc, rest)?;
    let node = Box::new(
        alloc,
        StmtNode::While {
            at: place_over(tokens, rest),
            condition,
            body,
        },
    )?;
    Ok((Stmt { node }, higher(tall, height) + 1, rest))
}

/// `do`.
#[tactic(auto, unfolding(grammar::specs::Descents::take_do))]
fn do_statement<'k, B: Below<'k>>(
    below: &B,
    alloc: Global,
    tokens: &'k [Token],
) -> Result<(Stmt, u32, &'k [Token]), Miss>
    requires limit { B.room below.now ≤ 200 }
    requires sound { B.sound below.now }
    ensures reading { Gives (λ x. (x.0, x.2.now)) result (take_do (lower (B.room below.now)) tokens.now) }
    ensures deep { IfOk result (λ x. IsDeep (B.room below.now + 1) x.0 x.1) }
{
    let (_, rest) = token(tokens, Kind::Do).ok_or(Miss::NoReading)?;
    let (body, tall, rest) = below.statement(alloc, rest)?;
    let (_, rest) = token(rest, Kind::While).ok_or(Miss::NoReading)?;
    let (condition, height, rest) = condition(below, alloc, rest)?;
    let (_, rest) = token(rest, Kind::Semicolon).ok_or(Miss::NoReading)?;
    let node = Box::new(
        alloc,
        StmtNode::Do {
            at: place_over(tokens, rest),
            body,
            condition,
        },
    )?;
    Ok((Stmt { node }, higher(tall, height) + 1, rest))
}

/// A statement that declares variables or is an expression.
fn variables_or_expression<'k, B: Below<'k>>(
    below: &B,
    alloc: Global,
    tokens: &'k [Token],
) -> Result<(Stmt, u32, &'k [Token]), Miss>
    requires limit { B.room below.now ≤ 200 }
    requires sound { B.sound below.now }
    ensures reading { Gives (λ x. (x.0, x.2.now)) result
        ((take_variable_statement (lower (B.room below.now)) ⊘ take_expression_statement (lower (B.room below.now))) tokens.now) }
    ensures deep { IfOk result (λ x. IsDeep (B.room below.now + 1) x.0 x.1) }
{
    match variable_statement(below, alloc, tokens) {
        Ok(found) => Ok(found),
        Err(Miss::NoReading) => expression_statement(below, alloc, tokens),
        Err(Miss::Memory) => Err(Miss::Memory),
    }
}

/// A name comes next, and behind it what the parameters of a function begin with.
fn heads_function(tokens: &[Token]) -> bool
    ensures { result ≡ first_then is_name (next (is_either Kind.OpenParenthesis Kind.Less)) tokens.now }
{
    match tokens.split_first() {
        Some((first, rest)) => {
            first.kind.is_identifier() && heads_either(rest, Kind::OpenParenthesis, Kind::Less)
        }
        None => false,
    }
}

/// A function of which the type of the result has been read, or an expression: a `(` or `<` behind
/// the name leaves no variables.
fn function_or_expression<'k, B: Below<'k>>(
    below: &B,
    alloc: Global,
    start: &'k [Token],
    written: Option<WrittenType>,
    reach: u32,
    tokens: &'k [Token],
) -> Result<(Stmt, u32, &'k [Token]), Miss>
    requires limit { B.room below.now ≤ 200 }
    requires sound { B.sound below.now }
    requires known { IsPartDeep (B.room below.now) written reach }
    requires plain { next (is_either Kind.Final Kind.Var) start.now ≡ false }
    requires read { take_maybe (take_before heads_name (lower (B.room below.now)).named) start.now ≡ Some (written, tokens.now) }
    requires called { first_then is_name (next (is_either Kind.OpenParenthesis Kind.Less)) tokens.now ≡ true }
    ensures reading { Gives (λ x. (x.0, x.2.now)) result
        ((take_function_statement (lower (B.room below.now)) ⊘ take_variable_statement (lower (B.room below.now))
        ⊘ take_expression_statement (lower (B.room below.now))) start.now) }
    ensures deep { IfOk result (λ x. IsDeep (B.room below.now + 1) x.0 x.1) }
{
    match function_statement_behind(below, alloc, start, written, reach, tokens) {
        Ok(found) => Ok(found),
        Err(Miss::NoReading) => expression_statement(below, alloc, start),
        Err(Miss::Memory) => Err(Miss::Memory),
    }
}

/// Variables of which the type has been read, or an expression.
#[tactic(auto, using(crate::proofs::Once::typed_declared))]
fn typed_or_expression<'k, B: Below<'k>>(
    below: &B,
    alloc: Global,
    start: &'k [Token],
    written: WrittenType,
    reach: u32,
    tokens: &'k [Token],
) -> Result<(Stmt, u32, &'k [Token]), Miss>
    requires limit { B.room below.now ≤ 200 }
    requires sound { B.sound below.now }
    requires known { IsDeep (B.room below.now) written reach }
    requires plain { next (is_either Kind.Final Kind.Var) start.now ≡ false }
    requires read { take_maybe (take_before heads_name (lower (B.room below.now)).named) start.now ≡ Some (Some written, tokens.now) }
    ensures reading { Gives (λ x. (x.0, x.2.now)) result
        ((take_variable_statement (lower (B.room below.now)) ⊘ take_expression_statement (lower (B.room below.now))) start.now) }
    ensures deep { IfOk result (λ x. IsDeep (B.room below.now + 1) x.0 x.1) }
{
    let before = (false, Some(written));
    match variable_statement_behind(below, alloc, start, before, reach, tokens) {
        Ok(found) => Ok(found),
        Err(Miss::NoReading) => expression_statement(below, alloc, start),
        Err(Miss::Memory) => Err(Miss::Memory),
    }
}

/// A statement that begins with a type or a name, of which a type in front of a name has been read.
#[tactic(auto, using(crate::proofs::Once::uncalled_function, crate::proofs::Once::untyped_variables))]
fn statement_behind<'k, B: Below<'k>>(
    below: &B,
    alloc: Global,
    start: &'k [Token],
    found: Option<WrittenType>,
    reach: u32,
    tokens: &'k [Token],
) -> Result<(Stmt, u32, &'k [Token]), Miss>
    requires limit { B.room below.now ≤ 200 }
    requires sound { B.sound below.now }
    requires known { IsPartDeep (B.room below.now) found reach }
    requires plain { next (is_either Kind.Final Kind.Var) start.now ≡ false }
    requires read { take_maybe (take_before heads_name (lower (B.room below.now)).named) start.now ≡ Some (found, tokens.now) }
    ensures reading { Gives (λ x. (x.0, x.2.now)) result
        ((take_function_statement (lower (B.room below.now)) ⊘ take_variable_statement (lower (B.room below.now))
        ⊘ take_expression_statement (lower (B.room below.now))) start.now) }
    ensures deep { IfOk result (λ x. IsDeep (B.room below.now + 1) x.0 x.1) }
{
    if heads_function(tokens) {
        return function_or_expression(below, alloc, start, found, reach, tokens);
    }
    match found {
        Some(written) => typed_or_expression(below, alloc, start, written, reach, tokens),
        None => expression_statement(below, alloc, start),
    }
}

/// A statement that declares a function or variables, or is an expression: a type in front of a name
/// is read once.
#[tactic(auto, using(crate::proofs::Once::word_function, crate::proofs::Once::maybe_never))]
fn function_or_other<'k, B: Below<'k>>(
    below: &B,
    alloc: Global,
    tokens: &'k [Token],
) -> Result<(Stmt, u32, &'k [Token]), Miss>
    requires limit { B.room below.now ≤ 200 }
    requires sound { B.sound below.now }
    ensures reading { Gives (λ x. (x.0, x.2.now)) result
        ((take_function_statement (lower (B.room below.now)) ⊘ take_variable_statement (lower (B.room below.now))
        ⊘ take_expression_statement (lower (B.room below.now))) tokens.now) }
    ensures deep { IfOk result (λ x. IsDeep (B.room below.now + 1) x.0 x.1) }
{
    if heads_either(tokens, Kind::Final, Kind::Var) {
        return variables_or_expression(below, alloc, tokens);
    }
    let (found, reach, rest) = some_name_type(below, alloc, tokens)?;
    statement_behind(below, alloc, tokens, found, reach, rest)
}

/// A statement that no word tells.
#[tactic(auto, unfolding(grammar::specs::Descents::take_other_statement))]
fn other_statement<'k, B: Below<'k>>(
    below: &B,
    alloc: Global,
    tokens: &'k [Token],
) -> Result<(Stmt, u32, &'k [Token]), Miss>
    requires limit { B.room below.now ≤ 200 }
    requires sound { B.sound below.now }
    ensures reading { Gives (λ x. (x.0, x.2.now)) result (take_other_statement (lower (B.room below.now)) tokens.now) }
    ensures deep { IfOk result (λ x. IsDeep (B.room below.now + 1) x.0 x.1) }
{
    if heads_label(tokens) {
        labeled_statement(below, alloc, tokens)
    } else {
        function_or_other(below, alloc, tokens)
    }
}

/// A block as a statement.
#[tactic(auto, unfolding(grammar::specs::Descents::take_block))]
fn block_statement(alloc: Global, tokens: &[Token]) -> Result<(Stmt, u32, &[Token]), Miss>
    ensures reading { Gives (λ x. (x.0, x.2.now)) result (take_block tokens.now) }
    ensures deep { IfOk result (λ x. (x.1 ≡ height x.0) × (x.1 ≡ 1)) }
{
    let (_, statements, rest) = block_group(alloc, tokens)?;
    let at = place_over(tokens, rest);
    let node = Box::new(alloc, StmtNode::Block { at, statements })?;
    Ok((Stmt { node }, 1, rest))
}

/// A statement.
#[tactic(auto, unfolding(grammar::specs::Descents::take_statement))]
pub fn statement_within<'k, B: Below<'k>>(
    below: &B,
    alloc: Global,
    tokens: &'k [Token],
) -> Result<(Stmt, u32, &'k [Token]), Miss>
    requires limit { B.room below.now ≤ 200 }
    requires sound { B.sound below.now }
    ensures reading { Gives (λ x. (x.0, x.2.now)) result (take_statement (lower (B.room below.now)) tokens.now) }
    ensures deep { IfOk result (λ x. IsDeep (B.room below.now + 1) x.0 x.1) }
{
    if heads(tokens, Kind::OpenBrace) {
        return block_statement(alloc, tokens);
    }
    if heads(tokens, Kind::If) {
        return if_statement(below, alloc, tokens);
    }
    if heads(tokens, Kind::While) {
        return while_statement(below, alloc, tokens);
    }
    if heads(tokens, Kind::Do) {
        return do_statement(below, alloc, tokens);
    }
    if heads(tokens, Kind::For) {
        return for_statement(below, alloc, tokens);
    }
    if heads(tokens, Kind::Switch) {
        return switch_statement(below, alloc, tokens);
    }
    if heads(tokens, Kind::Try) {
        return try_statement(below, alloc, tokens);
    }
    if heads(tokens, Kind::Return) {
        return return_statement(below, alloc, tokens);
    }
    if heads(tokens, Kind::Break) {
        return break_statement(alloc, tokens);
    }
    if heads(tokens, Kind::Continue) {
        return continue_statement(alloc, tokens);
    }
    if heads(tokens, Kind::Rethrow) {
        return rethrow_statement(alloc, tokens);
    }
    other_statement(below, alloc, tokens)
}
