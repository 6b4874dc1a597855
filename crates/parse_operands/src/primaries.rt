//! Primaries and selectors.

ghost use Rattle.std.specs.Prelude.{◌≡◌, ◌+◌, ◌≤◌, Some, true, false, IfOk};
ghost use Rattle.readings.specs.Descent.{take_token, take_maybe, take_where, take_turn, take_make, ◌▸◌};
ghost use Rattle.dart_tree.specs.Heights.{height};
ghost use Rattle.grammar.specs.Tokens.{is, is_name, heads};
ghost use Rattle.grammar.specs.Expressions.{generic_of, arrow_of, integer_of, boolean_of, null_of, this_of, super_of};
ghost use Rattle.grammar.specs.Descents.{lower, take_type_arguments, take_name, take_parenthesis, take_closure, take_new, take_simple, take_primary};
ghost use Rattle.parse_leaves.specs.Answers.{Finds, Gives, IsDeep};

use crate::arguments::{argument_list, collection};
use crate::strings::strings;
use dart_tokens::Kind;
use dart_tree::{Body, BodyNode, Expr, ExprNode};
use grammar::{Setting, Token};
use parse_leaves::{
    Below, Miss, block_body, expression_group, heads, heads_closure, heads_generic, heads_name,
    heads_string, higher, identifier_at, name, place_of, place_over, token,
};
use parse_types::{parameter_list, type_arguments};
use std::alloc::Global;

/// A name with type arguments.
fn generic_name<'k, B: Below<'k>>(
    below: &B,
    alloc: Global,
    tokens: &'k [Token],
) -> Result<(Expr, u32, &'k [Token]), Miss>
    requires limit { B.room below.now ≤ 200 }
    requires sound { B.sound below.now }
    ensures reading { Gives (λ x. (x.0, x.2.now)) result (take_make generic_of (take_token is_name ▸ take_type_arguments (lower (B.room below.now))) tokens.now) }
    ensures deep { IfOk result (λ x. IsDeep (B.room below.now + 1) x.0 x.1) }
{
    let (word, rest) = name(tokens).ok_or(Miss::NoReading)?;
    let (type_arguments, height, rest) = type_arguments(below, alloc, rest)?;
    let at = place_over(tokens, rest);
    let name = identifier_at(word);
    let node = Box::new(
        alloc,
        ExprNode::GenericIdentifier {
            at,
            name,
            type_arguments,
        },
    )?;
    Ok((Expr { node }, height + 1, rest))
}

/// A name.
#[tactic(auto, unfolding(grammar::specs::Descents::take_name))]
fn name_expression<'k, B: Below<'k>>(
    below: &B,
    alloc: Global,
    tokens: &'k [Token],
) -> Result<(Expr, u32, &'k [Token]), Miss>
    requires limit { B.room below.now ≤ 200 }
    requires sound { B.sound below.now }
    ensures reading { Gives (λ x. (x.0, x.2.now)) result (take_name (lower (B.room below.now)) tokens.now) }
    ensures deep { IfOk result (λ x. IsDeep (B.room below.now + 1) x.0 x.1) }
{
    if heads_generic(tokens) {
        return generic_name(below, alloc, tokens);
    }
    let (word, rest) = name(tokens).ok_or(Miss::NoReading)?;
    let node = Box::new(
        alloc,
        ExprNode::Identifier {
            at: place_of(word),
            word: word.word,
        },
    )?;
    Ok((Expr { node }, 1, rest))
}

/// An expression in parentheses.
#[tactic(auto, unfolding(grammar::specs::Descents::take_parenthesis))]
fn parenthesis<'k, B: Below<'k>>(
    below: &B,
    alloc: Global,
    tokens: &'k [Token],
) -> Result<(Expr, u32, &'k [Token]), Miss>
    requires limit { B.room below.now ≤ 200 }
    requires sound { B.sound below.now }
    ensures reading { Gives (λ x. (x.0, x.2.now)) result (take_parenthesis (lower (B.room below.now)) tokens.now) }
    ensures deep { IfOk result (λ x. IsDeep (B.room below.now + 1) x.0 x.1) }
{
    let ((_, value), height, rest) = expression_group(below, alloc, Kind::OpenParenthesis, tokens)?;
    let node = Box::new(
        alloc,
        ExprNode::Parenthesis {
            at: place_over(tokens, rest),
            inner: value,
        },
    )?;
    Ok((Expr { node }, height + 1, rest))
}

/// `=>` and an expression.
fn arrow_body<'k, B: Below<'k>>(
    below: &B,
    alloc: Global,
    setting: Setting,
    tokens: &'k [Token],
) -> Result<(Body, u32, &'k [Token]), Miss>
    requires limit { B.room below.now ≤ 200 }
    requires sound { B.sound below.now }
    ensures reading { Gives (λ x. (x.0, x.2.now)) result (take_make arrow_of (take_token (is Kind.Arrow) ▸ (lower (B.room below.now)).expression setting) tokens.now) }
    ensures deep { IfOk result (λ x. IsDeep (B.room below.now) x.0 x.1) }
{
    let (_, rest) = token(tokens, Kind::Arrow).ok_or(Miss::NoReading)?;
    let (value, height, rest) = below.expression(alloc, setting, rest)?;
    let node = BodyNode::Expression {
        at: place_over(tokens, rest),
        value: value,
    };
    Ok((Body { node }, height, rest))
}

/// The body of a closure.
fn closure_body<'k, B: Below<'k>>(
    below: &B,
    alloc: Global,
    setting: Setting,
    tokens: &'k [Token],
) -> Result<(Body, u32, &'k [Token]), Miss>
    requires limit { B.room below.now ≤ 200 }
    requires sound { B.sound below.now }
    ensures reading { Gives (λ x. (x.0, x.2.now)) result (take_where (heads Kind.Arrow) (take_make arrow_of (take_token (is Kind.Arrow) ▸ (lower (B.room below.now)).expression setting)) (lower (B.room below.now)).block tokens.now) }
    ensures deep { IfOk result (λ x. IsDeep (B.room below.now) x.0 x.1) }
{
    if heads(tokens, Kind::Arrow) {
        arrow_body(below, alloc, setting, tokens)
    } else {
        block_body(below, alloc, tokens)
    }
}

/// A closure.
#[tactic(auto, unfolding(grammar::specs::Descents::take_closure))]
fn closure<'k, B: Below<'k>>(
    below: &B,
    alloc: Global,
    setting: Setting,
    tokens: &'k [Token],
) -> Result<(Expr, u32, &'k [Token]), Miss>
    requires limit { B.room below.now ≤ 200 }
    requires sound { B.sound below.now }
    ensures reading { Gives (λ x. (x.0, x.2.now)) result (take_closure setting (lower (B.room below.now)) tokens.now) }
    ensures deep { IfOk result (λ x. IsDeep (B.room below.now + 1) x.0 x.1) }
{
    let (parameters, tall, rest) = parameter_list(below, alloc, tokens)?;
    let (body, height, rest) = closure_body(below, alloc, setting, rest)?;
    let at = place_over(tokens, rest);
    let parameters = Box::new(alloc, parameters)?;
    let body = Box::new(alloc, body)?;
    let node = Box::new(
        alloc,
        ExprNode::Function {
            at,
            parameters,
            body,
        },
    )?;
    Ok((Expr { node }, higher(tall, height) + 1, rest))
}

/// A `.` and a name.
fn dotted_name(tokens: &[Token]) -> Option<(Token, Token, &[Token])>
    ensures { Finds (λ x. ((x.0, x.1), x.2.now)) result ((take_token (is Kind.Period) ▸ take_token is_name) tokens.now) }
{
    let (period, rest) = token(tokens, Kind::Period)?;
    let (word, rest) = name(rest)?;
    Some((period, word, rest))
}

/// A `.` and a name, if they come next.
pub fn some_dotted_name(tokens: &[Token]) -> (Option<(Token, Token)>, &[Token])
    ensures { take_maybe (take_token (is Kind.Period) ▸ take_token is_name) tokens.now ≡ Some (result.0, result.1.now) }
{
    match dotted_name(tokens) {
        Some((period, word, rest)) => (Some((period, word)), rest),
        None => (None, tokens),
    }
}

/// `new`, a type and arguments.
#[tactic(auto, unfolding(grammar::specs::Descents::take_new))]
fn new_expression<'k, B: Below<'k>>(
    below: &B,
    alloc: Global,
    tokens: &'k [Token],
) -> Result<(Expr, u32, &'k [Token]), Miss>
    requires limit { B.room below.now ≤ 200 }
    requires sound { B.sound below.now }
    ensures reading { Gives (λ x. (x.0, x.2.now)) result (take_new (lower (B.room below.now)) tokens.now) }
    ensures deep { IfOk result (λ x. IsDeep (B.room below.now + 1) x.0 x.1) }
{
    let (_, rest) = token(tokens, Kind::New).ok_or(Miss::NoReading)?;
    let (written, tall, rest) = below.constructed(alloc, rest)?;
    let (found, rest) = some_dotted_name(rest);
    let (arguments, height, rest) = argument_list(below, alloc, rest)?;
    let at = place_over(tokens, rest);
    let name = found.map(|(_, word)| identifier_at(word));
    let node = Box::new(
        alloc,
        ExprNode::New {
            at,
            written,
            name,
            arguments,
        },
    )?;
    Ok((Expr { node }, higher(tall, height) + 1, rest))
}

/// An integer.
fn integer(alloc: Global, tokens: &[Token]) -> Result<(Expr, u32, &[Token]), Miss>
    ensures reading { Gives (λ x. (x.0, x.2.now)) result (take_turn integer_of (take_token (is Kind.Integer)) tokens.now) }
    ensures deep { IfOk result (λ x. (x.1 ≡ height x.0) × (x.1 ≡ 1)) }
{
    let (word, rest) = token(tokens, Kind::Integer).ok_or(Miss::NoReading)?;
    let at = place_of(word);
    let node = Box::new(
        alloc,
        ExprNode::Integer {
            at,
            word: word.word,
        },
    )?;
    Ok((Expr { node }, 1, rest))
}

/// `true`.
fn true_word(alloc: Global, tokens: &[Token]) -> Result<(Expr, u32, &[Token]), Miss>
    ensures reading { Gives (λ x. (x.0, x.2.now)) result (take_turn (boolean_of true) (take_token (is Kind.True)) tokens.now) }
    ensures deep { IfOk result (λ x. (x.1 ≡ height x.0) × (x.1 ≡ 1)) }
{
    let (word, rest) = token(tokens, Kind::True).ok_or(Miss::NoReading)?;
    let at = place_of(word);
    let node = Box::new(alloc, ExprNode::Boolean { at, value: true })?;
    Ok((Expr { node }, 1, rest))
}

/// `false`.
fn false_word(alloc: Global, tokens: &[Token]) -> Result<(Expr, u32, &[Token]), Miss>
    ensures reading { Gives (λ x. (x.0, x.2.now)) result (take_turn (boolean_of false) (take_token (is Kind.False)) tokens.now) }
    ensures deep { IfOk result (λ x. (x.1 ≡ height x.0) × (x.1 ≡ 1)) }
{
    let (word, rest) = token(tokens, Kind::False).ok_or(Miss::NoReading)?;
    let at = place_of(word);
    let node = Box::new(alloc, ExprNode::Boolean { at, value: false })?;
    Ok((Expr { node }, 1, rest))
}

/// `null`.
fn null(alloc: Global, tokens: &[Token]) -> Result<(Expr, u32, &[Token]), Miss>
    ensures reading { Gives (λ x. (x.0, x.2.now)) result (take_turn null_of (take_token (is Kind.Null)) tokens.now) }
    ensures deep { IfOk result (λ x. (x.1 ≡ height x.0) × (x.1 ≡ 1)) }
{
    let (word, rest) = token(tokens, Kind::Null).ok_or(Miss::NoReading)?;
    let at = place_of(word);
    let node = Box::new(alloc, ExprNode::Null { at })?;
    Ok((Expr { node }, 1, rest))
}

/// `this`.
fn this(alloc: Global, tokens: &[Token]) -> Result<(Expr, u32, &[Token]), Miss>
    ensures reading { Gives (λ x. (x.0, x.2.now)) result (take_turn this_of (take_token (is Kind.This)) tokens.now) }
    ensures deep { IfOk result (λ x. (x.1 ≡ height x.0) × (x.1 ≡ 1)) }
{
    let (word, rest) = token(tokens, Kind::This).ok_or(Miss::NoReading)?;
    let at = place_of(word);
    let node = Box::new(alloc, ExprNode::This { at })?;
    Ok((Expr { node }, 1, rest))
}

/// `super`.
fn super_word(alloc: Global, tokens: &[Token]) -> Result<(Expr, u32, &[Token]), Miss>
    ensures reading { Gives (λ x. (x.0, x.2.now)) result (take_turn super_of (take_token (is Kind.Super)) tokens.now) }
    ensures deep { IfOk result (λ x. (x.1 ≡ height x.0) × (x.1 ≡ 1)) }
{
    let (word, rest) = token(tokens, Kind::Super).ok_or(Miss::NoReading)?;
    let at = place_of(word);
    let node = Box::new(alloc, ExprNode::Super { at })?;
    Ok((Expr { node }, 1, rest))
}

/// What a string names behind `$`.
#[tactic(auto, unfolding(grammar::specs::Descents::take_simple))]
pub fn simple_within(alloc: Global, tokens: &[Token]) -> Result<(Expr, u32, &[Token]), Miss>
    ensures reading { Gives (λ x. (x.0, x.2.now)) result (take_simple tokens.now) }
    ensures deep { IfOk result (λ x. (x.1 ≡ height x.0) × (x.1 ≡ 1)) }
{
    if !heads_name(tokens) {
        return this(alloc, tokens);
    }
    let (word, rest) = name(tokens).ok_or(Miss::NoReading)?;
    let node = Box::new(
        alloc,
        ExprNode::Identifier {
            at: place_of(word),
            word: word.word,
        },
    )?;
    Ok((Expr { node }, 1, rest))
}

/// A primary.
#[tactic(auto, unfolding(grammar::specs::Descents::take_primary))]
pub fn primary<'k, B: Below<'k>>(
    below: &B,
    alloc: Global,
    setting: Setting,
    tokens: &'k [Token],
) -> Result<(Expr, u32, &'k [Token]), Miss>
    requires limit { B.room below.now ≤ 200 }
    requires sound { B.sound below.now }
    ensures reading { Gives (λ x. (x.0, x.2.now)) result (take_primary setting (lower (B.room below.now)) tokens.now) }
    ensures deep { IfOk result (λ x. IsDeep (B.room below.now + 1) x.0 x.1) }
{
    if heads(tokens, Kind::Integer) {
        return integer(alloc, tokens);
    }
    if heads_string(tokens) {
        return strings(below, alloc, tokens);
    }
    if heads(tokens, Kind::True) {
        return true_word(alloc, tokens);
    }
    if heads(tokens, Kind::False) {
        return false_word(alloc, tokens);
    }
    if heads(tokens, Kind::Null) {
        return null(alloc, tokens);
    }
    if heads(tokens, Kind::This) {
        return this(alloc, tokens);
    }
    if heads(tokens, Kind::Super) {
        return super_word(alloc, tokens);
    }
    if heads_name(tokens) {
        return name_expression(below, alloc, tokens);
    }
    if heads(tokens, Kind::OpenParenthesis) {
        if heads_closure(setting, tokens) {
            return closure(below, alloc, setting, tokens);
        }
        return parenthesis(below, alloc, tokens);
    }
    if heads(tokens, Kind::New) {
        return new_expression(below, alloc, tokens);
    }
    collection(below, alloc, tokens)
}
