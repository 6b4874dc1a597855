//! Selectors, and operands with what stands before and behind them.

ghost use Rattle.std.specs.Prelude.{◌≡◌, ◌≢◌, ◌+◌, ◌≤◌, Err, length, IfOk};
ghost use Rattle.readings.specs.Readings.{tokens_read};
ghost use Rattle.readings.specs.Descent.{take_token, take_inside, take_turn, take_make, take_onto, ◌▸◌};
ghost use Rattle.dart_tree.specs.Heights.{higher, height};
ghost use Rattle.grammar.specs.Tokens.{is, is_name, width, past};
ghost use Rattle.grammar.specs.Expressions.{member_of, element_of, check_of, plain_call_of, generic_call_of, select_with, postfix_of, unary_of, is_open};
ghost use Rattle.grammar.specs.Descents.{lower, take_type_arguments, take_arguments, take_selector, take_selected, take_incremented, take_prefix, take_unary};
ghost use Rattle.parse_leaves.specs.declared.miss.Miss.TheVariants.{NoReading};
ghost use Rattle.parse_leaves.specs.Answers.{Gives, IsDeep};
ghost use Rattle.parse_leaves.specs.Parts.{selector_of, selector_height};

use crate::arguments::argument_list;
use crate::primaries::primary;
use dart_tokens::Kind;
use dart_tree::{Expr, ExprNode, PostfixOperator};
use grammar::{Setting, Token};
use parse_leaves::{
    Below, Miss, Selector, expression_group, heads, heads_call, heads_prefix, higher,
    identifier_at, is_open, name, place_over, postfix_operator, prefix_operator, span_of, token,
};
use parse_types::type_arguments;
use std::alloc::Global;

/// The selector of a member, behind a token of the kind.
fn member(tokens: &[Token], kind: Kind, null_aware: bool) -> Result<(Selector, u32, &[Token]), Miss>
    ensures reading { Gives (λ x. (selector_of x.0, x.2.now)) result (take_turn (member_of null_aware) (take_token (is kind) ▸ take_token is_name) tokens.now) }
    ensures deep { IfOk result (λ x. (x.1 ≡ selector_height (selector_of x.0)) × (x.1 ≡ 0)) }
{
    let (_, rest) = token(tokens, kind).ok_or(Miss::NoReading)?;
    let (word, rest) = name(rest).ok_or(Miss::NoReading)?;
    let name = identifier_at(word);
    Ok((Selector::Member { null_aware, name }, 0, rest))
}

/// `!` behind an operand.
fn null_check(tokens: &[Token]) -> Result<(Selector, u32, &[Token]), Miss>
    ensures reading { Gives (λ x. (selector_of x.0, x.2.now)) result (take_turn check_of (take_token (is Kind.Bang)) tokens.now) }
    ensures deep { IfOk result (λ x. (x.1 ≡ selector_height (selector_of x.0)) × (x.1 ≡ 0)) }
{
    let (_, rest) = token(tokens, Kind::Bang).ok_or(Miss::NoReading)?;
    Ok((Selector::Check, 0, rest))
}

/// The selector of an element, in brackets of the kind.
fn element<'k, B: Below<'k>>(
    below: &B,
    alloc: Global,
    kind: Kind,
    null_aware: bool,
    tokens: &'k [Token],
) -> Result<(Selector, u32, &'k [Token]), Miss>
    requires limit { B.room below.now ≤ 200 }
    requires sound { B.sound below.now }
    ensures reading { Gives (λ x. (selector_of x.0, x.2.now)) result (take_turn (element_of null_aware) (take_inside (is kind) width past ((lower (B.room below.now)).expression Setting.Plain)) tokens.now) }
    ensures deep { IfOk result (λ x. (x.1 ≡ selector_height (selector_of x.0)) × (x.1 ≤ (B.room below.now))) }
{
    let ((bracket, index), height, rest) = expression_group(below, alloc, kind, tokens)?;
    let bracket = span_of(bracket);
    let selector = Selector::Element {
        null_aware,
        bracket,
        index,
    };
    Ok((selector, height, rest))
}

/// Arguments behind an operand.
#[tactic(auto, using(parse_leaves::specs::Sizes::zero_higher))]
fn plain_call<'k, B: Below<'k>>(
    below: &B,
    alloc: Global,
    tokens: &'k [Token],
) -> Result<(Selector, u32, &'k [Token]), Miss>
    requires limit { B.room below.now ≤ 200 }
    requires sound { B.sound below.now }
    ensures reading { Gives (λ x. (selector_of x.0, x.2.now)) result (take_turn plain_call_of (take_arguments (lower (B.room below.now))) tokens.now) }
    ensures deep { IfOk result (λ x. (x.1 ≡ selector_height (selector_of x.0)) × (x.1 ≤ (B.room below.now))) }
{
    let (arguments, height, rest) = argument_list(below, alloc, tokens)?;
    let selector = Selector::Called {
        type_arguments: None,
        arguments,
    };
    Ok((selector, height, rest))
}

/// Type arguments and arguments behind an operand.
fn generic_call<'k, B: Below<'k>>(
    below: &B,
    alloc: Global,
    tokens: &'k [Token],
) -> Result<(Selector, u32, &'k [Token]), Miss>
    requires limit { B.room below.now ≤ 200 }
    requires sound { B.sound below.now }
    ensures reading { Gives (λ x. (selector_of x.0, x.2.now)) result (take_turn generic_call_of (take_type_arguments (lower (B.room below.now)) ▸ take_arguments (lower (B.room below.now))) tokens.now) }
    ensures deep { IfOk result (λ x. (x.1 ≡ selector_height (selector_of x.0)) × (x.1 ≤ (B.room below.now))) }
{
    let (type_arguments, tall, rest) = type_arguments(below, alloc, tokens)?;
    let (arguments, height, rest) = argument_list(below, alloc, rest)?;
    let selector = Selector::Called {
        type_arguments: Some(type_arguments),
        arguments,
    };
    Ok((selector, higher(tall, height), rest))
}

/// A selector.
#[tactic(auto, unfolding(grammar::specs::Descents::take_selector))]
fn selector<'k, B: Below<'k>>(
    below: &B,
    alloc: Global,
    setting: Setting,
    tokens: &'k [Token],
) -> Result<(Selector, u32, &'k [Token]), Miss>
    requires limit { B.room below.now ≤ 200 }
    requires sound { B.sound below.now }
    ensures reading { Gives (λ x. (selector_of x.0, x.2.now)) result (take_selector setting (lower (B.room below.now)) tokens.now) }
    ensures deep { IfOk result (λ x. (x.1 ≡ selector_height (selector_of x.0)) × (x.1 ≤ (B.room below.now))) }
{
    if heads(tokens, Kind::Period) {
        return member(tokens, Kind::Period, false);
    }
    if heads(tokens, Kind::QuestionPeriod) {
        return member(tokens, Kind::QuestionPeriod, true);
    }
    if heads(tokens, Kind::OpenBracket) {
        return element(below, alloc, Kind::OpenBracket, false, tokens);
    }
    if heads(tokens, Kind::QuestionBracket) {
        return element(below, alloc, Kind::QuestionBracket, true, tokens);
    }
    if heads(tokens, Kind::Bang) {
        return null_check(tokens);
    }
    if heads(tokens, Kind::OpenParenthesis) {
        return plain_call(below, alloc, tokens);
    }
    if heads_call(setting, tokens) {
        return generic_call(below, alloc, tokens);
    }
    Err(Miss::NoReading)
}

/// What stands on the left with a selector behind it.
#[tactic(auto, using(parse_leaves::specs::Sizes::higher_zero))]
fn selected_node(
    alloc: Global,
    start: &[Token],
    after: &[Token],
    left: Expr,
    selector: Selector,
) -> Result<Expr, Miss>
    ensures reading { IfOk result (λ x. x ≡ select_with (tokens_read start.now after.now) left (selector_of selector)) }
    ensures deep { IfOk result (λ x. height x ≡ higher (height left) (selector_height (selector_of selector)) + 1) }
    ensures whole { result ≢ Err NoReading }
{
    let at = place_over(start, after);
    let left = left;
    let node = match selector {
        Selector::Member { null_aware, name } => ExprNode::Property {
            at,
            receiver: left,
            null_aware,
            name,
        },
        Selector::Element {
            null_aware,
            bracket,
            index,
        } => ExprNode::Index {
            at,
            receiver: left,
            null_aware,
            bracket,
            index: index,
        },
        Selector::Check => ExprNode::NullCheck { at, operand: left },
        Selector::Called {
            type_arguments,
            arguments,
        } => ExprNode::Call {
            at,
            callee: left,
            type_arguments,
            arguments,
        },
    };
    let node = Box::new(alloc, node)?;
    Ok(Expr { node })
}

/// The selectors behind an operand.
#[tactic(auto, using(parse_leaves::specs::Loops::chain_out, parse_leaves::specs::Loops::chain_deep, parse_leaves::specs::Loops::chain_ends, parse_leaves::specs::Loops::chain_goes, parse_leaves::specs::Sizes::higher_within))]
pub fn selectors<'k, B: Below<'k>>(
    below: &B,
    alloc: Global,
    setting: Setting,
    start: &[Token],
    first: Expr,
    reach: u32,
    tokens: &'k [Token],
) -> Result<(Expr, u32, &'k [Token]), Miss>
    requires limit { B.room below.now ≤ 200 }
    requires sound { B.sound below.now }
    requires known { IsDeep (B.room below.now + 1) first reach }
    ensures reading { Gives (λ x. (x.0, x.2.now)) result (take_onto start.now (length tokens.now) (is_open (B.room below.now)) select_with (take_selector setting (lower (B.room below.now))) first tokens.now) }
    ensures deep { IfOk result (λ x. IsDeep (B.room below.now + 1) x.0 x.1) }
{
    let room = below.room();
    let mut left = first;
    let mut height = reach;
    let mut rest = tokens;
    let mut more = tokens.len();
    while more > 0 {
        if !is_open(room, height, &left) {
            return Ok((left, height, rest));
        }
        match selector(below, alloc, setting, rest) {
            Ok((added, tall, after)) => {
                left = selected_node(alloc, start, after, left, added)?;
                height = higher(height, tall) + 1;
                rest = after;
                more -= 1;
            }
            Err(Miss::NoReading) => return Ok((left, height, rest)),
            Err(Miss::Memory) => return Err(Miss::Memory),
        }
    }
    Ok((left, height, rest))
}

/// A primary and its selectors.
#[tactic(auto, unfolding(grammar::specs::Descents::take_selected))]
fn selected<'k, B: Below<'k>>(
    below: &B,
    alloc: Global,
    setting: Setting,
    tokens: &'k [Token],
) -> Result<(Expr, u32, &'k [Token]), Miss>
    requires limit { B.room below.now ≤ 200 }
    requires sound { B.sound below.now }
    ensures reading { Gives (λ x. (x.0, x.2.now)) result (take_selected (B.room below.now) setting (lower (B.room below.now)) tokens.now) }
    ensures deep { IfOk result (λ x. IsDeep (B.room below.now + 1) x.0 x.1) }
{
    let (first, height, rest) = primary(below, alloc, setting, tokens)?;
    selectors(below, alloc, setting, tokens, first, height, rest)
}

/// An operand with an operator behind it.
fn postfix_node(
    alloc: Global,
    start: &[Token],
    after: &[Token],
    left: Expr,
    operator: PostfixOperator,
) -> Result<Expr, Miss>
    ensures reading { IfOk result (λ x. x ≡ postfix_of (tokens_read start.now after.now) left operator) }
    ensures whole { result ≢ Err NoReading }
{
    let node = Box::new(
        alloc,
        ExprNode::Postfix {
            at: place_over(start, after),
            operator,
            operand: left,
        },
    )?;
    Ok(Expr { node })
}

/// An operand, and maybe `++` or `--` behind it.
#[tactic(auto, unfolding(grammar::specs::Descents::take_incremented))]
fn incremented<'k, B: Below<'k>>(
    below: &B,
    alloc: Global,
    setting: Setting,
    tokens: &'k [Token],
) -> Result<(Expr, u32, &'k [Token]), Miss>
    requires limit { B.room below.now ≤ 200 }
    requires sound { B.sound below.now }
    ensures reading { Gives (λ x. (x.0, x.2.now)) result (take_incremented (B.room below.now) setting (lower (B.room below.now)) tokens.now) }
    ensures deep { IfOk result (λ x. IsDeep (B.room below.now + 1) x.0 x.1) }
{
    let (operand, height, rest) = selected(below, alloc, setting, tokens)?;
    if !is_open(below.room(), height, &operand) {
        return Ok((operand, height, rest));
    }
    match postfix_operator(rest) {
        Some((operator, after)) => {
            let value = postfix_node(alloc, tokens, after, operand, operator)?;
            Ok((value, height + 1, after))
        }
        None => Ok((operand, height, rest)),
    }
}

/// An operator and the operand behind it.
fn prefixed<'k, B: Below<'k>>(
    below: &B,
    alloc: Global,
    setting: Setting,
    tokens: &'k [Token],
) -> Result<(Expr, u32, &'k [Token]), Miss>
    requires limit { B.room below.now ≤ 200 }
    requires sound { B.sound below.now }
    ensures reading { Gives (λ x. (x.0, x.2.now)) result (take_make unary_of (take_prefix ▸ (lower (B.room below.now)).unary setting) tokens.now) }
    ensures deep { IfOk result (λ x. IsDeep (B.room below.now + 1) x.0 x.1) }
{
    let (operator, rest) = prefix_operator(tokens).ok_or(Miss::NoReading)?;
    let (operand, height, rest) = below.unary(alloc, setting, rest)?;
    let node = Box::new(
        alloc,
        ExprNode::Unary {
            at: place_over(tokens, rest),
            operator,
            operand: operand,
        },
    )?;
    Ok((Expr { node }, height + 1, rest))
}

/// An operand of all levels.
#[tactic(auto, unfolding(grammar::specs::Descents::take_unary))]
pub fn unary_within<'k, B: Below<'k>>(
    below: &B,
    alloc: Global,
    setting: Setting,
    tokens: &'k [Token],
) -> Result<(Expr, u32, &'k [Token]), Miss>
    requires limit { B.room below.now ≤ 200 }
    requires sound { B.sound below.now }
    ensures reading { Gives (λ x. (x.0, x.2.now)) result (take_unary (B.room below.now) setting (lower (B.room below.now)) tokens.now) }
    ensures deep { IfOk result (λ x. IsDeep (B.room below.now + 1) x.0 x.1) }
{
    if heads_prefix(tokens) {
        prefixed(below, alloc, setting, tokens)
    } else {
        incremented(below, alloc, setting, tokens)
    }
}
