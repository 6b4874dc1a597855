//! Sections of cascades.

ghost use Rattle.std.specs.Prelude.{◌≡◌, ◌+◌, ◌≤◌, IfOk};
ghost use Rattle.readings.specs.Descent.{take_token, take_inside, take_turn, take_make, take_chain, ◌▸◌};
ghost use Rattle.dart_tree.specs.Heights.{height};
ghost use Rattle.grammar.specs.Tokens.{is, is_name, width, past};
ghost use Rattle.grammar.specs.Types.{every_time};
ghost use Rattle.grammar.specs.Operators.{table, take_assignment};
ghost use Rattle.grammar.specs.Expressions.{select_with, cascaded_name_of, cascaded_index_of, is_open};
ghost use Rattle.grammar.specs.Descents.{lower, take_selector, take_expression, take_section_head, take_section};
ghost use Rattle.parse_leaves.specs.Answers.{Gives, IsDeep};

use crate::expressions::{TABLE, assignment, expression_within};
use dart_tokens::Kind;
use dart_tree::{AssignmentOperator, Expr, ExprNode};
use grammar::{Setting, Token};
use parse_leaves::{
    Below, Miss, assignment_operator, group, heads_name, higher, identifier_at, is_open, name,
    place_of, place_over, span_of,
};
use parse_operands::selectors;
use std::alloc::Global;

/// An index with which a section begins.
fn section_index<'k, B: Below<'k>>(
    below: &B,
    alloc: Global,
    tokens: &'k [Token],
) -> Result<(Expr, u32, &'k [Token]), Miss>
    requires limit { B.room below.now ≤ 200 }
    requires sound { B.sound below.now }
    ensures reading { Gives (λ x. (x.0, x.2.now)) result (take_make cascaded_index_of (take_inside (is Kind.OpenBracket) width past (take_expression (B.room below.now) Setting.Plain (lower (B.room below.now)))) tokens.now) }
    ensures deep { IfOk result (λ x. IsDeep (B.room below.now + 1) x.0 x.1) }
{
    let (bracket, index, height, rest) = index_group(below, alloc, tokens)?;
    let node = Box::new(
        alloc,
        ExprNode::CascadedIndex {
            at: place_over(tokens, rest),
            bracket: span_of(bracket),
            index: index,
        },
    )?;
    Ok((Expr { node }, height, rest))
}

/// An index in its brackets.
#[tactic(auto, using(parse_leaves::specs::Groups::inside_outside))]
fn index_group<'k, B: Below<'k>>(
    below: &B,
    alloc: Global,
    tokens: &'k [Token],
) -> Result<(Token, Expr, u32, &'k [Token]), Miss>
    requires limit { B.room below.now ≤ 200 }
    requires sound { B.sound below.now }
    ensures reading { Gives (λ x. ((x.0, x.1), x.3.now)) result (take_inside (is Kind.OpenBracket) width past (take_expression (B.room below.now) Setting.Plain (lower (B.room below.now))) tokens.now) }
    ensures deep { IfOk result (λ x. IsDeep (B.room below.now + 1) x.1 x.2) }
{
    let Some((opening, inside, rest)) = group(tokens, Kind::OpenBracket) else {
        return Err(Miss::NoReading);
    };
    match expression_within(below, alloc, Setting::Plain, inside) {
        Ok((found, height, left)) => {
            if !left.is_empty() {
                return Err(Miss::NoReading);
            }
            Ok((opening, found, height, rest))
        }
        Err(Miss::NoReading) => Err(Miss::NoReading),
        Err(Miss::Memory) => Err(Miss::Memory),
    }
}

/// A name with which a section begins.
pub fn section_name(alloc: Global, tokens: &[Token]) -> Result<(Expr, u32, &[Token]), Miss>
    ensures reading { Gives (λ x. (x.0, x.2.now)) result (take_turn cascaded_name_of (take_token is_name) tokens.now) }
    ensures deep { IfOk result (λ x. (x.1 ≡ height x.0) × (x.1 ≡ 0)) }
{
    let (word, rest) = name(tokens).ok_or(Miss::NoReading)?;
    let node = Box::new(
        alloc,
        ExprNode::CascadedName {
            at: place_of(word),
            name: identifier_at(word),
        },
    )?;
    Ok((Expr { node }, 0, rest))
}

/// How a section begins.
#[tactic(auto, unfolding(grammar::specs::Descents::take_section_head))]
fn section_head<'k, B: Below<'k>>(
    below: &B,
    alloc: Global,
    tokens: &'k [Token],
) -> Result<(Expr, u32, &'k [Token]), Miss>
    requires limit { B.room below.now ≤ 200 }
    requires sound { B.sound below.now }
    ensures reading { Gives (λ x. (x.0, x.2.now)) result (take_section_head (take_expression (B.room below.now) Setting.Plain (lower (B.room below.now))) tokens.now) }
    ensures deep { IfOk result (λ x. IsDeep (B.room below.now + 1) x.0 x.1) }
{
    if heads_name(tokens) {
        section_name(alloc, tokens)
    } else {
        section_index(below, alloc, tokens)
    }
}

/// An assignment operator and the value behind it, in a section.
#[tactic(auto, using(parse_leaves::specs::LastLevels::last_all))]
fn section_value<'k, B: Below<'k>>(
    below: &B,
    alloc: Global,
    setting: Setting,
    tokens: &'k [Token],
) -> Result<(AssignmentOperator, Expr, u32, &'k [Token]), Miss>
    requires limit { B.room below.now ≤ 200 }
    requires sound { B.sound below.now }
    ensures reading { Gives (λ x. ((x.0, x.1), x.3.now)) result ((take_assignment ▸ (lower (B.room below.now)).operand setting table) tokens.now) }
    ensures deep { IfOk result (λ x. IsDeep (B.room below.now) x.1 x.2) }
{
    let (operator, rest) = assignment_operator(tokens).ok_or(Miss::NoReading)?;
    let (value, height, rest) = below.operand(alloc, setting, &TABLE, rest)?;
    Ok((operator, value, height, rest))
}

/// What a section is of.
#[tactic(auto, using(crate::proofs::Behind::gives_target))]
fn section_target<'k, B: Below<'k>>(
    below: &B,
    alloc: Global,
    setting: Setting,
    tokens: &'k [Token],
) -> Result<(Expr, u32, &'k [Token]), Miss>
    requires limit { B.room below.now ≤ 200 }
    requires sound { B.sound below.now }
    ensures reading { Gives (λ x. (x.0, x.2.now)) result (take_chain every_time (is_open (B.room below.now)) select_with (take_section_head (take_expression (B.room below.now) Setting.Plain (lower (B.room below.now)))) (take_selector setting (lower (B.room below.now))) tokens.now) }
    ensures deep { IfOk result (λ x. IsDeep (B.room below.now + 1) x.0 x.1) }
{
    let (first, height, rest) = section_head(below, alloc, tokens)?;
    selectors(below, alloc, setting, tokens, first, height, rest)
}

/// A section.
#[tactic(auto, using(crate::proofs::Behind::section_missing, crate::proofs::Behind::section_deep, crate::proofs::Behind::section_plain, crate::proofs::Behind::gives_section, parse_leaves::specs::Sizes::higher_within))]
pub fn section_within<'k, B: Below<'k>>(
    below: &B,
    alloc: Global,
    setting: Setting,
    tokens: &'k [Token],
) -> Result<(Expr, u32, &'k [Token]), Miss>
    requires limit { B.room below.now ≤ 200 }
    requires sound { B.sound below.now }
    ensures reading { Gives (λ x. (x.0, x.2.now)) result (take_section (B.room below.now) setting (lower (B.room below.now)) (take_expression (B.room below.now) Setting.Plain (lower (B.room below.now))) tokens.now) }
    ensures deep { IfOk result (λ x. IsDeep (B.room below.now + 1) x.0 x.1) }
{
    let (target, height, rest) = section_target(below, alloc, setting, tokens)?;
    if !is_open(below.room(), height, &target) {
        return Ok((target, height, rest));
    }
    match section_value(below, alloc, setting, rest) {
        Ok((operator, value, tall, after)) => {
            assignment(alloc, tokens, target, height, operator, value, tall, after)
        }
        Err(Miss::NoReading) => Ok((target, height, rest)),
        Err(Miss::Memory) => Err(Miss::Memory),
    }
}
