//! Where type arguments end, told by their tokens: types are gone over, whatever stands in the groups
//! in them, so that nothing is read for it.

ghost use Rattle.std.specs.Prelude.{◌≡◌, ◌≤◌, length, false, Some};
ghost use Rattle.std.specs.Option.{option_map_or};
ghost use Rattle.grammar.specs.Tokens.{is, is_name, is_type_name, group_then};
ghost use Rattle.grammar.specs.Outline.{◌⨾◌, either_way, perhaps, repeated, some_more, over, over_group, over_name, over_angles, over_parameter, over_tail, over_plain, over_type, behind_arguments};
ghost use Rattle.grammar.specs.Expressions.{heads_use, behind_call, heads_generic, heads_call};
ghost use Rattle.parse_leaves.specs.Answers.{Finds};
ghost use Rattle.parse_leaves.specs.Angles.{inside_angles};

use crate::ahead::{behind_call, heads, heads_qualified, heads_use};
use crate::leaves::tokens_behind;
use dart_tokens::Kind;
use grammar::{Setting, Token};

/// What stands between angle brackets.
#[derive(Clone, Copy, Debug, PartialEq, Eq)]
enum Angles {
    /// Types.
    Arguments,
    /// Names of types, each with a bound or without.
    Parameters,
}

/// Over one token of the kind.
pub fn over(tokens: &[Token], kind: Kind) -> Option<&[Token]>
    ensures { Finds (λ x. x.now) result (over (is kind) tokens.now) }
{
    match tokens.split_first() {
        Some((first, rest)) if first.kind == kind => Some(rest),
        _ => None,
    }
}

/// Over one token of the kind, if it comes next.
pub fn perhaps_over(tokens: &[Token], kind: Kind) -> &[Token]
    ensures { perhaps (over (is kind)) tokens.now ≡ Some result.now }
{
    match over(tokens, kind) {
        Some(rest) => rest,
        None => tokens,
    }
}

/// Over parentheses.
fn over_group(tokens: &[Token]) -> Option<&[Token]>
    ensures { Finds (λ x. x.now) result (over_group tokens.now) }
{
    match tokens.split_first() {
        Some((first, rest)) if first.kind == Kind::OpenParenthesis => {
            Some(tokens_behind(rest, first.past()))
        }
        _ => None,
    }
}

/// Over an identifier.
pub fn over_word(tokens: &[Token]) -> Option<&[Token]>
    ensures { Finds (λ x. x.now) result (over is_name tokens.now) }
{
    match tokens.split_first() {
        Some((first, rest)) if first.kind.is_identifier() => Some(rest),
        _ => None,
    }
}

/// Over an identifier that may name a type.
fn over_type_word(tokens: &[Token]) -> Option<&[Token]>
    ensures { Finds (λ x. x.now) result (over is_type_name tokens.now) }
{
    match tokens.split_first() {
        Some((first, rest)) if first.kind.may_name_a_type() => Some(rest),
        _ => None,
    }
}

/// Over an import prefix, a `.` and the name of a type.
fn over_qualified(tokens: &[Token]) -> Option<&[Token]>
    ensures { Finds (λ x. x.now) result ((over is_name ⨾ over (is Kind.Period) ⨾ over is_type_name) tokens.now) }
{
    let rest = over_word(tokens)?;
    let rest = over(rest, Kind::Period)?;
    over_type_word(rest)
}

/// Over the name of a type.
fn over_name(tokens: &[Token]) -> Option<&[Token]>
    ensures { Finds (λ x. x.now) result (over_name tokens.now) }
{
    if heads_qualified(tokens) {
        over_qualified(tokens)
    } else {
        over_type_word(tokens)
    }
}

/// Over a bound, if one comes next.
#[cycle(outline)]
fn perhaps_over_bound(tokens: &[Token], depth: u32) -> &[Token]
    requires { depth ≤ 200 }
    ensures { perhaps (over (is Kind.Extends) ⨾ over_type depth) tokens.now ≡ Some result.now }
{
    match over(tokens, Kind::Extends) {
        Some(rest) => match over_type(rest, depth) {
            Some(rest) => rest,
            None => tokens,
        },
        None => tokens,
    }
}

/// Over a type, or a name with a bound or without.
#[cycle(outline)]
fn over_element(tokens: &[Token], depth: u32, angles: Angles) -> Option<&[Token]>
    requires { depth ≤ 200 }
    ensures { Finds (λ x. x.now) result (inside_angles angles (over_type depth) tokens.now) }
{
    match angles {
        Angles::Arguments => over_type(tokens, depth),
        Angles::Parameters => {
            let rest = over_type_word(tokens)?;
            Some(perhaps_over_bound(rest, depth))
        }
    }
}

/// Over a comma and what may stand behind it between angle brackets.
#[cycle(outline)]
fn over_next(tokens: &[Token], depth: u32, angles: Angles) -> Option<&[Token]>
    requires { depth ≤ 200 }
    ensures { Finds (λ x. x.now) result ((over (is Kind.Comma) ⨾ inside_angles angles (over_type depth)) tokens.now) }
{
    let rest = over(tokens, Kind::Comma)?;
    over_element(rest, depth, angles)
}

/// Over as many as there are, each behind a comma.
#[cycle(outline)]
fn over_more(tokens: &[Token], depth: u32, angles: Angles) -> &[Token]
    requires { depth ≤ 200 }
    ensures { result.now ≡ repeated (length tokens.now) (over (is Kind.Comma) ⨾ inside_angles angles (over_type depth)) tokens.now }
{
    let mut rest = tokens;
    let mut more = tokens.len();
    while more > 0 {
        let Some(next) = over_next(rest, depth, angles) else {
            return rest;
        };
        rest = next;
        more -= 1;
    }
    rest
}

/// Over angle brackets.
#[cycle(outline)]
fn over_angles(tokens: &[Token], depth: u32, angles: Angles) -> Option<&[Token]>
    requires { depth ≤ 200 }
    ensures { Finds (λ x. x.now) result (over_angles (inside_angles angles (over_type depth)) tokens.now) }
{
    let rest = over(tokens, Kind::Less)?;
    let rest = over_element(rest, depth, angles)?;
    let rest = over_more(rest, depth, angles);
    over(rest, Kind::Greater)
}

/// Over angle brackets, if they come next.
#[cycle(outline)]
fn perhaps_over_angles(tokens: &[Token], depth: u32, angles: Angles) -> &[Token]
    requires { depth ≤ 200 }
    ensures { perhaps (over_angles (inside_angles angles (over_type depth))) tokens.now ≡ Some result.now }
{
    match over_angles(tokens, depth, angles) {
        Some(rest) => rest,
        None => tokens,
    }
}

/// Over the tail of a function type.
#[cycle(outline)]
fn over_tail(tokens: &[Token], depth: u32) -> Option<&[Token]>
    requires { depth ≤ 200 }
    ensures { Finds (λ x. x.now) result (over_tail (over_type depth) tokens.now) }
{
    let rest = over(tokens, Kind::Function)?;
    let rest = perhaps_over_angles(rest, depth, Angles::Parameters);
    let rest = over_group(rest)?;
    Some(perhaps_over(rest, Kind::Question))
}

/// Over as many tails of function types as there are.
#[cycle(outline)]
fn over_tails(tokens: &[Token], depth: u32) -> &[Token]
    requires { depth ≤ 200 }
    ensures { result.now ≡ repeated (length tokens.now) (over_tail (over_type depth)) tokens.now }
{
    let mut rest = tokens;
    let mut more = tokens.len();
    while more > 0 {
        let Some(next) = over_tail(rest, depth) else {
            return rest;
        };
        rest = next;
        more -= 1;
    }
    rest
}

/// Over a type without a tail of a function type.
#[cycle(outline)]
fn over_plain(tokens: &[Token], depth: u32) -> Option<&[Token]>
    requires { depth ≤ 200 }
    ensures { Finds (λ x. x.now) result (over_plain (over_type depth) tokens.now) }
{
    if heads(tokens, Kind::Void) {
        return over(tokens, Kind::Void);
    }
    let rest = over_name(tokens)?;
    let rest = perhaps_over_angles(rest, depth, Angles::Arguments);
    Some(perhaps_over(rest, Kind::Question))
}

/// Over the tail of a function type, or else a type without one.
#[cycle(outline)]
fn over_first(tokens: &[Token], depth: u32) -> Option<&[Token]>
    requires { depth ≤ 200 }
    ensures { Finds (λ x. x.now) result (either_way (over_tail (over_type depth)) (over_plain (over_type depth)) tokens.now) }
{
    match over_tail(tokens, depth) {
        Some(rest) => Some(rest),
        None => over_plain(tokens, depth),
    }
}

/// Over a type, where so many may stand in it in one another.
#[cycle(outline)]
fn over_type_within(tokens: &[Token], depth: u32) -> Option<&[Token]>
    requires { depth ≤ 200 }
    ensures { Finds (λ x. x.now) result ((either_way (over_tail (over_type depth)) (over_plain (over_type depth)) ⨾ some_more (over_tail (over_type depth))) tokens.now) }
{
    let rest = over_first(tokens, depth)?;
    Some(over_tails(rest, depth))
}

/// Over a type, where so many may stand in one another.
#[cycle(outline)]
#[tactic(auto, using(crate::proofs::Outlines::no_type, crate::proofs::Outlines::type_at))]
fn over_type(tokens: &[Token], depth: u32) -> Option<&[Token]>
    requires { depth ≤ 200 }
    ensures { Finds (λ x. x.now) result (over_type depth tokens.now) }
{
    if depth == 0 {
        return None;
    }
    over_type_within(tokens, depth - 1)
}

/// Over a type, at most 200 in one another.
pub fn over_written(tokens: &[Token]) -> Option<&[Token]>
    ensures { Finds (λ x. x.now) result (over_type 200 tokens.now) }
{
    over_type(tokens, 200)
}

/// What comes behind type arguments, at most 200 in one another.
#[tactic(auto, unfolding(grammar::specs::Outline::behind_arguments))]
pub fn behind_arguments(tokens: &[Token]) -> Option<&[Token]>
    ensures { Finds (λ x. x.now) result (behind_arguments tokens.now) }
{
    over_angles(tokens, 200, Angles::Arguments)
}

/// Type arguments come next, before `(` or `.`.
fn arguments_before_use(tokens: &[Token]) -> bool
    ensures { result ≡ option_map_or heads_use (behind_arguments tokens.now) false }
{
    match behind_arguments(tokens) {
        Some(rest) => heads_use(rest),
        None => false,
    }
}

/// A name comes next whose `<` opens type arguments.
#[tactic(auto, unfolding(grammar::specs::Expressions::heads_generic))]
pub fn heads_generic(tokens: &[Token]) -> bool
    ensures { result ≡ heads_generic tokens.now }
{
    match tokens.split_first() {
        Some((first, rest)) => first.kind.is_identifier() && arguments_before_use(rest),
        None => false,
    }
}

/// Arguments come next, of a call that has type arguments.
fn heads_called(setting: Setting, tokens: &[Token]) -> bool
    ensures { result ≡ group_then (is Kind.OpenParenthesis) (behind_call setting) tokens.now }
{
    match tokens.split_first() {
        Some((first, rest)) => {
            first.kind == Kind::OpenParenthesis
                && behind_call(setting, tokens_behind(rest, first.past()))
        }
        None => false,
    }
}

/// A call with type arguments comes next, of what stands before its `<`.
#[tactic(auto, unfolding(grammar::specs::Expressions::heads_call))]
pub fn heads_call(setting: Setting, tokens: &[Token]) -> bool
    ensures { result ≡ heads_call setting tokens.now }
{
    match behind_arguments(tokens) {
        Some(rest) => heads_called(setting, rest),
        None => false,
    }
}
