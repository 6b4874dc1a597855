//! A function, or variables and a `;`: the plain members of a class, and the plain declarations of a
//! library. The type in front of a name is read once for both.

ghost use Rattle.std.specs.Prelude.{◌≡◌, ◌≤◌, Some};
ghost use Rattle.readings.specs.Descent.{take_token, take_turn, ◌▸◌};
ghost use Rattle.grammar.specs.Tokens.{is};
ghost use Rattle.grammar.specs.Descents.{lower, take_declared, take_variables};
ghost use Rattle.grammar.specs.DeclarationDescents.{take_body, take_function};
ghost use Rattle.parse_leaves.specs.Answers.{Gives};
ghost use Rattle.parse_leaves.specs.Parts.{IsPartDeep};
ghost use Rattle.parse_members.specs.Behind.{take_named};
ghost use Rattle.parse_members.specs.Plain.{plain_function_of, plain_variables_of, take_plain};

use crate::functions::function_behind;
use crate::leaves::heads_variable;
use crate::parts::{Bodies, FunctionOrVariables};
use dart_tokens::Kind;
use dart_tree::WrittenType;
use grammar::Token;
use parse_leaves::{Below, Miss, heads_either, token};
use parse_statements::{some_name_type, variables, variables_behind};
use std::alloc::Global;

/// A function, behind the result type that was read where it starts.
fn plain_function<'k, B: Below<'k>>(
    below: &B,
    alloc: Global,
    bodies: Bodies,
    start: &[Token],
    written: Option<WrittenType>,
    tokens: &'k [Token],
) -> Result<(FunctionOrVariables, &'k [Token]), Miss>
    requires limit { B.room below.now ≤ 200 }
    requires sound { B.sound below.now }
    requires read { take_named (lower (B.room below.now)) start.now ≡ Some (written, tokens.now) }
    ensures { Gives (λ x. (x.0, x.1.now)) result
        (take_turn plain_function_of (take_function (take_body bodies.in_core bodies.without_body (lower (B.room below.now))) (lower (B.room below.now))) start.now) }
{
    let (function, rest) = function_behind(below, alloc, bodies, start, written, tokens)?;
    Ok((FunctionOrVariables::Function { function }, rest))
}

/// Variables and a `;`.
fn plain_variables<'k, B: Below<'k>>(
    below: &B,
    alloc: Global,
    tokens: &'k [Token],
) -> Result<(FunctionOrVariables, &'k [Token]), Miss>
    requires limit { B.room below.now ≤ 200 }
    requires sound { B.sound below.now }
    ensures { Gives (λ x. (x.0, x.1.now)) result (take_turn plain_variables_of (take_variables (lower (B.room below.now)) ▸ take_token (is Kind.Semicolon)) tokens.now) }
{
    let (variables, _, rest) = variables(below, alloc, tokens)?;
    let (_, rest) = token(rest, Kind::Semicolon).ok_or(Miss::NoReading)?;
    Ok((FunctionOrVariables::Variables { variables }, rest))
}

/// Variables and a `;`, behind what was read before their names.
#[tactic(auto, unfolding(grammar::specs::Descents::take_variables))]
fn plain_variables_behind<'k, B: Below<'k>>(
    below: &B,
    alloc: Global,
    start: &[Token],
    before: (bool, Option<WrittenType>),
    reach: u32,
    tokens: &'k [Token],
) -> Result<(FunctionOrVariables, &'k [Token]), Miss>
    requires limit { B.room below.now ≤ 200 }
    requires sound { B.sound below.now }
    requires read { take_declared (lower (B.room below.now)) start.now ≡ Some (before, tokens.now) }
    requires known { IsPartDeep (B.room below.now) before.1 reach }
    ensures { Gives (λ x. (x.0, x.1.now)) result (take_turn plain_variables_of (take_variables (lower (B.room below.now)) ▸ take_token (is Kind.Semicolon)) start.now) }
{
    let (variables, _, rest) = variables_behind(below, alloc, start, before, reach, tokens)?;
    let (_, rest) = token(rest, Kind::Semicolon).ok_or(Miss::NoReading)?;
    Ok((FunctionOrVariables::Variables { variables }, rest))
}

/// A function, or variables and a `;`, behind the type that was read where they start. Variables come
/// next where `final`, `var` or the token behind a name tells it, and else a function does.
#[tactic(auto, using(crate::proofs::PlainForms::declared_typed, crate::proofs::PlainForms::plain_word, crate::proofs::PlainForms::plain_function, crate::proofs::PlainForms::plain_untyped))]
pub fn function_or_variables_behind<'k, B: Below<'k>>(
    below: &B,
    alloc: Global,
    bodies: Bodies,
    start: &'k [Token],
    written: Option<WrittenType>,
    reach: u32,
    tokens: &'k [Token],
) -> Result<(FunctionOrVariables, &'k [Token]), Miss>
    requires limit { B.room below.now ≤ 200 }
    requires sound { B.sound below.now }
    requires read { take_named (lower (B.room below.now)) start.now ≡ Some (written, tokens.now) }
    requires known { IsPartDeep (B.room below.now) written reach }
    ensures { Gives (λ x. (x.0, x.1.now)) result
        (take_plain (take_body bodies.in_core bodies.without_body (lower (B.room below.now))) (lower (B.room below.now)) start.now) }
{
    if heads_either(start, Kind::Final, Kind::Var) {
        return plain_variables(below, alloc, start);
    }
    if !heads_variable(tokens) {
        return plain_function(below, alloc, bodies, start, written, tokens);
    }
    if written.is_none() {
        return Err(Miss::NoReading);
    }
    plain_variables_behind(below, alloc, start, (false, written), reach, tokens)
}

/// A function of a library or a class, or variables of one and a `;`.
pub fn function_or_variables<'k, B: Below<'k>>(
    below: &B,
    alloc: Global,
    bodies: Bodies,
    tokens: &'k [Token],
) -> Result<(FunctionOrVariables, &'k [Token]), Miss>
    requires limit { B.room below.now ≤ 200 }
    requires sound { B.sound below.now }
    ensures { Gives (λ x. (x.0, x.1.now)) result
        (take_plain (take_body bodies.in_core bodies.without_body (lower (B.room below.now))) (lower (B.room below.now)) tokens.now) }
{
    let (written, reach, rest) = some_name_type(below, alloc, tokens)?;
    function_or_variables_behind(below, alloc, bodies, tokens, written, reach, rest)
}
