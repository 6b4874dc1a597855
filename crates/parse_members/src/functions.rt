//! Functions of libraries and classes.

ghost use Rattle.std.specs.Prelude.{◌≡◌, ◌≤◌, Some, IfOk};
ghost use Rattle.readings.specs.Readings.{tokens_read};
ghost use Rattle.readings.specs.Descent.{take_token, take_maybe, take_make, take_turn, ◌▸◌};
ghost use Rattle.grammar.specs.Tokens.{is, is_name};
ghost use Rattle.grammar.specs.Declarations.{native_of, empty_of, getting_of, set_of, plain_of, function_with};
ghost use Rattle.grammar.specs.Descents.{lower, take_parameter_list, take_type_parameters};
ghost use Rattle.grammar.specs.DeclarationDescents.{take_allowed, take_body, take_signature, take_function};
ghost use Rattle.parse_leaves.specs.Answers.{Gives};
ghost use Rattle.parse_members.specs.Behind.{take_named};
ghost use Rattle.parse_members.specs.Parts.{signature_of};

use crate::leaves::heads_word;
use crate::parts::{Bodies, Signature};
use dart_tokens::Kind;
use dart_tree::{Body, BodyNode, Function, FunctionNode, WrittenType};
use grammar::Token;
use parse_leaves::{Below, Miss, heads, name, name_at, place_of, place_over, token};
use parse_statements::local_body;
use parse_types::{listed_type_parameters, parameter_list, some_type_parameters};
use std::alloc::{AllocError, Global};

/// `;` as a body.
pub fn semicolon_body(tokens: &[Token]) -> Result<(Body, &[Token]), Miss>
    ensures { Gives (λ x. (x.0, x.1.now)) result (take_turn empty_of (take_token (is Kind.Semicolon)) tokens.now) }
{
    let (semicolon, rest) = token(tokens, Kind::Semicolon).ok_or(Miss::NoReading)?;
    let node = BodyNode::Empty {
        at: place_of(semicolon),
    };
    Ok((Body { node }, rest))
}

/// `;` as a body, where it may be one.
fn empty_body(without_body: bool, tokens: &[Token]) -> Result<(Body, &[Token]), Miss>
    ensures { Gives (λ x. (x.0, x.1.now)) result (take_allowed without_body (take_turn empty_of (take_token (is Kind.Semicolon))) tokens.now) }
{
    if !without_body {
        return Err(Miss::NoReading);
    }
    semicolon_body(tokens)
}

/// `native;` as a body, where it may be one.
fn native_body(in_core: bool, tokens: &[Token]) -> Result<(Body, &[Token]), Miss>
    ensures { Gives (λ x. (x.0, x.1.now)) result (take_allowed in_core (take_make native_of (take_token (is Kind.Native) ▸ take_token (is Kind.Semicolon))) tokens.now) }
{
    if !in_core {
        return Err(Miss::NoReading);
    }
    let (_, rest) = token(tokens, Kind::Native).ok_or(Miss::NoReading)?;
    let (_, rest) = token(rest, Kind::Semicolon).ok_or(Miss::NoReading)?;
    let node = BodyNode::Native {
        at: place_over(tokens, rest),
    };
    Ok((Body { node }, rest))
}

/// The body of a function of a library or a class.
#[tactic(auto, unfolding(grammar::specs::DeclarationDescents::take_body))]
pub fn body<'k, B: Below<'k>>(
    below: &B,
    alloc: Global,
    bodies: Bodies,
    tokens: &'k [Token],
) -> Result<(Body, &'k [Token]), Miss>
    requires limit { B.room below.now ≤ 200 }
    requires sound { B.sound below.now }
    ensures { Gives (λ x. (x.0, x.1.now)) result (take_body bodies.in_core bodies.without_body (lower (B.room below.now)) tokens.now) }
{
    if heads(tokens, Kind::OpenBrace) || heads(tokens, Kind::Arrow) {
        let (found, _, rest) = local_body(below, alloc, tokens)?;
        return Ok((found, rest));
    }
    if heads(tokens, Kind::Native) {
        return native_body(bodies.in_core, tokens);
    }
    empty_body(bodies.without_body, tokens)
}

/// `get`, a name and a body.
fn getter<'k, B: Below<'k>>(
    below: &B,
    alloc: Global,
    bodies: Bodies,
    tokens: &'k [Token],
) -> Result<(Signature, &'k [Token]), Miss>
    requires limit { B.room below.now ≤ 200 }
    requires sound { B.sound below.now }
    ensures { Gives (λ x. (signature_of x.0, x.1.now)) result
        (take_turn getting_of (take_token (is Kind.Get) ▸ take_token is_name
        ▸ take_body bodies.in_core bodies.without_body (lower (B.room below.now))) tokens.now) }
{
    let (_, rest) = token(tokens, Kind::Get).ok_or(Miss::NoReading)?;
    let (name, rest) = name(rest).ok_or(Miss::NoReading)?;
    let (body, rest) = body(below, alloc, bodies, rest)?;
    Ok((Signature::Getter { name, body }, rest))
}

/// `set`, a name, parameters and a body.
fn setter<'k, B: Below<'k>>(
    below: &B,
    alloc: Global,
    bodies: Bodies,
    tokens: &'k [Token],
) -> Result<(Signature, &'k [Token]), Miss>
    requires limit { B.room below.now ≤ 200 }
    requires sound { B.sound below.now }
    ensures { Gives (λ x. (signature_of x.0, x.1.now)) result
        (take_turn set_of (take_token (is Kind.Set) ▸ take_token is_name ▸ take_parameter_list (lower (B.room below.now))
        ▸ take_body bodies.in_core bodies.without_body (lower (B.room below.now))) tokens.now) }
{
    let (_, rest) = token(tokens, Kind::Set).ok_or(Miss::NoReading)?;
    let (name, rest) = name(rest).ok_or(Miss::NoReading)?;
    let (parameters, _, rest) = parameter_list(below, alloc, rest)?;
    let (body, rest) = body(below, alloc, bodies, rest)?;
    Ok((
        Signature::Setter {
            name,
            parameters,
            body,
        },
        rest,
    ))
}

/// A name, type parameters if there are any, parameters and a body.
fn plain<'k, B: Below<'k>>(
    below: &B,
    alloc: Global,
    bodies: Bodies,
    tokens: &'k [Token],
) -> Result<(Signature, &'k [Token]), Miss>
    requires limit { B.room below.now ≤ 200 }
    requires sound { B.sound below.now }
    ensures { Gives (λ x. (signature_of x.0, x.1.now)) result
        (take_turn plain_of (take_token is_name ▸ take_maybe (take_type_parameters (lower (B.room below.now)))
        ▸ take_parameter_list (lower (B.room below.now)) ▸ take_body bodies.in_core bodies.without_body (lower (B.room below.now))) tokens.now) }
{
    let (name, rest) = name(tokens).ok_or(Miss::NoReading)?;
    let (found, _, rest) = some_type_parameters(below, alloc, rest)?;
    let (parameters, _, rest) = parameter_list(below, alloc, rest)?;
    let (body, rest) = body(below, alloc, bodies, rest)?;
    let type_parameters = listed_type_parameters(alloc, found);
    Ok((
        Signature::Plain {
            name,
            type_parameters,
            parameters,
            body,
        },
        rest,
    ))
}

/// What stands behind the result type of a function.
#[tactic(auto, unfolding(grammar::specs::DeclarationDescents::take_signature))]
fn signature<'k, B: Below<'k>>(
    below: &B,
    alloc: Global,
    bodies: Bodies,
    tokens: &'k [Token],
) -> Result<(Signature, &'k [Token]), Miss>
    requires limit { B.room below.now ≤ 200 }
    requires sound { B.sound below.now }
    ensures { Gives (λ x. (signature_of x.0, x.1.now)) result
        (take_signature (take_body bodies.in_core bodies.without_body (lower (B.room below.now))) (lower (B.room below.now)) tokens.now) }
{
    if heads_word(tokens, Kind::Get) {
        getter(below, alloc, bodies, tokens)
    } else if heads_word(tokens, Kind::Set) {
        setter(below, alloc, bodies, tokens)
    } else {
        plain(below, alloc, bodies, tokens)
    }
}

/// A function that was read from `tokens`, where `rest` is left.
fn function_with(
    alloc: Global,
    tokens: &[Token],
    rest: &[Token],
    written: Option<WrittenType>,
    signature: Signature,
) -> Result<Function, AllocError>
    ensures { IfOk result (λ x. x ≡ function_with (tokens_read tokens.now rest.now) written (signature_of signature)) }
{
    let at = place_over(tokens, rest);
    let node = match signature {
        Signature::Getter { name, body } => FunctionNode::Getter {
            at,
            result: written,
            name: name_at(name),
            body,
        },
        Signature::Setter {
            name,
            parameters,
            body,
        } => FunctionNode::Setter {
            at,
            result: written,
            name: name_at(name),
            parameters,
            body,
        },
        Signature::Plain {
            name,
            type_parameters,
            parameters,
            body,
        } => FunctionNode::Plain {
            at,
            result: written,
            name: name_at(name),
            type_parameters,
            parameters,
            body,
        },
    };
    let node = Box::new(alloc, node)?;
    Ok(Function { node })
}

/// A function of a library or a class, behind the result type that was read where it starts.
#[tactic(auto, unfolding(grammar::specs::DeclarationDescents::take_function))]
pub fn function_behind<'k, B: Below<'k>>(
    below: &B,
    alloc: Global,
    bodies: Bodies,
    start: &[Token],
    written: Option<WrittenType>,
    tokens: &'k [Token],
) -> Result<(Function, &'k [Token]), Miss>
    requires limit { B.room below.now ≤ 200 }
    requires sound { B.sound below.now }
    requires read { take_named (lower (B.room below.now)) start.now ≡ Some (written, tokens.now) }
    ensures { Gives (λ x. (x.0, x.1.now)) result
        (take_function (take_body bodies.in_core bodies.without_body (lower (B.room below.now))) (lower (B.room below.now)) start.now) }
{
    let (signature, rest) = signature(below, alloc, bodies, tokens)?;
    let found = function_with(alloc, start, rest, written, signature)?;
    Ok((found, rest))
}
