//! Operators as members of a class.

ghost use Rattle.std.specs.Prelude.{◌≡◌, ◌≤◌, List, []};
ghost use Rattle.readings.specs.Descent.{take_token, take_given, take_maybe, take_make, take_inside, ◌▸◌};
ghost use Rattle.dart_tokens.specs.declared.grouped_token.GroupedToken.{GroupedToken as Token};
ghost use Rattle.grammar.specs.Tokens.{is, width, past};
ghost use Rattle.grammar.specs.Operators.{heads_sign};
ghost use Rattle.grammar.specs.Declarations.{declared_operator, is_declared, take_declared_sign, tilde_of, index_of};
ghost use Rattle.grammar.specs.Descents.{lower};
ghost use Rattle.grammar.specs.DeclarationDescents.{take_operator};
ghost use Rattle.parse_leaves.specs.Answers.{Finds, Gives};
ghost use Rattle.parse_members.specs.Behind.{take_operator_rest};

use crate::functions::body;
use crate::leaves::some_token;
use crate::parts::Bodies;
use dart_tokens::Kind;
use dart_tree::{
    BinaryOperatorKind, Body, DeclaredOperator, NodeId, OperatorName, ParameterList, Place,
};
use grammar::{Sign, Token};
use parse_leaves::{
    Below, Miss, first_tokens, group, heads, place_over, sign_at, span_over, token, tokens_behind,
};
use parse_types::parameter_list;
use std::alloc::Global;

/// The operator of a class that an operator between operands is.
fn declared_operator(operator: BinaryOperatorKind) -> Option<DeclaredOperator>
    ensures { result ≡ declared_operator operator }
{
    match operator {
        BinaryOperatorKind::Multiply => Some(DeclaredOperator::Star),
        BinaryOperatorKind::Divide => Some(DeclaredOperator::Slash),
        BinaryOperatorKind::TruncatingDivide => Some(DeclaredOperator::TildeSlash),
        BinaryOperatorKind::Modulo => Some(DeclaredOperator::Percent),
        BinaryOperatorKind::Add => Some(DeclaredOperator::Plus),
        BinaryOperatorKind::Subtract => Some(DeclaredOperator::Minus),
        BinaryOperatorKind::ShiftLeft => Some(DeclaredOperator::ShiftLeft),
        BinaryOperatorKind::ShiftRight => Some(DeclaredOperator::ShiftRight),
        BinaryOperatorKind::BitAnd => Some(DeclaredOperator::Ampersand),
        BinaryOperatorKind::BitXor => Some(DeclaredOperator::Caret),
        BinaryOperatorKind::BitOr => Some(DeclaredOperator::Bar),
        BinaryOperatorKind::Less => Some(DeclaredOperator::Less),
        BinaryOperatorKind::Greater => Some(DeclaredOperator::Greater),
        BinaryOperatorKind::LessOrEqual => Some(DeclaredOperator::LessOrEqual),
        BinaryOperatorKind::GreaterOrEqual => Some(DeclaredOperator::GreaterOrEqual),
        BinaryOperatorKind::Equal => Some(DeclaredOperator::Equal),
        BinaryOperatorKind::NotEqual => None,
        BinaryOperatorKind::And => None,
        BinaryOperatorKind::Or => None,
        BinaryOperatorKind::IfNull => None,
    }
}

/// An operator that a class may declare, of those that stand between operands.
fn is_declared(sign: Sign) -> bool
    ensures { result ≡ is_declared sign }
{
    match sign {
        Sign::Binary(operator) => declared_operator(operator).is_some(),
        Sign::Assign(_) => false,
    }
}

/// An operator comes next that a class may declare, of those that stand between operands.
fn heads_declared(tokens: &[Token]) -> bool
    ensures { result ≡ heads_sign is_declared tokens.now }
{
    match sign_at(tokens) {
        Some((sign, _)) => is_declared(sign),
        None => false,
    }
}

/// An operator that a class may declare, of those that stand between operands.
fn declared_sign(tokens: &[Token]) -> Option<(OperatorName, &[Token])>
    ensures { Finds (λ x. (x.0, x.1.now)) result (take_declared_sign tokens.now) }
{
    let (sign, more) = sign_at(tokens)?;
    let span = span_over(first_tokens(tokens, more + 1));
    let at = Place {
        node: NodeId(0),
        span,
    };
    match sign {
        Sign::Binary(kind) => match declared_operator(kind) {
            Some(operator) => Some((
                OperatorName { at, operator },
                tokens_behind(tokens, more + 1),
            )),
            None => None,
        },
        Sign::Assign(_) => None,
    }
}

/// `~`.
fn tilde(tokens: &[Token]) -> Option<(OperatorName, &[Token])>
    ensures { Finds (λ x. (x.0, x.1.now)) result (take_make tilde_of (take_token (is Kind.Tilde)) tokens.now) }
{
    let (_, rest) = token(tokens, Kind::Tilde)?;
    let name = OperatorName {
        at: place_over(tokens, rest),
        operator: DeclaredOperator::Tilde,
    };
    Some((name, rest))
}

/// `[` and `]` with nothing between them.
#[tactic(auto, using(parse_leaves::specs::Groups::inside_outside))]
fn brackets(tokens: &[Token]) -> Option<(Token, &[Token])>
    ensures { Finds (λ x. ((x.0, []), x.1.now)) result (take_inside (is Kind.OpenBracket) width past (take_given {A = List Token} []) tokens.now) }
{
    let (opening, inside, rest) = group(tokens, Kind::OpenBracket)?;
    if !inside.is_empty() {
        return None;
    }
    Some((opening, rest))
}

/// `[]` or `[]=`.
fn index_operator(tokens: &[Token]) -> Option<(OperatorName, &[Token])>
    ensures { Finds (λ x. (x.0, x.1.now)) result
        (take_make index_of (take_inside (is Kind.OpenBracket) width past (take_given []) ▸ take_maybe (take_token (is Kind.Equals))) tokens.now) }
{
    let (_, rest) = brackets(tokens)?;
    let (equals, rest) = some_token(rest, Kind::Equals);
    let operator = if equals.is_some() {
        DeclaredOperator::IndexAssign
    } else {
        DeclaredOperator::Index
    };
    let at = place_over(tokens, rest);
    Some((OperatorName { at, operator }, rest))
}

/// An operator that a class may declare.
#[tactic(auto, unfolding(grammar::specs::DeclarationDescents::take_operator))]
fn operator_name(tokens: &[Token]) -> Option<(OperatorName, &[Token])>
    ensures { Finds (λ x. (x.0, x.1.now)) result (take_operator tokens.now) }
{
    if heads_declared(tokens) {
        declared_sign(tokens)
    } else if heads(tokens, Kind::Tilde) {
        tilde(tokens)
    } else {
        index_operator(tokens)
    }
}

/// What an operator of a class has behind its result type: its name, its parameters and its body.
#[tactic(auto, unfolding(crate::specs::Behind::take_operator_rest))]
pub fn operator_rest<'k, B: Below<'k>>(
    below: &B,
    alloc: Global,
    in_core: bool,
    tokens: &'k [Token],
) -> Result<((OperatorName, ParameterList, Body), &'k [Token]), Miss>
    requires limit { B.room below.now ≤ 200 }
    requires sound { B.sound below.now }
    ensures { Gives (λ x. ((x.0.0, (x.0.1, x.0.2)), x.1.now)) result (take_operator_rest in_core (lower (B.room below.now)) tokens.now) }
{
    let (_, rest) = token(tokens, Kind::Operator).ok_or(Miss::NoReading)?;
    let (name, rest) = operator_name(rest).ok_or(Miss::NoReading)?;
    let (parameters, _, rest) = parameter_list(below, alloc, rest)?;
    let bodies = Bodies {
        in_core,
        without_body: true,
    };
    let (body, rest) = body(below, alloc, bodies, rest)?;
    Ok(((name, parameters, body), rest))
}
