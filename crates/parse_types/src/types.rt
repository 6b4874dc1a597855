//! Types.

ghost use Rattle.std.specs.Prelude.{◌≡◌, ◌+◌, ◌≤◌, ◌≢◌, Some, Err, length, IfOk, option_map};
ghost use Rattle.readings.specs.Readings.{tokens_read};
ghost use Rattle.readings.specs.Descent.{take_token, take_maybe, take_many, take_elements, take_inside, take_before, take_onto, take_make, take_turn, ◌▸◌, ◌⊘◌};
ghost use Rattle.dart_tree.specs.Heights.{higher, height, fits};
ghost use Rattle.grammar.specs.Tokens.{is, width, past};
ghost use Rattle.grammar.specs.Types.{first_tail_of, next_tail_of, behind_token, listed_or_none};
ghost use Rattle.grammar.specs.Descents.{lower, take_separated, take_type_arguments, take_type_parameter, take_type_parameters, take_plain_type, take_parameter_type, take_optional_parameters, take_tail, take_tail_before, take_type};
ghost use Rattle.parse_leaves.specs.declared.miss.Miss.TheVariants.{NoReading};
ghost use Rattle.parse_leaves.specs.Answers.{Gives, IsDeep, AreDeep};
ghost use Rattle.parse_leaves.specs.Places.{question_of, ends_of};
ghost use Rattle.parse_leaves.specs.Parts.{tail_of, tail_height, IsPartDeep, AreBothDeep};

use crate::parameters::{listed_parameters, some_optional_parameters};
use dart_tokens::Kind;
use dart_tree::{
    FunctionTypeParts, Parameter, ParameterType, TypeArguments, TypeArgumentsNode, TypeParameter,
    WrittenType, WrittenTypeNode,
};
use grammar::Token;
use parse_leaves::{
    Below, Miss, Tail, TypePlace, group, heads, heads_end, higher, identifier_at, name_at,
    place_of, place_over, question, some_name, token, type_name, type_word,
};
use std::alloc::{AllocError, Global};

/// Types with commas between them.
#[tactic(auto, using(parse_leaves::specs::Loops::list_out, parse_leaves::specs::Loops::list_stop, parse_leaves::specs::Commas::comma_goes, parse_leaves::specs::Commas::comma_stop, parse_leaves::specs::Loops::continued_first, parse_leaves::specs::Sizes::heights_behind, parse_leaves::specs::Sizes::higher_within))]
pub fn type_list<'k, B: Below<'k>>(
    below: &B,
    alloc: Global,
    tokens: &'k [Token],
) -> Result<(Vec<WrittenType>, u32, &'k [Token]), Miss>
    requires limit { B.room below.now ≤ 200 }
    requires sound { B.sound below.now }
    ensures reading { Gives (λ x. (x.0.items, x.2.now)) result (take_separated ((lower (B.room below.now)).written) tokens.now) }
    ensures deep { IfOk result (λ x. AreDeep (B.room below.now) x.0.items x.1) }
{
    let (first, mut height, mut rest) = below.written(alloc, tokens)?;
    let mut list = Vec::with_capacity(alloc, 1)?;
    list.push(first)?;
    let mut more = rest.len();
    while more > 0 {
        let Some((_, behind)) = token(rest, Kind::Comma) else {
            return Ok((list, height, rest));
        };
        match below.written(alloc, behind) {
            Ok((next, tall, after)) => {
                list.push(next)?;
                height = higher(height, tall);
                rest = after;
                more -= 1;
            }
            Err(Miss::NoReading) => return Ok((list, height, rest)),
            Err(Miss::Memory) => return Err(Miss::Memory),
        }
    }
    Ok((list, height, rest))
}

/// Type arguments.
#[tactic(auto, unfolding(grammar::specs::Descents::take_type_arguments))]
pub fn type_arguments<'k, B: Below<'k>>(
    below: &B,
    alloc: Global,
    tokens: &'k [Token],
) -> Result<(TypeArguments, u32, &'k [Token]), Miss>
    requires limit { B.room below.now ≤ 200 }
    requires sound { B.sound below.now }
    ensures reading { Gives (λ x. (x.0, x.2.now)) result (take_type_arguments (lower (B.room below.now)) tokens.now) }
    ensures deep { IfOk result (λ x. IsDeep (B.room below.now) x.0 x.1) }
{
    let (_, rest) = token(tokens, Kind::Less).ok_or(Miss::NoReading)?;
    let (types, height, rest) = type_list(below, alloc, rest)?;
    let (_, rest) = token(rest, Kind::Greater).ok_or(Miss::NoReading)?;
    let at = place_over(tokens, rest);
    let node = Box::new(alloc, TypeArgumentsNode { at, types })?;
    Ok((TypeArguments { node }, height, rest))
}

/// Type arguments, if there are any.
pub fn some_type_arguments<'k, B: Below<'k>>(
    below: &B,
    alloc: Global,
    tokens: &'k [Token],
) -> Result<(Option<TypeArguments>, u32, &'k [Token]), Miss>
    requires limit { B.room below.now ≤ 200 }
    requires sound { B.sound below.now }
    ensures reading { Gives (λ x. (x.0, x.2.now)) result (take_maybe (take_type_arguments (lower (B.room below.now))) tokens.now) }
    ensures deep { IfOk result (λ x. IsPartDeep (B.room below.now) x.0 x.1) }
{
    match type_arguments(below, alloc, tokens) {
        Ok((found, height, rest)) => Ok((Some(found), height, rest)),
        Err(Miss::NoReading) => Ok((None, 0, tokens)),
        Err(Miss::Memory) => Err(Miss::Memory),
    }
}

/// `extends` and a type.
fn bound<'k, B: Below<'k>>(
    below: &B,
    alloc: Global,
    tokens: &'k [Token],
) -> Result<((Token, WrittenType), u32, &'k [Token]), Miss>
    requires limit { B.room below.now ≤ 200 }
    requires sound { B.sound below.now }
    ensures reading { Gives (λ x. (x.0, x.2.now)) result ((take_token (is Kind.Extends) ▸ (lower (B.room below.now)).written) tokens.now) }
    ensures deep { IfOk result (λ x. IsDeep (B.room below.now) x.0.1 x.1) }
{
    let (word, rest) = token(tokens, Kind::Extends).ok_or(Miss::NoReading)?;
    let (written, height, rest) = below.written(alloc, rest)?;
    Ok(((word, written), height, rest))
}

/// `extends` and a type, if they are there.
fn some_bound<'k, B: Below<'k>>(
    below: &B,
    alloc: Global,
    tokens: &'k [Token],
) -> Result<(Option<(Token, WrittenType)>, u32, &'k [Token]), Miss>
    requires limit { B.room below.now ≤ 200 }
    requires sound { B.sound below.now }
    ensures reading { Gives (λ x. (x.0, x.2.now)) result (take_maybe (take_token (is Kind.Extends) ▸ (lower (B.room below.now)).written) tokens.now) }
    ensures deep { IfOk result (λ x. IsPartDeep (B.room below.now) (behind_token x.0) x.1) }
{
    match bound(below, alloc, tokens) {
        Ok((found, height, rest)) => Ok((Some(found), height, rest)),
        Err(Miss::NoReading) => Ok((None, 0, tokens)),
        Err(Miss::Memory) => Err(Miss::Memory),
    }
}

/// A type parameter.
#[tactic(auto, unfolding(grammar::specs::Descents::take_type_parameter))]
fn type_parameter<'k, B: Below<'k>>(
    below: &B,
    alloc: Global,
    tokens: &'k [Token],
) -> Result<(TypeParameter, u32, &'k [Token]), Miss>
    requires limit { B.room below.now ≤ 200 }
    requires sound { B.sound below.now }
    ensures reading { Gives (λ x. (x.0, x.2.now)) result (take_type_parameter (lower (B.room below.now)) tokens.now) }
    ensures deep { IfOk result (λ x. IsDeep (B.room below.now) x.0 x.1) }
{
    let (word, rest) = type_word(tokens).ok_or(Miss::NoReading)?;
    let (found, height, rest) = some_bound(below, alloc, rest)?;
    let at = place_over(tokens, rest);
    let name = name_at(word);
    let bound = found.map(|(_, written)| written);
    Ok((TypeParameter { at, name, bound }, height, rest))
}

/// Type parameters with commas between them.
#[tactic(auto, using(parse_leaves::specs::Loops::list_out, parse_leaves::specs::Loops::list_stop, parse_leaves::specs::Commas::comma_goes, parse_leaves::specs::Commas::comma_stop, parse_leaves::specs::Loops::continued_first, parse_leaves::specs::Sizes::heights_behind, parse_leaves::specs::Sizes::higher_within))]
fn type_parameter_list<'k, B: Below<'k>>(
    below: &B,
    alloc: Global,
    tokens: &'k [Token],
) -> Result<(Vec<TypeParameter>, u32, &'k [Token]), Miss>
    requires limit { B.room below.now ≤ 200 }
    requires sound { B.sound below.now }
    ensures reading { Gives (λ x. (x.0.items, x.2.now)) result (take_separated (take_type_parameter (lower (B.room below.now))) tokens.now) }
    ensures deep { IfOk result (λ x. AreDeep (B.room below.now) x.0.items x.1) }
{
    let (first, mut height, mut rest) = type_parameter(below, alloc, tokens)?;
    let mut list = Vec::new(alloc);
    list.push(first)?;
    let mut more = rest.len();
    while more > 0 {
        let Some((_, behind)) = token(rest, Kind::Comma) else {
            return Ok((list, height, rest));
        };
        match type_parameter(below, alloc, behind) {
            Ok((next, tall, after)) => {
                list.push(next)?;
                height = higher(height, tall);
                rest = after;
                more -= 1;
            }
            Err(Miss::NoReading) => return Ok((list, height, rest)),
            Err(Miss::Memory) => return Err(Miss::Memory),
        }
    }
    Ok((list, height, rest))
}

/// Type parameters in brackets.
#[tactic(auto, unfolding(grammar::specs::Descents::take_type_parameters))]
fn type_parameters<'k, B: Below<'k>>(
    below: &B,
    alloc: Global,
    tokens: &'k [Token],
) -> Result<(Vec<TypeParameter>, u32, &'k [Token]), Miss>
    requires limit { B.room below.now ≤ 200 }
    requires sound { B.sound below.now }
    ensures reading { Gives (λ x. (x.0.items, x.2.now)) result (take_type_parameters (lower (B.room below.now)) tokens.now) }
    ensures deep { IfOk result (λ x. AreDeep (B.room below.now) x.0.items x.1) }
{
    let (_, rest) = token(tokens, Kind::Less).ok_or(Miss::NoReading)?;
    let (list, height, rest) = type_parameter_list(below, alloc, rest)?;
    let (_, rest) = token(rest, Kind::Greater).ok_or(Miss::NoReading)?;
    Ok((list, height, rest))
}

/// Type parameters in brackets, if there are any.
pub fn some_type_parameters<'k, B: Below<'k>>(
    below: &B,
    alloc: Global,
    tokens: &'k [Token],
) -> Result<(Option<Vec<TypeParameter>>, u32, &'k [Token]), Miss>
    requires limit { B.room below.now ≤ 200 }
    requires sound { B.sound below.now }
    ensures reading { Gives (λ x. (option_map (λ v. v.items) x.0, x.2.now)) result (take_maybe (take_type_parameters (lower (B.room below.now))) tokens.now) }
    ensures deep { IfOk result (λ x. AreDeep (B.room below.now) (listed_or_none (option_map (λ v. v.items) x.0)) x.1) }
{
    match type_parameters(below, alloc, tokens) {
        Ok((found, height, rest)) => Ok((Some(found), height, rest)),
        Err(Miss::NoReading) => Ok((None, 0, tokens)),
        Err(Miss::Memory) => Err(Miss::Memory),
    }
}

/// A type that is no function type.
#[tactic(auto, unfolding(grammar::specs::Descents::take_plain_type))]
pub fn plain_type<'k, B: Below<'k>>(
    below: &B,
    alloc: Global,
    place: TypePlace,
    tokens: &'k [Token],
) -> Result<(WrittenType, u32, &'k [Token]), Miss>
    requires limit { B.room below.now ≤ 200 }
    requires sound { B.sound below.now }
    ensures reading { Gives (λ x. (x.0, x.2.now)) result (take_plain_type (lower (B.room below.now)) (question_of place) tokens.now) }
    ensures deep { IfOk result (λ x. IsDeep (B.room below.now + 1) x.0 x.1) }
{
    if heads(tokens, Kind::Void) {
        let (word, rest) = token(tokens, Kind::Void).ok_or(Miss::NoReading)?;
        let node = Box::new(alloc, WrittenTypeNode::Void { at: place_of(word) })?;
        return Ok((WrittenType { node }, 1, rest));
    }
    let (prefix, word, rest) = type_name(tokens).ok_or(Miss::NoReading)?;
    let (arguments, height, rest) = some_type_arguments(below, alloc, rest)?;
    let (mark, rest) = question(place, rest).ok_or(Miss::NoReading)?;
    let node = Box::new(
        alloc,
        WrittenTypeNode::Named {
            at: place_over(tokens, rest),
            prefix: prefix.map(|word| identifier_at(word)),
            name: identifier_at(word),
            arguments,
            nullable: mark.is_some(),
        },
    )?;
    Ok((WrittenType { node }, height + 1, rest))
}

/// A parameter of a function type.
#[tactic(auto, unfolding(grammar::specs::Descents::take_parameter_type))]
fn parameter_type<'k, B: Below<'k>>(
    below: &B,
    alloc: Global,
    tokens: &'k [Token],
) -> Result<(ParameterType, u32, &'k [Token]), Miss>
    requires limit { B.room below.now ≤ 200 }
    requires sound { B.sound below.now }
    ensures reading { Gives (λ x. (x.0, x.2.now)) result (take_parameter_type (lower (B.room below.now)) tokens.now) }
    ensures deep { IfOk result (λ x. IsDeep (B.room below.now) x.0 x.1) }
{
    let (written, height, rest) = below.written(alloc, tokens)?;
    let (found, rest) = some_name(rest);
    let at = place_over(tokens, rest);
    let name = found.map(|word| identifier_at(word));
    Ok((ParameterType { at, written, name }, height, rest))
}

/// The required parameters of a function type.
#[tactic(auto, using(parse_leaves::specs::Loops::each_out, parse_leaves::specs::Loops::each_stop, parse_leaves::specs::Loops::each_last, parse_leaves::specs::Loops::each_goes, readings::specs::Elements::begun, parse_leaves::specs::Sizes::heights_behind, parse_leaves::specs::Sizes::higher_within))]
fn parameter_types<'k, B: Below<'k>>(
    below: &B,
    alloc: Global,
    tokens: &'k [Token],
) -> Result<(Vec<ParameterType>, u32, &'k [Token]), Miss>
    requires limit { B.room below.now ≤ 200 }
    requires sound { B.sound below.now }
    ensures reading { Gives (λ x. (x.0.items, x.2.now)) result (take_elements (take_parameter_type (lower (B.room below.now))) (take_token (is Kind.Comma)) tokens.now) }
    ensures deep { IfOk result (λ x. AreDeep (B.room below.now) x.0.items x.1) }
{
    let mut list = Vec::new(alloc);
    let mut height = 0;
    let mut rest = tokens;
    let mut more = tokens.len();
    while more > 0 {
        match parameter_type(below, alloc, rest) {
            Ok((next, tall, after)) => {
                list.push(next)?;
                height = higher(height, tall);
                let Some((_, behind)) = token(after, Kind::Comma) else {
                    return Ok((list, height, after));
                };
                rest = behind;
                more -= 1;
            }
            Err(Miss::NoReading) => return Ok((list, height, rest)),
            Err(Miss::Memory) => return Err(Miss::Memory),
        }
    }
    Ok((list, height, rest))
}

/// What stands between the parentheses of a function type: the required parameters, and the
/// optional ones.
fn inner_tail<'k, B: Below<'k>>(
    below: &B,
    alloc: Global,
    tokens: &'k [Token],
) -> Result<(Vec<ParameterType>, Option<Vec<Parameter>>, u32, &'k [Token]), Miss>
    requires limit { B.room below.now ≤ 200 }
    requires sound { B.sound below.now }
    ensures reading { Gives (λ x. ((x.0.items, option_map (λ v. v.items) x.1), x.3.now)) result ((take_elements (take_parameter_type (lower (B.room below.now))) (take_token (is Kind.Comma)) ▸ take_maybe (take_optional_parameters (lower (B.room below.now)))) tokens.now) }
    ensures deep { IfOk result (λ x. AreBothDeep (B.room below.now) x.0.items (listed_or_none (option_map (λ v. v.items) x.1)) x.2) }
{
    let (parameters, tall, rest) = parameter_types(below, alloc, tokens)?;
    let (optional, height, rest) = some_optional_parameters(below, alloc, rest)?;
    Ok((parameters, optional, higher(tall, height), rest))
}

/// The parentheses of a function type.
#[tactic(auto, using(parse_leaves::specs::Groups::inside_outside, parse_leaves::specs::Groups::group_missing, parse_leaves::specs::Groups::group_cut, parse_leaves::specs::Groups::group_whole))]
fn tail_group<'k, B: Below<'k>>(
    below: &B,
    alloc: Global,
    tokens: &'k [Token],
) -> Result<
    (
        Token,
        Vec<ParameterType>,
        Option<Vec<Parameter>>,
        u32,
        &'k [Token],
    ),
    Miss,
>
    requires limit { B.room below.now ≤ 200 }
    requires sound { B.sound below.now }
    ensures reading { Gives (λ x. ((x.0, (x.1.items, option_map (λ v. v.items) x.2)), x.4.now)) result (take_inside (is Kind.OpenParenthesis) width past (take_elements (take_parameter_type (lower (B.room below.now))) (take_token (is Kind.Comma)) ▸ take_maybe (take_optional_parameters (lower (B.room below.now)))) tokens.now) }
    ensures deep { IfOk result (λ x. AreBothDeep (B.room below.now) x.1.items (listed_or_none (option_map (λ v. v.items) x.2)) x.3) }
{
    let Some((opening, inside, rest)) = group(tokens, Kind::OpenParenthesis) else {
        return Err(Miss::NoReading);
    };
    match inner_tail(below, alloc, inside) {
        Ok((parameters, optional, height, left)) => {
            if !left.is_empty() {
                return Err(Miss::NoReading);
            }
            Ok((opening, parameters, optional, height, rest))
        }
        Err(Miss::NoReading) => Err(Miss::NoReading),
        Err(Miss::Memory) => Err(Miss::Memory),
    }
}

/// The tail of a function type.
#[tactic(auto, unfolding(grammar::specs::Descents::take_tail))]
fn tail<'k, B: Below<'k>>(
    below: &B,
    alloc: Global,
    place: TypePlace,
    tokens: &'k [Token],
) -> Result<(Tail, u32, &'k [Token]), Miss>
    requires limit { B.room below.now ≤ 200 }
    requires sound { B.sound below.now }
    ensures reading { Gives (λ x. (tail_of x.0, x.2.now)) result (take_tail (lower (B.room below.now)) (question_of place) tokens.now) }
    ensures deep { IfOk result (λ x. (x.1 ≡ tail_height (tail_of x.0)) × (x.1 ≤ (B.room below.now))) }
{
    let (_, rest) = token(tokens, Kind::Function).ok_or(Miss::NoReading)?;
    let (type_parameters, reach, rest) = some_type_parameters(below, alloc, rest)?;
    let (_, parameters, optional, height, rest) = tail_group(below, alloc, rest)?;
    let (mark, rest) = question(place, rest).ok_or(Miss::NoReading)?;
    let tail = Tail {
        type_parameters: listed_type_parameters(alloc, type_parameters),
        parameters,
        optional: listed_parameters(alloc, optional),
        nullable: mark.is_some(),
    };
    Ok((tail, higher(reach, height), rest))
}

/// The tail of a function type, where it may end.
#[tactic(auto, unfolding(grammar::specs::Descents::take_tail_before))]
fn tail_before<'k, B: Below<'k>>(
    below: &B,
    alloc: Global,
    place: TypePlace,
    tokens: &'k [Token],
) -> Result<(Tail, u32, &'k [Token]), Miss>
    requires limit { B.room below.now ≤ 200 }
    requires sound { B.sound below.now }
    ensures reading { Gives (λ x. (tail_of x.0, x.2.now)) result (take_tail_before (lower (B.room below.now)) (question_of place) (ends_of place) tokens.now) }
    ensures deep { IfOk result (λ x. (x.1 ≡ tail_height (tail_of x.0)) × (x.1 ≤ (B.room below.now))) }
{
    let (found, height, rest) = tail(below, alloc, place, tokens)?;
    if !heads_end(place, rest) {
        return Err(Miss::NoReading);
    }
    Ok((found, height, rest))
}

/// The type parameters that were found, or none.
pub fn listed_type_parameters(
    alloc: Global,
    found: Option<Vec<TypeParameter>>,
) -> Vec<TypeParameter>
    ensures { result.items ≡ listed_or_none (option_map (λ v. v.items) found) }
{
    match found {
        Some(list) => list,
        None => Vec::new(alloc),
    }
}

/// The function type that a tail makes of nothing.
#[tactic(auto, using(parse_leaves::specs::Sizes::zero_higher))]
fn tail_alone(
    alloc: Global,
    start: &[Token],
    after: &[Token],
    tail: Tail,
) -> Result<WrittenType, AllocError>
    ensures reading { IfOk result (λ x. x ≡ first_tail_of (tokens_read start.now after.now) (tail_of tail)) }
    ensures deep { IfOk result (λ x. height x ≡ tail_height (tail_of tail) + 1) }
{
    let parts = Box::new(
        alloc,
        FunctionTypeParts {
            type_parameters: tail.type_parameters,
            parameters: tail.parameters,
            optional: tail.optional,
        },
    )?;
    let node = Box::new(
        alloc,
        WrittenTypeNode::Function {
            at: place_over(start, after),
            result: None,
            parts,
            nullable: tail.nullable,
        },
    )?;
    Ok(WrittenType { node })
}

/// The function type that a tail makes of its result.
fn tail_behind(
    alloc: Global,
    start: &[Token],
    after: &[Token],
    left: WrittenType,
    tail: Tail,
) -> Result<WrittenType, Miss>
    ensures reading { IfOk result (λ x. x ≡ next_tail_of (tokens_read start.now after.now) left (tail_of tail)) }
    ensures deep { IfOk result (λ x. height x ≡ higher (height left) (tail_height (tail_of tail)) + 1) }
    ensures whole { result ≢ Err NoReading }
{
    let parts = Box::new(
        alloc,
        FunctionTypeParts {
            type_parameters: tail.type_parameters,
            parameters: tail.parameters,
            optional: tail.optional,
        },
    )?;
    let node = Box::new(
        alloc,
        WrittenTypeNode::Function {
            at: place_over(start, after),
            result: Some(left),
            parts,
            nullable: tail.nullable,
        },
    )?;
    Ok(WrittenType { node })
}

/// The first of a type that may have tails.
fn first_type<'k, B: Below<'k>>(
    below: &B,
    alloc: Global,
    place: TypePlace,
    tokens: &'k [Token],
) -> Result<(WrittenType, u32, &'k [Token]), Miss>
    requires limit { B.room below.now ≤ 200 }
    requires sound { B.sound below.now }
    ensures reading { Gives (λ x. (x.0, x.2.now)) result ((take_make first_tail_of (take_tail_before (lower (B.room below.now)) (question_of place) (ends_of place)) ⊘ take_plain_type (lower (B.room below.now)) (question_of place)) tokens.now) }
    ensures deep { IfOk result (λ x. IsDeep (B.room below.now + 1) x.0 x.1) }
{
    match tail_before(below, alloc, place, tokens) {
        Ok((tail, height, rest)) => {
            let written = tail_alone(alloc, tokens, rest, tail)?;
            Ok((written, height + 1, rest))
        }
        Err(Miss::NoReading) => plain_type(below, alloc, place, tokens),
        Err(Miss::Memory) => Err(Miss::Memory),
    }
}

/// The tails behind a type.
#[tactic(auto, using(parse_leaves::specs::Loops::chain_out, parse_leaves::specs::Loops::chain_deep, parse_leaves::specs::Loops::chain_ends, parse_leaves::specs::Loops::chain_goes, parse_leaves::specs::Loops::fits_deep, parse_leaves::specs::Loops::fits_not, parse_leaves::specs::Sizes::higher_within))]
fn tails<'k, B: Below<'k>>(
    below: &B,
    alloc: Global,
    place: TypePlace,
    start: &[Token],
    first: WrittenType,
    reach: u32,
    tokens: &'k [Token],
) -> Result<(WrittenType, u32, &'k [Token]), Miss>
    requires limit { B.room below.now ≤ 200 }
    requires sound { B.sound below.now }
    requires known { IsDeep (B.room below.now + 1) first reach }
    ensures reading { Gives (λ x. (x.0, x.2.now)) result (take_onto start.now (length tokens.now) (fits (B.room below.now)) next_tail_of (take_tail_before (lower (B.room below.now)) (question_of place) (ends_of place)) first tokens.now) }
    ensures deep { IfOk result (λ x. IsDeep (B.room below.now + 1) x.0 x.1) }
{
    let room = below.room();
    let mut left = first;
    let mut height = reach;
    let mut rest = tokens;
    let mut more = tokens.len();
    while more > 0 {
        if height > room {
            return Ok((left, height, rest));
        }
        match tail_before(below, alloc, place, rest) {
            Ok((tail, tall, after)) => {
                left = tail_behind(alloc, start, after, left, tail)?;
                height = higher(height, tall) + 1;
                rest = after;
                more -= 1;
            }
            Err(Miss::NoReading) => return Ok((left, height, rest)),
            Err(Miss::Memory) => return Err(Miss::Memory),
        }
    }
    Ok((left, height, rest))
}

/// A type.
#[tactic(auto, unfolding(grammar::specs::Descents::take_type))]
pub fn type_within<'k, B: Below<'k>>(
    below: &B,
    alloc: Global,
    place: TypePlace,
    tokens: &'k [Token],
) -> Result<(WrittenType, u32, &'k [Token]), Miss>
    requires limit { B.room below.now ≤ 200 }
    requires sound { B.sound below.now }
    ensures reading { Gives (λ x. (x.0, x.2.now)) result (take_type (B.room below.now) (lower (B.room below.now)) (question_of place) (ends_of place) tokens.now) }
    ensures deep { IfOk result (λ x. IsDeep (B.room below.now + 1) x.0 x.1) }
{
    let (first, height, rest) = first_type(below, alloc, place, tokens)?;
    tails(below, alloc, place, tokens, first, height, rest)
}
