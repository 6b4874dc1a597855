//! Parameters of functions.

ghost use Rattle.std.specs.Prelude.{◌≡◌, ◌+◌, ◌≤◌, Some, None, IfOk, option_map};
ghost use Rattle.readings.specs.Descent.{take_token, take_given, take_maybe, take_many, take_elements, take_inside, take_before, take_where, take_turn, ◌▸◌};
ghost use Rattle.grammar.specs.Tokens.{is, is_either, width, past};
ghost use Rattle.grammar.specs.Types.{heads_field, heads_required, is_final_word, behind_token, listed_or_none};
ghost use Rattle.grammar.specs.Descents.{lower, take_annotation, take_parameter, take_parameters, take_optional_parameters, take_parameter_list};
ghost use Rattle.parse_leaves.specs.Answers.{Finds, Gives, IsDeep, AreDeep};
ghost use Rattle.parse_leaves.specs.Parts.{IsPartDeep, AreBothDeep};

use dart_tokens::Kind;
use dart_tree::{Annotation, Expr, Parameter, ParameterKind, ParameterList, WrittenType};
use grammar::{Setting, Token};
use parse_leaves::{
    Below, Miss, annotation, either_token, group, heads, heads_field, heads_required,
    heads_untyped, higher, name, name_at, place_over, token,
};
use std::alloc::Global;

/// Annotations.
#[tactic(auto, using(parse_leaves::specs::Loops::row_out, parse_leaves::specs::Loops::row_stop, parse_leaves::specs::Loops::row_goes, readings::specs::Elements::begun))]
pub fn annotations(alloc: Global, tokens: &[Token]) -> Result<(Vec<Annotation>, &[Token]), Miss>
    ensures { Gives (λ x. (x.0.items, x.1.now)) result (take_many take_annotation tokens.now) }
{
    let mut list = Vec::new(alloc);
    let mut rest = tokens;
    let mut more = tokens.len();
    while more > 0 {
        let Some((next, after)) = annotation(rest) else {
            return Ok((list, rest));
        };
        list.push(next)?;
        rest = after;
        more -= 1;
    }
    Ok((list, rest))
}

/// `required`, where it isn't the parameter's name.
fn required(tokens: &[Token]) -> Option<(Option<Token>, &[Token])>
    ensures { Finds (λ x. (x.0, x.1.now)) result (take_where heads_required (take_turn (λ t. Some t) (take_token (is Kind.Required))) (take_given None) tokens.now) }
{
    if heads_required(tokens) {
        let (word, rest) = token(tokens, Kind::Required)?;
        Some((Some(word), rest))
    } else {
        Some((None, tokens))
    }
}

/// `final` or `var`, if one of them comes next.
fn final_or_var(tokens: &[Token]) -> (Option<Token>, &[Token])
    ensures { take_maybe (take_token (is_either Kind.Final Kind.Var)) tokens.now ≡ Some (result.0, result.1.now) }
{
    match either_token(tokens, Kind::Final, Kind::Var) {
        Some((found, rest)) => (Some(found), rest),
        None => (None, tokens),
    }
}

/// The word is `final`.
fn is_final_word(word: Option<Token>) -> bool
    ensures { result ≡ is_final_word word }
{
    match word {
        Some(token) => token.kind == Kind::Final,
        None => false,
    }
}

/// `this` and a `.`.
fn this_period(tokens: &[Token]) -> Option<(Token, Token, &[Token])>
    ensures { Finds (λ x. ((x.0, x.1), x.2.now)) result ((take_token (is Kind.This) ▸ take_token (is Kind.Period)) tokens.now) }
{
    let (word, rest) = token(tokens, Kind::This)?;
    let (period, rest) = token(rest, Kind::Period)?;
    Some((word, period, rest))
}

/// `this` and a `.`, if they come next.
fn some_this_period(tokens: &[Token]) -> (Option<(Token, Token)>, &[Token])
    ensures { take_maybe (take_token (is Kind.This) ▸ take_token (is Kind.Period)) tokens.now ≡ Some (result.0, result.1.now) }
{
    match this_period(tokens) {
        Some((word, period, rest)) => (Some((word, period)), rest),
        None => (None, tokens),
    }
}

/// A type in front of the name of a parameter.
#[tactic(auto, using(crate::specs::Untyped::untyped_field))]
fn field_type<'k, B: Below<'k>>(
    below: &B,
    alloc: Global,
    tokens: &'k [Token],
) -> Result<(WrittenType, u32, &'k [Token]), Miss>
    requires limit { B.room below.now ≤ 200 }
    requires sound { B.sound below.now }
    ensures reading { Gives (λ x. (x.0, x.2.now)) result (take_before heads_field (lower (B.room below.now)).named tokens.now) }
    ensures deep { IfOk result (λ x. IsDeep (B.room below.now) x.0 x.1) }
{
    if heads_untyped(tokens) {
        return Err(Miss::NoReading);
    }
    let (written, height, rest) = below.named(alloc, tokens)?;
    if !heads_field(rest) {
        return Err(Miss::NoReading);
    }
    Ok((written, height, rest))
}

/// A type in front of the name of a parameter, if there is one.
fn some_field_type<'k, B: Below<'k>>(
    below: &B,
    alloc: Global,
    tokens: &'k [Token],
) -> Result<(Option<WrittenType>, u32, &'k [Token]), Miss>
    requires limit { B.room below.now ≤ 200 }
    requires sound { B.sound below.now }
    ensures reading { Gives (λ x. (x.0, x.2.now)) result (take_maybe (take_before heads_field (lower (B.room below.now)).named) tokens.now) }
    ensures deep { IfOk result (λ x. IsPartDeep (B.room below.now) x.0 x.1) }
{
    match field_type(below, alloc, tokens) {
        Ok((found, height, rest)) => Ok((Some(found), height, rest)),
        Err(Miss::NoReading) => Ok((None, 0, tokens)),
        Err(Miss::Memory) => Err(Miss::Memory),
    }
}

/// `=` and an expression.
fn initializer<'k, B: Below<'k>>(
    below: &B,
    alloc: Global,
    setting: Setting,
    tokens: &'k [Token],
) -> Result<((Token, Expr), u32, &'k [Token]), Miss>
    requires limit { B.room below.now ≤ 200 }
    requires sound { B.sound below.now }
    ensures reading { Gives (λ x. (x.0, x.2.now)) result ((take_token (is Kind.Equals) ▸ (lower (B.room below.now)).expression setting) tokens.now) }
    ensures deep { IfOk result (λ x. IsDeep (B.room below.now) x.0.1 x.1) }
{
    let (equals, rest) = token(tokens, Kind::Equals).ok_or(Miss::NoReading)?;
    let (value, height, rest) = below.expression(alloc, setting, rest)?;
    Ok(((equals, value), height, rest))
}

/// `=` and an expression, if they come next.
pub fn some_initializer<'k, B: Below<'k>>(
    below: &B,
    alloc: Global,
    setting: Setting,
    tokens: &'k [Token],
) -> Result<(Option<(Token, Expr)>, u32, &'k [Token]), Miss>
    requires limit { B.room below.now ≤ 200 }
    requires sound { B.sound below.now }
    ensures reading { Gives (λ x. (x.0, x.2.now)) result (take_maybe (take_token (is Kind.Equals) ▸ (lower (B.room below.now)).expression setting) tokens.now) }
    ensures deep { IfOk result (λ x. IsPartDeep (B.room below.now) (behind_token x.0) x.1) }
{
    match initializer(below, alloc, setting, tokens) {
        Ok((found, height, rest)) => Ok((Some(found), height, rest)),
        Err(Miss::NoReading) => Ok((None, 0, tokens)),
        Err(Miss::Memory) => Err(Miss::Memory),
    }
}

/// A parameter.
#[tactic(auto, unfolding(grammar::specs::Descents::take_parameter))]
fn parameter<'k, B: Below<'k>>(
    below: &B,
    alloc: Global,
    kind: ParameterKind,
    tokens: &'k [Token],
) -> Result<(Parameter, u32, &'k [Token]), Miss>
    requires limit { B.room below.now ≤ 200 }
    requires sound { B.sound below.now }
    ensures reading { Gives (λ x. (x.0, x.2.now)) result (take_parameter (lower (B.room below.now)) kind tokens.now) }
    ensures deep { IfOk result (λ x. IsDeep (B.room below.now) x.0 x.1) }
{
    let (metadata, rest) = annotations(alloc, tokens)?;
    let (must, rest) = required(rest).ok_or(Miss::NoReading)?;
    let (word, rest) = final_or_var(rest);
    let (written, tall, rest) = some_field_type(below, alloc, rest)?;
    let (field, rest) = some_this_period(rest);
    let (declared, rest) = name(rest).ok_or(Miss::NoReading)?;
    let (default, height, rest) = some_initializer(below, alloc, Setting::Default, rest)?;
    let parameter = Parameter {
        at: place_over(tokens, rest),
        metadata,
        kind,
        is_required: must.is_some(),
        is_final: is_final_word(word),
        written,
        is_field: field.is_some(),
        name: name_at(declared),
        default_value: default.map(|(_, value)| value),
    };
    Ok((parameter, higher(tall, height), rest))
}

/// Parameters with commas between them.
#[tactic(auto, using(parse_leaves::specs::Loops::each_out, parse_leaves::specs::Loops::each_stop, parse_leaves::specs::Loops::each_last, parse_leaves::specs::Loops::each_goes, readings::specs::Elements::begun, parse_leaves::specs::Sizes::heights_behind, parse_leaves::specs::Sizes::higher_within))]
fn parameters<'k, B: Below<'k>>(
    below: &B,
    alloc: Global,
    kind: ParameterKind,
    tokens: &'k [Token],
) -> Result<(Vec<Parameter>, u32, &'k [Token]), Miss>
    requires limit { B.room below.now ≤ 200 }
    requires sound { B.sound below.now }
    ensures reading { Gives (λ x. (x.0.items, x.2.now)) result (take_elements (take_parameter (lower (B.room below.now)) kind) (take_token (is Kind.Comma)) tokens.now) }
    ensures deep { IfOk result (λ x. AreDeep (B.room below.now) x.0.items x.1) }
{
    let mut list = Vec::new(alloc);
    let mut height = 0;
    let mut rest = tokens;
    let mut more = tokens.len();
    while more > 0 {
        match parameter(below, alloc, kind, rest) {
            Ok((next, tall, after)) => {
                list.push(next)?;
                height = higher(height, tall);
                let Some((_, behind)) = token(after, Kind::Comma) else {
                    return Ok((list, height, after));
                };
                rest = behind;
                more -= 1;
            }
            Err(Miss::NoReading) => return Ok((list, height, rest)),
            Err(Miss::Memory) => return Err(Miss::Memory),
        }
    }
    Ok((list, height, rest))
}

/// Optional parameters in brackets of a kind.
#[tactic(auto, using(parse_leaves::specs::Groups::inside_outside, parse_leaves::specs::Groups::group_missing, parse_leaves::specs::Groups::group_cut, parse_leaves::specs::Groups::group_whole))]
fn bracketed<'k, B: Below<'k>>(
    below: &B,
    alloc: Global,
    bracket: Kind,
    kind: ParameterKind,
    tokens: &'k [Token],
) -> Result<(Token, Vec<Parameter>, u32, &'k [Token]), Miss>
    requires limit { B.room below.now ≤ 200 }
    requires sound { B.sound below.now }
    ensures reading { Gives (λ x. ((x.0, x.1.items), x.3.now)) result (take_inside (is bracket) width past (take_parameters (lower (B.room below.now)) kind) tokens.now) }
    ensures deep { IfOk result (λ x. AreDeep (B.room below.now) x.1.items x.2) }
{
    let Some((opening, inside, rest)) = group(tokens, bracket) else {
        return Err(Miss::NoReading);
    };
    match parameters(below, alloc, kind, inside) {
        Ok((list, height, left)) => {
            if !left.is_empty() {
                return Err(Miss::NoReading);
            }
            Ok((opening, list, height, rest))
        }
        Err(Miss::NoReading) => Err(Miss::NoReading),
        Err(Miss::Memory) => Err(Miss::Memory),
    }
}

/// Optional parameters.
#[tactic(auto, unfolding(grammar::specs::Descents::take_optional_parameters))]
fn optional_parameters<'k, B: Below<'k>>(
    below: &B,
    alloc: Global,
    tokens: &'k [Token],
) -> Result<(Vec<Parameter>, u32, &'k [Token]), Miss>
    requires limit { B.room below.now ≤ 200 }
    requires sound { B.sound below.now }
    ensures reading { Gives (λ x. (x.0.items, x.2.now)) result (take_optional_parameters (lower (B.room below.now)) tokens.now) }
    ensures deep { IfOk result (λ x. AreDeep (B.room below.now) x.0.items x.1) }
{
    if heads(tokens, Kind::OpenBracket) {
        let (_, list, height, rest) = bracketed(
            below,
            alloc,
            Kind::OpenBracket,
            ParameterKind::OptionalPositional,
            tokens,
        )?;
        Ok((list, height, rest))
    } else {
        let (_, list, height, rest) = bracketed(
            below,
            alloc,
            Kind::OpenBrace,
            ParameterKind::Named,
            tokens,
        )?;
        Ok((list, height, rest))
    }
}

/// Optional parameters, if there are any.
pub fn some_optional_parameters<'k, B: Below<'k>>(
    below: &B,
    alloc: Global,
    tokens: &'k [Token],
) -> Result<(Option<Vec<Parameter>>, u32, &'k [Token]), Miss>
    requires limit { B.room below.now ≤ 200 }
    requires sound { B.sound below.now }
    ensures reading { Gives (λ x. (option_map (λ v. v.items) x.0, x.2.now)) result (take_maybe (take_optional_parameters (lower (B.room below.now))) tokens.now) }
    ensures deep { IfOk result (λ x. AreDeep (B.room below.now) (listed_or_none (option_map (λ v. v.items) x.0)) x.1) }
{
    match optional_parameters(below, alloc, tokens) {
        Ok((found, height, rest)) => Ok((Some(found), height, rest)),
        Err(Miss::NoReading) => Ok((None, 0, tokens)),
        Err(Miss::Memory) => Err(Miss::Memory),
    }
}

/// The optional parameters that were found, or none.
pub fn listed_parameters(alloc: Global, found: Option<Vec<Parameter>>) -> Vec<Parameter>
    ensures { result.items ≡ listed_or_none (option_map (λ v. v.items) found) }
{
    match found {
        Some(list) => list,
        None => Vec::new(alloc),
    }
}

/// What stands between the parentheses of parameters: those before any bracket, and those in brackets.
fn parameters_inside<'k, B: Below<'k>>(
    below: &B,
    alloc: Global,
    tokens: &'k [Token],
) -> Result<(Vec<Parameter>, Option<Vec<Parameter>>, u32, &'k [Token]), Miss>
    requires limit { B.room below.now ≤ 200 }
    requires sound { B.sound below.now }
    ensures reading { Gives (λ x. ((x.0.items, option_map (λ v. v.items) x.1), x.3.now)) result ((take_parameters (lower (B.room below.now)) ParameterKind.Positional ▸ take_maybe (take_optional_parameters (lower (B.room below.now)))) tokens.now) }
    ensures deep { IfOk result (λ x. AreBothDeep (B.room below.now) x.0.items (listed_or_none (option_map (λ v. v.items) x.1)) x.2) }
{
    let (required, tall, rest) = parameters(below, alloc, ParameterKind::Positional, tokens)?;
    let (optional, height, rest) = some_optional_parameters(below, alloc, rest)?;
    Ok((required, optional, higher(tall, height), rest))
}

/// The parentheses of parameters.
#[tactic(auto, using(parse_leaves::specs::Groups::inside_outside, parse_leaves::specs::Groups::group_missing, parse_leaves::specs::Groups::group_cut, parse_leaves::specs::Groups::group_whole))]
fn parameter_group<'k, B: Below<'k>>(
    below: &B,
    alloc: Global,
    tokens: &'k [Token],
) -> Result<
    (
        Token,
        Vec<Parameter>,
        Option<Vec<Parameter>>,
        u32,
        &'k [Token],
    ),
    Miss,
>
    requires limit { B.room below.now ≤ 200 }
    requires sound { B.sound below.now }
    ensures reading { Gives (λ x. ((x.0, (x.1.items, option_map (λ v. v.items) x.2)), x.4.now)) result (take_inside (is Kind.OpenParenthesis) width past (take_parameters (lower (B.room below.now)) ParameterKind.Positional ▸ take_maybe (take_optional_parameters (lower (B.room below.now)))) tokens.now) }
    ensures deep { IfOk result (λ x. AreBothDeep (B.room below.now) x.1.items (listed_or_none (option_map (λ v. v.items) x.2)) x.3) }
{
    let Some((opening, inside, rest)) = group(tokens, Kind::OpenParenthesis) else {
        return Err(Miss::NoReading);
    };
    match parameters_inside(below, alloc, inside) {
        Ok((required, optional, height, left)) => {
            if !left.is_empty() {
                return Err(Miss::NoReading);
            }
            Ok((opening, required, optional, height, rest))
        }
        Err(Miss::NoReading) => Err(Miss::NoReading),
        Err(Miss::Memory) => Err(Miss::Memory),
    }
}

/// Parameters with their parentheses.
#[tactic(auto, unfolding(grammar::specs::Descents::take_parameter_list), using(parse_leaves::specs::Sizes::heights_append))]
pub fn parameter_list<'k, B: Below<'k>>(
    below: &B,
    alloc: Global,
    tokens: &'k [Token],
) -> Result<(ParameterList, u32, &'k [Token]), Miss>
    requires limit { B.room below.now ≤ 200 }
    requires sound { B.sound below.now }
    ensures reading { Gives (λ x. (x.0, x.2.now)) result (take_parameter_list (lower (B.room below.now)) tokens.now) }
    ensures deep { IfOk result (λ x. IsDeep (B.room below.now) x.0 x.1) }
{
    let (_, required, optional, height, rest) = parameter_group(below, alloc, tokens)?;
    let mut parameters = required;
    let mut behind = listed_parameters(alloc, optional);
    parameters.append(&mut behind)?;
    parameters.shrink_to_fit();
    let at = place_over(tokens, rest);
    Ok((ParameterList { at, parameters }, height, rest))
}
