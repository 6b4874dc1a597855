//! Strings.

ghost use Rattle.std.specs.Prelude.{◌≡◌, ◌≢◌, ◌+◌, ◌≤◌, ◌++◌, ◌∷◌, [], Err, IfOk};
ghost use Rattle.readings.specs.Readings.{tokens_read};
ghost use Rattle.readings.specs.Descent.{take_many};
ghost use Rattle.dart_tree.specs.Tree.{trees_of, string_interpolation};
ghost use Rattle.dart_tree.specs.Heights.{height, heights};
ghost use Rattle.grammar.specs.Tokens.{place_over};
ghost use Rattle.grammar.specs.Expressions.{string_text_of, interpolated_of};
ghost use Rattle.grammar.specs.Descents.{lower, take_interpolation, take_string_part, take_string, take_strings};
ghost use Rattle.parse_leaves.specs.declared.miss.Miss.TheVariants.{NoReading};
ghost use Rattle.parse_leaves.specs.Answers.{Gives, IsDeep, AreDeep};

use dart_tokens::Kind;
use dart_tree::{
    Expr, ExprNode, StringElement, StringElementNode, StringLiteral, StringLiteralNode,
};
use grammar::Token;
use parse_leaves::{
    Below, Miss, either_token, expression_group, heads, heads_either, higher, place_of, place_over,
    token,
};
use std::alloc::Global;

/// An interpolation.
#[tactic(auto, unfolding(grammar::specs::Descents::take_interpolation))]
fn interpolation<'k, B: Below<'k>>(
    below: &B,
    alloc: Global,
    tokens: &'k [Token],
) -> Result<(StringElement, u32, &'k [Token]), Miss>
    requires limit { B.room below.now ≤ 200 }
    requires sound { B.sound below.now }
    ensures reading { Gives (λ x. (x.0, x.2.now)) result (take_interpolation (lower (B.room below.now)) tokens.now) }
    ensures deep { IfOk result (λ x. IsDeep (B.room below.now) x.0 x.1) }
{
    if heads(tokens, Kind::InterpolationMark) {
        let (_, rest) = token(tokens, Kind::InterpolationMark).ok_or(Miss::NoReading)?;
        let (value, height, rest) = below.simple(alloc, rest)?;
        let element = interpolated(alloc, tokens, rest, value)?;
        return Ok((element, height, rest));
    }
    let ((_, value), height, rest) = expression_group(
        below,
        alloc,
        Kind::InterpolationOpening,
        tokens,
    )?;
    let element = interpolated(alloc, tokens, rest, value)?;
    Ok((element, height, rest))
}

/// The part of a string that holds a value.
fn interpolated(
    alloc: Global,
    start: &[Token],
    after: &[Token],
    value: Expr,
) -> Result<StringElement, Miss>
    ensures reading { IfOk result (λ x. x ≡ string_interpolation (place_over (tokens_read start.now after.now)) value) }
    ensures whole { result ≢ Err NoReading }
{
    let node = StringElementNode::Interpolation {
        at: place_over(start, after),
        value: value,
    };
    Ok(StringElement { node })
}

/// A part of a string that is text.
fn string_text(token: Token) -> StringElement
    ensures { result ≡ string_text_of token }
{
    let node = StringElementNode::Text {
        at: place_of(token),
        kind: token.kind,
        word: token.word,
    };
    StringElement { node }
}

/// What stands between the ends of a string.
#[tactic(auto, unfolding(grammar::specs::Descents::take_string_part))]
fn string_part<'k, B: Below<'k>>(
    below: &B,
    alloc: Global,
    tokens: &'k [Token],
) -> Result<(StringElement, u32, &'k [Token]), Miss>
    requires limit { B.room below.now ≤ 200 }
    requires sound { B.sound below.now }
    ensures reading { Gives (λ x. (x.0, x.2.now)) result (take_string_part (lower (B.room below.now)) tokens.now) }
    ensures deep { IfOk result (λ x. IsDeep (B.room below.now) x.0 x.1) }
{
    if heads(tokens, Kind::StringPart) {
        let (part, rest) = token(tokens, Kind::StringPart).ok_or(Miss::NoReading)?;
        return Ok((string_text(part), 0, rest));
    }
    interpolation(below, alloc, tokens)
}

/// The parts between the ends of a string.
#[tactic(auto, using(parse_leaves::specs::Loops::row_out, parse_leaves::specs::Loops::row_stop, parse_leaves::specs::Loops::row_goes, readings::specs::Elements::begun, parse_leaves::specs::Sizes::heights_behind, parse_leaves::specs::Sizes::higher_within))]
fn string_parts<'k, B: Below<'k>>(
    below: &B,
    alloc: Global,
    tokens: &'k [Token],
) -> Result<(Vec<StringElement>, u32, &'k [Token]), Miss>
    requires limit { B.room below.now ≤ 200 }
    requires sound { B.sound below.now }
    ensures reading { Gives (λ x. (x.0.items, x.2.now)) result (take_many (take_string_part (lower (B.room below.now))) tokens.now) }
    ensures deep { IfOk result (λ x. AreDeep (B.room below.now) x.0.items x.1) }
{
    let mut list = Vec::new(alloc);
    let mut height = 0;
    let mut rest = tokens;
    let mut more = tokens.len();
    while more > 0 {
        match string_part(below, alloc, rest) {
            Ok((next, tall, after)) => {
                list.push(next)?;
                height = higher(height, tall);
                rest = after;
                more -= 1;
            }
            Err(Miss::NoReading) => return Ok((list, height, rest)),
            Err(Miss::Memory) => return Err(Miss::Memory),
        }
    }
    Ok((list, height, rest))
}

/// The parts of a string with its ends.
fn with_ends(
    alloc: Global,
    opening: Token,
    parts: Vec<StringElement>,
    closing: Token,
) -> Result<Vec<StringElement>, Miss>
    ensures reading { IfOk result (λ x. x.items ≡ string_text_of opening ∷ (parts.items ++ string_text_of closing ∷ [])) }
    ensures whole { result ≢ Err NoReading }
{
    let mut elements = Vec::new(alloc);
    elements.push(string_text(opening))?;
    let mut behind = parts;
    elements.append(&mut behind)?;
    elements.push(string_text(closing))?;
    elements.shrink_to_fit();
    Ok(elements)
}

/// A string of its parts and its ends.
fn ended_string(
    alloc: Global,
    start: &[Token],
    after: &[Token],
    opening: Token,
    parts: Vec<StringElement>,
    closing: Token,
) -> Result<StringLiteral, Miss>
    ensures reading { IfOk result (λ x. x ≡ interpolated_of (tokens_read start.now after.now) (opening, (parts.items, closing))) }
    ensures deep { IfOk result (λ x. height x ≡ heights (trees_of parts.items)) }
    ensures whole { result ≢ Err NoReading }
{
    let elements = with_ends(alloc, opening, parts, closing)?;
    let at = place_over(start, after);
    let node = StringLiteralNode::Interpolated { at, elements };
    Ok(StringLiteral { node })
}

/// A string.
#[tactic(auto, unfolding(grammar::specs::Descents::take_string))]
pub fn string<'k, B: Below<'k>>(
    below: &B,
    alloc: Global,
    tokens: &'k [Token],
) -> Result<(StringLiteral, u32, &'k [Token]), Miss>
    requires limit { B.room below.now ≤ 200 }
    requires sound { B.sound below.now }
    ensures reading { Gives (λ x. (x.0, x.2.now)) result (take_string (lower (B.room below.now)) tokens.now) }
    ensures deep { IfOk result (λ x. IsDeep (B.room below.now) x.0 x.1) }
{
    if heads_either(tokens, Kind::StringLiteral, Kind::UnterminatedString) {
        let (found, rest) = either_token(
            tokens,
            Kind::StringLiteral,
            Kind::UnterminatedString,
        ).ok_or(Miss::NoReading)?;
        let node = StringLiteralNode::Simple {
            at: place_of(found),
            kind: found.kind,
            word: found.word,
        };
        return Ok((StringLiteral { node }, 0, rest));
    }
    let (opening, rest) = token(tokens, Kind::StringOpening).ok_or(Miss::NoReading)?;
    let (parts, height, rest) = string_parts(below, alloc, rest)?;
    let (closing, rest) = token(rest, Kind::StringClosing).ok_or(Miss::NoReading)?;
    let value = ended_string(alloc, tokens, rest, opening, parts, closing)?;
    Ok((value, height, rest))
}

/// Further strings.
#[tactic(auto, using(parse_leaves::specs::Loops::row_out, parse_leaves::specs::Loops::row_stop, parse_leaves::specs::Loops::row_goes, readings::specs::Elements::begun, parse_leaves::specs::Sizes::heights_behind, parse_leaves::specs::Sizes::higher_within))]
fn more_strings<'k, B: Below<'k>>(
    below: &B,
    alloc: Global,
    tokens: &'k [Token],
) -> Result<(Vec<StringLiteral>, u32, &'k [Token]), Miss>
    requires limit { B.room below.now ≤ 200 }
    requires sound { B.sound below.now }
    ensures reading { Gives (λ x. (x.0.items, x.2.now)) result (take_many (take_string (lower (B.room below.now))) tokens.now) }
    ensures deep { IfOk result (λ x. AreDeep (B.room below.now) x.0.items x.1) }
{
    let mut list = Vec::new(alloc);
    let mut height = 0;
    let mut rest = tokens;
    let mut more = tokens.len();
    while more > 0 {
        match string(below, alloc, rest) {
            Ok((next, tall, after)) => {
                list.push(next)?;
                height = higher(height, tall);
                rest = after;
                more -= 1;
            }
            Err(Miss::NoReading) => return Ok((list, height, rest)),
            Err(Miss::Memory) => return Err(Miss::Memory),
        }
    }
    Ok((list, height, rest))
}

/// A string with those behind it.
fn with_first(
    alloc: Global,
    first: StringLiteral,
    rest: Vec<StringLiteral>,
) -> Result<Vec<StringLiteral>, Miss>
    ensures reading { IfOk result (λ x. x.items ≡ first ∷ rest.items) }
    ensures whole { result ≢ Err NoReading }
{
    let mut strings = Vec::with_capacity(alloc, 1)?;
    strings.push(first)?;
    let mut behind = rest;
    strings.append(&mut behind)?;
    Ok(strings)
}

/// One string or more, side by side.
#[tactic(auto, unfolding(grammar::specs::Descents::take_strings))]
pub fn strings<'k, B: Below<'k>>(
    below: &B,
    alloc: Global,
    tokens: &'k [Token],
) -> Result<(Expr, u32, &'k [Token]), Miss>
    requires limit { B.room below.now ≤ 200 }
    requires sound { B.sound below.now }
    ensures reading { Gives (λ x. (x.0, x.2.now)) result (take_strings (lower (B.room below.now)) tokens.now) }
    ensures deep { IfOk result (λ x. IsDeep (B.room below.now + 1) x.0 x.1) }
{
    let (first, tall, rest) = string(below, alloc, tokens)?;
    let (others, height, rest) = more_strings(below, alloc, rest)?;
    let strings = with_first(alloc, first, others)?;
    let at = place_over(tokens, rest);
    let node = Box::new(alloc, ExprNode::Text { at, strings })?;
    Ok((Expr { node }, higher(tall, height) + 1, rest))
}
