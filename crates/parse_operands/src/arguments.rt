//! Arguments, and what literals hold.

ghost use Rattle.std.specs.Prelude.{◌≡◌, ◌+◌, ◌≤◌, IfOk};
ghost use Rattle.readings.specs.Readings.{tokens_read};
ghost use Rattle.readings.specs.Descent.{take_token, take_maybe, take_elements, take_inside, take_where, take_turn, ◌▸◌};
ghost use Rattle.dart_tree.specs.Tree.{part_of};
ghost use Rattle.dart_tree.specs.Heights.{higher, height, height_of_part};
ghost use Rattle.grammar.specs.Tokens.{is, heads, width, past};
ghost use Rattle.grammar.specs.Types.{behind_token};
ghost use Rattle.grammar.specs.Expressions.{listed_of, entries_of, collection_with};
ghost use Rattle.grammar.specs.Descents.{lower, take_argument, take_arguments, take_entry, take_collection};
ghost use Rattle.parse_leaves.specs.Answers.{Gives, IsDeep, AreDeep};
ghost use Rattle.parse_leaves.specs.Parts.{IsPartDeep, contents_of, contents_height};

use dart_tokens::Kind;
use dart_tree::{
    Argument, ArgumentList, ArgumentListNode, Expr, ExprNode, MapEntry, TypeArguments,
};
use grammar::{Setting, Token};
use parse_leaves::{
    Below, Contents, Miss, group, heads, heads_label, higher, identifier_at, name, place_over,
    token,
};
use parse_types::some_type_arguments;
use std::alloc::{AllocError, Global};

/// An argument.
#[tactic(auto, unfolding(grammar::specs::Descents::take_argument))]
fn argument<'k, B: Below<'k>>(
    below: &B,
    alloc: Global,
    tokens: &'k [Token],
) -> Result<(Argument, u32, &'k [Token]), Miss>
    requires limit { B.room below.now ≤ 200 }
    requires sound { B.sound below.now }
    ensures reading { Gives (λ x. (x.0, x.2.now)) result (take_argument (lower (B.room below.now)) tokens.now) }
    ensures deep { IfOk result (λ x. IsDeep (B.room below.now) x.0 x.1) }
{
    if heads_label(tokens) {
        let (word, rest) = name(tokens).ok_or(Miss::NoReading)?;
        let (_, rest) = token(rest, Kind::Colon).ok_or(Miss::NoReading)?;
        let (value, height, rest) = below.expression(alloc, Setting::Listed, rest)?;
        let at = place_over(tokens, rest);
        let name = Some(identifier_at(word));
        return Ok((Argument { at, name, value }, height, rest));
    }
    let (value, height, rest) = below.expression(alloc, Setting::Listed, tokens)?;
    let at = place_over(tokens, rest);
    let name = None;
    Ok((Argument { at, name, value }, height, rest))
}

/// Arguments with commas between them.
#[tactic(auto, using(parse_leaves::specs::Loops::each_out, parse_leaves::specs::Loops::each_stop, parse_leaves::specs::Loops::each_last, parse_leaves::specs::Loops::each_goes, readings::specs::Elements::begun, parse_leaves::specs::Sizes::heights_behind, parse_leaves::specs::Sizes::higher_within))]
fn argument_items<'k, B: Below<'k>>(
    below: &B,
    alloc: Global,
    tokens: &'k [Token],
) -> Result<(Vec<Argument>, u32, &'k [Token]), Miss>
    requires limit { B.room below.now ≤ 200 }
    requires sound { B.sound below.now }
    ensures reading { Gives (λ x. (x.0.items, x.2.now)) result (take_elements (take_argument (lower (B.room below.now))) (take_token (is Kind.Comma)) tokens.now) }
    ensures deep { IfOk result (λ x. AreDeep (B.room below.now) x.0.items x.1) }
{
    let mut list = Vec::new(alloc);
    let mut height = 0;
    let mut rest = tokens;
    let mut more = tokens.len();
    while more > 0 {
        match argument(below, alloc, rest) {
            Ok((next, tall, after)) => {
                list.push(next)?;
                height = higher(height, tall);
                let Some((_, behind)) = token(after, Kind::Comma) else {
                    return Ok((list, height, after));
                };
                rest = behind;
                more -= 1;
            }
            Err(Miss::NoReading) => return Ok((list, height, rest)),
            Err(Miss::Memory) => return Err(Miss::Memory),
        }
    }
    Ok((list, height, rest))
}

/// The parentheses of arguments.
#[tactic(auto, using(parse_leaves::specs::Groups::inside_outside, parse_leaves::specs::Groups::group_missing, parse_leaves::specs::Groups::group_cut, parse_leaves::specs::Groups::group_whole))]
fn argument_group<'k, B: Below<'k>>(
    below: &B,
    alloc: Global,
    tokens: &'k [Token],
) -> Result<(Token, Vec<Argument>, u32, &'k [Token]), Miss>
    requires limit { B.room below.now ≤ 200 }
    requires sound { B.sound below.now }
    ensures reading { Gives (λ x. ((x.0, x.1.items), x.3.now)) result (take_inside (is Kind.OpenParenthesis) width past (take_elements (take_argument (lower (B.room below.now))) (take_token (is Kind.Comma))) tokens.now) }
    ensures deep { IfOk result (λ x. AreDeep (B.room below.now) x.1.items x.2) }
{
    let Some((opening, inside, rest)) = group(tokens, Kind::OpenParenthesis) else {
        return Err(Miss::NoReading);
    };
    match argument_items(below, alloc, inside) {
        Ok((found, height, left)) => {
            if !left.is_empty() {
                return Err(Miss::NoReading);
            }
            Ok((opening, found, height, rest))
        }
        Err(Miss::NoReading) => Err(Miss::NoReading),
        Err(Miss::Memory) => Err(Miss::Memory),
    }
}

/// Arguments with their parentheses.
#[tactic(auto, unfolding(grammar::specs::Descents::take_arguments))]
pub fn argument_list<'k, B: Below<'k>>(
    below: &B,
    alloc: Global,
    tokens: &'k [Token],
) -> Result<(ArgumentList, u32, &'k [Token]), Miss>
    requires limit { B.room below.now ≤ 200 }
    requires sound { B.sound below.now }
    ensures reading { Gives (λ x. (x.0, x.2.now)) result (take_arguments (lower (B.room below.now)) tokens.now) }
    ensures deep { IfOk result (λ x. IsDeep (B.room below.now) x.0 x.1) }
{
    let (_, mut arguments, height, rest) = argument_group(below, alloc, tokens)?;
    arguments.shrink_to_fit();
    let at = place_over(tokens, rest);
    let node = Box::new(alloc, ArgumentListNode { at, arguments })?;
    Ok((ArgumentList { node }, height, rest))
}

/// Expressions with commas between them.
#[tactic(auto, using(parse_leaves::specs::Loops::each_out, parse_leaves::specs::Loops::each_stop, parse_leaves::specs::Loops::each_last, parse_leaves::specs::Loops::each_goes, readings::specs::Elements::begun, parse_leaves::specs::Sizes::heights_behind, parse_leaves::specs::Sizes::higher_within))]
fn expressions<'k, B: Below<'k>>(
    below: &B,
    alloc: Global,
    tokens: &'k [Token],
) -> Result<(Vec<Expr>, u32, &'k [Token]), Miss>
    requires limit { B.room below.now ≤ 200 }
    requires sound { B.sound below.now }
    ensures reading { Gives (λ x. (x.0.items, x.2.now)) result (take_elements ((lower (B.room below.now)).expression Setting.Listed) (take_token (is Kind.Comma)) tokens.now) }
    ensures deep { IfOk result (λ x. AreDeep (B.room below.now) x.0.items x.1) }
{
    let mut list = Vec::new(alloc);
    let mut height = 0;
    let mut rest = tokens;
    let mut more = tokens.len();
    while more > 0 {
        match below.expression(alloc, Setting::Listed, rest) {
            Ok((next, tall, after)) => {
                list.push(next)?;
                height = higher(height, tall);
                let Some((_, behind)) = token(after, Kind::Comma) else {
                    return Ok((list, height, after));
                };
                rest = behind;
                more -= 1;
            }
            Err(Miss::NoReading) => return Ok((list, height, rest)),
            Err(Miss::Memory) => return Err(Miss::Memory),
        }
    }
    Ok((list, height, rest))
}

/// The brackets of a list.
#[tactic(auto, using(parse_leaves::specs::Groups::inside_outside, parse_leaves::specs::Groups::group_missing, parse_leaves::specs::Groups::group_cut, parse_leaves::specs::Groups::group_whole))]
fn expressions_group<'k, B: Below<'k>>(
    below: &B,
    alloc: Global,
    tokens: &'k [Token],
) -> Result<(Token, Vec<Expr>, u32, &'k [Token]), Miss>
    requires limit { B.room below.now ≤ 200 }
    requires sound { B.sound below.now }
    ensures reading { Gives (λ x. ((x.0, x.1.items), x.3.now)) result (take_inside (is Kind.OpenBracket) width past (take_elements ((lower (B.room below.now)).expression Setting.Listed) (take_token (is Kind.Comma))) tokens.now) }
    ensures deep { IfOk result (λ x. AreDeep (B.room below.now) x.1.items x.2) }
{
    let Some((opening, inside, rest)) = group(tokens, Kind::OpenBracket) else {
        return Err(Miss::NoReading);
    };
    match expressions(below, alloc, inside) {
        Ok((found, height, left)) => {
            if !left.is_empty() {
                return Err(Miss::NoReading);
            }
            Ok((opening, found, height, rest))
        }
        Err(Miss::NoReading) => Err(Miss::NoReading),
        Err(Miss::Memory) => Err(Miss::Memory),
    }
}

/// `:` and an expression.
fn entry_value<'k, B: Below<'k>>(
    below: &B,
    alloc: Global,
    tokens: &'k [Token],
) -> Result<((Token, Expr), u32, &'k [Token]), Miss>
    requires limit { B.room below.now ≤ 200 }
    requires sound { B.sound below.now }
    ensures reading { Gives (λ x. (x.0, x.2.now)) result ((take_token (is Kind.Colon) ▸ (lower (B.room below.now)).expression Setting.Listed) tokens.now) }
    ensures deep { IfOk result (λ x. IsDeep (B.room below.now) x.0.1 x.1) }
{
    let (colon, rest) = token(tokens, Kind::Colon).ok_or(Miss::NoReading)?;
    let (value, height, rest) = below.expression(alloc, Setting::Listed, rest)?;
    Ok(((colon, value), height, rest))
}

/// `:` and an expression, if they come next.
fn some_entry_value<'k, B: Below<'k>>(
    below: &B,
    alloc: Global,
    tokens: &'k [Token],
) -> Result<(Option<(Token, Expr)>, u32, &'k [Token]), Miss>
    requires limit { B.room below.now ≤ 200 }
    requires sound { B.sound below.now }
    ensures reading { Gives (λ x. (x.0, x.2.now)) result (take_maybe (take_token (is Kind.Colon) ▸ (lower (B.room below.now)).expression Setting.Listed) tokens.now) }
    ensures deep { IfOk result (λ x. IsPartDeep (B.room below.now) (behind_token x.0) x.1) }
{
    match entry_value(below, alloc, tokens) {
        Ok((found, height, rest)) => Ok((Some(found), height, rest)),
        Err(Miss::NoReading) => Ok((None, 0, tokens)),
        Err(Miss::Memory) => Err(Miss::Memory),
    }
}

/// An entry of a map, or an element of a set.
#[tactic(auto, unfolding(grammar::specs::Descents::take_entry))]
fn entry<'k, B: Below<'k>>(
    below: &B,
    alloc: Global,
    tokens: &'k [Token],
) -> Result<(MapEntry, u32, &'k [Token]), Miss>
    requires limit { B.room below.now ≤ 200 }
    requires sound { B.sound below.now }
    ensures reading { Gives (λ x. (x.0, x.2.now)) result (take_entry (lower (B.room below.now)) tokens.now) }
    ensures deep { IfOk result (λ x. IsDeep (B.room below.now) x.0 x.1) }
{
    let (key, tall, rest) = below.expression(alloc, Setting::Listed, tokens)?;
    let (found, height, rest) = some_entry_value(below, alloc, rest)?;
    let at = place_over(tokens, rest);
    let value = found.map(|(_, value)| value);
    Ok((MapEntry { at, key, value }, higher(tall, height), rest))
}

/// Entries with commas between them.
#[tactic(auto, using(parse_leaves::specs::Loops::each_out, parse_leaves::specs::Loops::each_stop, parse_leaves::specs::Loops::each_last, parse_leaves::specs::Loops::each_goes, readings::specs::Elements::begun, parse_leaves::specs::Sizes::heights_behind, parse_leaves::specs::Sizes::higher_within))]
fn entries<'k, B: Below<'k>>(
    below: &B,
    alloc: Global,
    tokens: &'k [Token],
) -> Result<(Vec<MapEntry>, u32, &'k [Token]), Miss>
    requires limit { B.room below.now ≤ 200 }
    requires sound { B.sound below.now }
    ensures reading { Gives (λ x. (x.0.items, x.2.now)) result (take_elements (take_entry (lower (B.room below.now))) (take_token (is Kind.Comma)) tokens.now) }
    ensures deep { IfOk result (λ x. AreDeep (B.room below.now) x.0.items x.1) }
{
    let mut list = Vec::new(alloc);
    let mut height = 0;
    let mut rest = tokens;
    let mut more = tokens.len();
    while more > 0 {
        match entry(below, alloc, rest) {
            Ok((next, tall, after)) => {
                list.push(next)?;
                height = higher(height, tall);
                let Some((_, behind)) = token(after, Kind::Comma) else {
                    return Ok((list, height, after));
                };
                rest = behind;
                more -= 1;
            }
            Err(Miss::NoReading) => return Ok((list, height, rest)),
            Err(Miss::Memory) => return Err(Miss::Memory),
        }
    }
    Ok((list, height, rest))
}

/// The braces of a set or a map.
#[tactic(auto, using(parse_leaves::specs::Groups::inside_outside, parse_leaves::specs::Groups::group_missing, parse_leaves::specs::Groups::group_cut, parse_leaves::specs::Groups::group_whole))]
fn entries_group<'k, B: Below<'k>>(
    below: &B,
    alloc: Global,
    tokens: &'k [Token],
) -> Result<(Token, Vec<MapEntry>, u32, &'k [Token]), Miss>
    requires limit { B.room below.now ≤ 200 }
    requires sound { B.sound below.now }
    ensures reading { Gives (λ x. ((x.0, x.1.items), x.3.now)) result (take_inside (is Kind.OpenBrace) width past (take_elements (take_entry (lower (B.room below.now))) (take_token (is Kind.Comma))) tokens.now) }
    ensures deep { IfOk result (λ x. AreDeep (B.room below.now) x.1.items x.2) }
{
    let Some((opening, inside, rest)) = group(tokens, Kind::OpenBrace) else {
        return Err(Miss::NoReading);
    };
    match entries(below, alloc, inside) {
        Ok((found, height, left)) => {
            if !left.is_empty() {
                return Err(Miss::NoReading);
            }
            Ok((opening, found, height, rest))
        }
        Err(Miss::NoReading) => Err(Miss::NoReading),
        Err(Miss::Memory) => Err(Miss::Memory),
    }
}

/// What a literal of a list, a set or a map holds, with its brackets.
fn contents<'k, B: Below<'k>>(
    below: &B,
    alloc: Global,
    tokens: &'k [Token],
) -> Result<(Contents, u32, &'k [Token]), Miss>
    requires limit { B.room below.now ≤ 200 }
    requires sound { B.sound below.now }
    ensures reading { Gives (λ x. (contents_of x.0, x.2.now)) result (take_where (heads Kind.OpenBracket) (take_turn listed_of (take_inside (is Kind.OpenBracket) width past (take_elements ((lower (B.room below.now)).expression Setting.Listed) (take_token (is Kind.Comma))))) (take_turn entries_of (take_inside (is Kind.OpenBrace) width past (take_elements (take_entry (lower (B.room below.now))) (take_token (is Kind.Comma))))) tokens.now) }
    ensures deep { IfOk result (λ x. (x.1 ≡ contents_height (contents_of x.0)) × (x.1 ≤ (B.room below.now))) }
{
    if heads(tokens, Kind::OpenBracket) {
        let (_, all, height, rest) = expressions_group(below, alloc, tokens)?;
        return Ok((Contents::Listed(all), height, rest));
    }
    let (_, all, height, rest) = entries_group(below, alloc, tokens)?;
    Ok((Contents::Entries(all), height, rest))
}

/// The literal of a list, a set or a map, of what it holds.
fn literal(
    alloc: Global,
    start: &[Token],
    after: &[Token],
    type_arguments: Option<TypeArguments>,
    contents: Contents,
) -> Result<Expr, AllocError>
    ensures reading { IfOk result (λ x. x ≡ collection_with (tokens_read start.now after.now) type_arguments (contents_of contents)) }
    ensures deep { IfOk result (λ x. height x ≡ higher (height_of_part (part_of type_arguments)) (contents_height (contents_of contents)) + 1) }
{
    let at = place_over(start, after);
    let node = match contents {
        Contents::Listed(elements) => ExprNode::List {
            at,
            type_arguments,
            elements,
        },
        Contents::Entries(entries) => ExprNode::SetOrMap {
            at,
            type_arguments,
            entries,
        },
    };
    let node = Box::new(alloc, node)?;
    Ok(Expr { node })
}

/// A literal of a list, a set or a map.
#[tactic(auto, unfolding(grammar::specs::Descents::take_collection))]
pub fn collection<'k, B: Below<'k>>(
    below: &B,
    alloc: Global,
    tokens: &'k [Token],
) -> Result<(Expr, u32, &'k [Token]), Miss>
    requires limit { B.room below.now ≤ 200 }
    requires sound { B.sound below.now }
    ensures reading { Gives (λ x. (x.0, x.2.now)) result (take_collection (lower (B.room below.now)) tokens.now) }
    ensures deep { IfOk result (λ x. IsDeep (B.room below.now + 1) x.0 x.1) }
{
    let (type_arguments, tall, rest) = some_type_arguments(below, alloc, tokens)?;
    let (contents, height, rest) = contents(below, alloc, rest)?;
    let value = literal(alloc, tokens, rest, type_arguments, contents)?;
    Ok((value, higher(tall, height) + 1, rest))
}
