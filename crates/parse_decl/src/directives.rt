//! Directives.

ghost use Rattle.std.specs.Prelude.{◌≡◌, ◌≤◌, ◌∷◌, map, option_map, IfOk};
ghost use Rattle.readings.specs.Descent.{take_token, take_maybe, take_many, take_make, ◌▸◌, ◌⊘◌};
ghost use Rattle.grammar.specs.Tokens.{is, is_name};
ghost use Rattle.grammar.specs.Types.{behind_token};
ghost use Rattle.grammar.specs.Declarations.{listed, show_of, hide_of, part_of_uri_of, part_of_library_of};
ghost use Rattle.grammar.specs.Descents.{lower, take_separated, take_string};
ghost use Rattle.grammar.specs.DeclarationDescents.{take_library_names, take_library, take_combinator, take_import, take_export, take_part, take_part_of, take_directive};
ghost use Rattle.parse_leaves.specs.Answers.{Finds, Gives};

use dart_tokens::Kind;
use dart_tree::{Combinator, CombinatorNode, Item, ItemNode, ListedName, ReadItem, StringLiteral};
use grammar::Token;
use parse_leaves::{Below, Miss, heads, name, place_of, place_over, token};
use parse_operands::string;
use std::alloc::{AllocError, Global};

/// A name as one of a list.
fn listed_name(word: Token) -> ListedName
    ensures { result ≡ listed word }
{
    ListedName {
        at: place_of(word),
        word: word.word,
    }
}

/// Names as a list.
fn listed_names(alloc: Global, words: &[Token]) -> Result<Vec<ListedName>, AllocError>
    ensures { IfOk result (λ list. list.items ≡ map listed words.now) }
{
    let mut list = Vec::new(alloc);
    for word in words {
        list.push(listed_name(*word))?;
    }
    Ok(list)
}

/// A name and those behind periods, as a list.
fn dotted_names(
    alloc: Global,
    first: Token,
    others: &[(Token, Token)],
) -> Result<Vec<ListedName>, AllocError>
    ensures { IfOk result (λ list. list.items ≡ listed first ∷ map (λ n. listed n.1) others.now) }
{
    let mut list = Vec::new(alloc);
    list.push(listed_name(first))?;
    for other in others {
        list.push(listed_name(other.1))?;
    }
    Ok(list)
}

/// A `.` and a name.
fn dotted_name(tokens: &[Token]) -> Option<((Token, Token), &[Token])>
    ensures { Finds (λ x. (x.0, x.1.now)) result ((take_token (is Kind.Period) ▸ take_token is_name) tokens.now) }
{
    let (period, rest) = token(tokens, Kind::Period)?;
    let (word, rest) = name(rest)?;
    Some(((period, word), rest))
}

/// Names, each behind a `.`.
#[tactic(auto, using(parse_leaves::specs::Loops::row_out, parse_leaves::specs::Loops::row_stop, parse_leaves::specs::Loops::row_goes, readings::specs::Elements::begun))]
fn more_names(alloc: Global, tokens: &[Token]) -> Result<(Vec<(Token, Token)>, &[Token]), Miss>
    ensures { Gives (λ x. (x.0.items, x.1.now)) result (take_many (take_token (is Kind.Period) ▸ take_token is_name) tokens.now) }
{
    let mut list = Vec::new(alloc);
    let mut rest = tokens;
    let mut more = tokens.len();
    while more > 0 {
        let Some((next, after)) = dotted_name(rest) else {
            return Ok((list, rest));
        };
        list.push(next)?;
        rest = after;
        more -= 1;
    }
    Ok((list, rest))
}

/// The name of a library: names with periods between them.
#[tactic(auto, unfolding(grammar::specs::DeclarationDescents::take_library_names))]
fn library_names(alloc: Global, tokens: &[Token]) -> Result<(Vec<ListedName>, &[Token]), Miss>
    ensures { Gives (λ x. (x.0.items, x.1.now)) result (take_library_names tokens.now) }
{
    let (first, rest) = name(tokens).ok_or(Miss::NoReading)?;
    let (others, rest) = more_names(alloc, rest)?;
    let names = dotted_names(alloc, first, others.as_slice())?;
    Ok((names, rest))
}

/// `library`.
#[tactic(auto, unfolding(grammar::specs::DeclarationDescents::take_library))]
fn library(alloc: Global, tokens: &[Token]) -> Result<(Item, &[Token]), Miss>
    ensures { Gives (λ x. (x.0, x.1.now)) result (take_library tokens.now) }
{
    let (_, rest) = token(tokens, Kind::Library).ok_or(Miss::NoReading)?;
    let (names, rest) = library_names(alloc, rest)?;
    let (_, rest) = token(rest, Kind::Semicolon).ok_or(Miss::NoReading)?;
    let at = place_over(tokens, rest);
    let node = ItemNode::Read(Box::new(alloc, ReadItem::Library { at, names })?);
    Ok((Item { node }, rest))
}

/// Names with commas between them.
#[tactic(auto, using(parse_leaves::specs::Loops::list_out, parse_leaves::specs::Loops::list_stop, parse_leaves::specs::Commas::comma_goes, parse_leaves::specs::Commas::comma_stop, parse_leaves::specs::Loops::continued_first))]
fn names(alloc: Global, tokens: &[Token]) -> Result<(Vec<Token>, &[Token]), Miss>
    ensures { Gives (λ x. (x.0.items, x.1.now)) result (take_separated (take_token is_name) tokens.now) }
{
    let (first, mut rest) = name(tokens).ok_or(Miss::NoReading)?;
    let mut list = Vec::new(alloc);
    list.push(first)?;
    let mut more = rest.len();
    while more > 0 {
        let Some((_, behind)) = token(rest, Kind::Comma) else {
            return Ok((list, rest));
        };
        let Some((next, after)) = name(behind) else {
            return Ok((list, rest));
        };
        list.push(next)?;
        rest = after;
        more -= 1;
    }
    Ok((list, rest))
}

/// `show` and names.
fn show(alloc: Global, tokens: &[Token]) -> Result<(Combinator, &[Token]), Miss>
    ensures { Gives (λ x. (x.0, x.1.now)) result (take_make show_of (take_token (is Kind.Show) ▸ take_separated (take_token is_name)) tokens.now) }
{
    let (_, rest) = token(tokens, Kind::Show).ok_or(Miss::NoReading)?;
    let (words, rest) = names(alloc, rest)?;
    let at = place_over(tokens, rest);
    let names = listed_names(alloc, words.as_slice())?;
    let node = CombinatorNode::Show { at, names };
    Ok((Combinator { node }, rest))
}

/// `hide` and names.
fn hide(alloc: Global, tokens: &[Token]) -> Result<(Combinator, &[Token]), Miss>
    ensures { Gives (λ x. (x.0, x.1.now)) result (take_make hide_of (take_token (is Kind.Hide) ▸ take_separated (take_token is_name)) tokens.now) }
{
    let (_, rest) = token(tokens, Kind::Hide).ok_or(Miss::NoReading)?;
    let (words, rest) = names(alloc, rest)?;
    let at = place_over(tokens, rest);
    let names = listed_names(alloc, words.as_slice())?;
    let node = CombinatorNode::Hide { at, names };
    Ok((Combinator { node }, rest))
}

/// A combinator.
#[tactic(auto, unfolding(grammar::specs::DeclarationDescents::take_combinator))]
fn combinator(alloc: Global, tokens: &[Token]) -> Result<(Combinator, &[Token]), Miss>
    ensures { Gives (λ x. (x.0, x.1.now)) result (take_combinator tokens.now) }
{
    if heads(tokens, Kind::Show) {
        show(alloc, tokens)
    } else {
        hide(alloc, tokens)
    }
}

/// Combinators.
#[tactic(auto, using(parse_leaves::specs::Loops::row_out, parse_leaves::specs::Loops::row_stop, parse_leaves::specs::Loops::row_goes, readings::specs::Elements::begun))]
fn combinators(alloc: Global, tokens: &[Token]) -> Result<(Vec<Combinator>, &[Token]), Miss>
    ensures { Gives (λ x. (x.0.items, x.1.now)) result (take_many take_combinator tokens.now) }
{
    let mut list = Vec::new(alloc);
    let mut rest = tokens;
    let mut more = tokens.len();
    while more > 0 {
        match combinator(alloc, rest) {
            Ok((next, after)) => {
                list.push(next)?;
                rest = after;
                more -= 1;
            }
            Err(Miss::NoReading) => return Ok((list, rest)),
            Err(Miss::Memory) => return Err(Miss::Memory),
        }
    }
    Ok((list, rest))
}

/// `as` and a name.
fn prefix(tokens: &[Token]) -> Option<(Token, Token, &[Token])>
    ensures { Finds (λ x. ((x.0, x.1), x.2.now)) result ((take_token (is Kind.As) ▸ take_token is_name) tokens.now) }
{
    let (word, rest) = token(tokens, Kind::As)?;
    let (found, rest) = name(rest)?;
    Some((word, found, rest))
}

/// `as` and a name, if they come next.
fn some_prefix(tokens: &[Token]) -> (Option<(Token, Token)>, &[Token])
    ensures { take_maybe (take_token (is Kind.As) ▸ take_token is_name) tokens.now ≡ Some (result.0, result.1.now) }
{
    match prefix(tokens) {
        Some((word, found, rest)) => (Some((word, found)), rest),
        None => (None, tokens),
    }
}

/// The name behind `as`, if there is one.
fn listed_prefix(found: Option<(Token, Token)>) -> Option<ListedName>
    ensures { result ≡ option_map listed (behind_token found) }
{
    found.map(|(_, word)| listed_name(word))
}

/// `import`.
#[tactic(auto, unfolding(grammar::specs::DeclarationDescents::take_import))]
fn import<'k, B: Below<'k>>(
    below: &B,
    alloc: Global,
    tokens: &'k [Token],
) -> Result<(Item, &'k [Token]), Miss>
    requires limit { B.room below.now ≤ 200 }
    requires sound { B.sound below.now }
    ensures { Gives (λ x. (x.0, x.1.now)) result (take_import (lower (B.room below.now)) tokens.now) }
{
    let (_, rest) = token(tokens, Kind::Import).ok_or(Miss::NoReading)?;
    let (uri, _, rest) = string(below, alloc, rest)?;
    let (found, rest) = some_prefix(rest);
    let (combinators, rest) = combinators(alloc, rest)?;
    let (_, rest) = token(rest, Kind::Semicolon).ok_or(Miss::NoReading)?;
    let node = ItemNode::Read(Box::new(
        alloc,
        ReadItem::Import {
            at: place_over(tokens, rest),
            uri,
            prefix: listed_prefix(found),
            combinators,
        },
    )?);
    Ok((Item { node }, rest))
}

/// `export`.
#[tactic(auto, unfolding(grammar::specs::DeclarationDescents::take_export))]
fn export<'k, B: Below<'k>>(
    below: &B,
    alloc: Global,
    tokens: &'k [Token],
) -> Result<(Item, &'k [Token]), Miss>
    requires limit { B.room below.now ≤ 200 }
    requires sound { B.sound below.now }
    ensures { Gives (λ x. (x.0, x.1.now)) result (take_export (lower (B.room below.now)) tokens.now) }
{
    let (_, rest) = token(tokens, Kind::Export).ok_or(Miss::NoReading)?;
    let (uri, _, rest) = string(below, alloc, rest)?;
    let (combinators, rest) = combinators(alloc, rest)?;
    let (_, rest) = token(rest, Kind::Semicolon).ok_or(Miss::NoReading)?;
    let node = ItemNode::Read(Box::new(
        alloc,
        ReadItem::Export {
            at: place_over(tokens, rest),
            uri,
            combinators,
        },
    )?);
    Ok((Item { node }, rest))
}

/// A string and a `;`.
fn ended_uri<'k, B: Below<'k>>(
    below: &B,
    alloc: Global,
    tokens: &'k [Token],
) -> Result<(StringLiteral, Token, &'k [Token]), Miss>
    requires limit { B.room below.now ≤ 200 }
    requires sound { B.sound below.now }
    ensures { Gives (λ x. ((x.0, x.1), x.2.now)) result ((take_string (lower (B.room below.now)) ▸ take_token (is Kind.Semicolon)) tokens.now) }
{
    let (uri, _, rest) = string(below, alloc, tokens)?;
    let (semicolon, rest) = token(rest, Kind::Semicolon).ok_or(Miss::NoReading)?;
    Ok((uri, semicolon, rest))
}

/// `part`.
#[tactic(auto, unfolding(grammar::specs::DeclarationDescents::take_part))]
fn part<'k, B: Below<'k>>(
    below: &B,
    alloc: Global,
    tokens: &'k [Token],
) -> Result<(Item, &'k [Token]), Miss>
    requires limit { B.room below.now ≤ 200 }
    requires sound { B.sound below.now }
    ensures { Gives (λ x. (x.0, x.1.now)) result (take_part (lower (B.room below.now)) tokens.now) }
{
    let (_, rest) = token(tokens, Kind::Part).ok_or(Miss::NoReading)?;
    let (uri, _, rest) = ended_uri(below, alloc, rest)?;
    let at = place_over(tokens, rest);
    let node = ItemNode::Read(Box::new(alloc, ReadItem::Part { at, uri })?);
    Ok((Item { node }, rest))
}

/// `part of` and a URI.
fn part_of_uri<'k, B: Below<'k>>(
    below: &B,
    alloc: Global,
    tokens: &'k [Token],
) -> Result<(Item, &'k [Token]), Miss>
    requires limit { B.room below.now ≤ 200 }
    requires sound { B.sound below.now }
    ensures { Gives (λ x. (x.0, x.1.now)) result
        (take_make part_of_uri_of (take_token (is Kind.Part) ▸ take_token (is Kind.Of) ▸ take_string (lower (B.room below.now)) ▸ take_token (is Kind.Semicolon)) tokens.now) }
{
    let (_, rest) = token(tokens, Kind::Part).ok_or(Miss::NoReading)?;
    let (_, rest) = token(rest, Kind::Of).ok_or(Miss::NoReading)?;
    let (uri, _, rest) = ended_uri(below, alloc, rest)?;
    let at = place_over(tokens, rest);
    let node = ItemNode::Read(Box::new(alloc, ReadItem::PartOf { at, uri })?);
    Ok((Item { node }, rest))
}

/// `part of` and the name of a library.
fn part_of_library(alloc: Global, tokens: &[Token]) -> Result<(Item, &[Token]), Miss>
    ensures { Gives (λ x. (x.0, x.1.now)) result
        (take_make part_of_library_of (take_token (is Kind.Part) ▸ take_token (is Kind.Of) ▸ take_library_names ▸ take_token (is Kind.Semicolon)) tokens.now) }
{
    let (_, rest) = token(tokens, Kind::Part).ok_or(Miss::NoReading)?;
    let (_, rest) = token(rest, Kind::Of).ok_or(Miss::NoReading)?;
    let (names, rest) = library_names(alloc, rest)?;
    let (_, rest) = token(rest, Kind::Semicolon).ok_or(Miss::NoReading)?;
    let at = place_over(tokens, rest);
    let node = ItemNode::Read(Box::new(alloc, ReadItem::PartOfLibrary { at, names })?);
    Ok((Item { node }, rest))
}

/// `part of`.
#[tactic(auto, unfolding(grammar::specs::DeclarationDescents::take_part_of))]
fn part_of<'k, B: Below<'k>>(
    below: &B,
    alloc: Global,
    tokens: &'k [Token],
) -> Result<(Item, &'k [Token]), Miss>
    requires limit { B.room below.now ≤ 200 }
    requires sound { B.sound below.now }
    ensures { Gives (λ x. (x.0, x.1.now)) result (take_part_of (lower (B.room below.now)) tokens.now) }
{
    match part_of_uri(below, alloc, tokens) {
        Ok((found, rest)) => Ok((found, rest)),
        Err(Miss::NoReading) => part_of_library(alloc, tokens),
        Err(Miss::Memory) => Err(Miss::Memory),
    }
}

/// `part`, or else `part of`.
fn some_part<'k, B: Below<'k>>(
    below: &B,
    alloc: Global,
    tokens: &'k [Token],
) -> Result<(Item, &'k [Token]), Miss>
    requires limit { B.room below.now ≤ 200 }
    requires sound { B.sound below.now }
    ensures { Gives (λ x. (x.0, x.1.now)) result ((take_part (lower (B.room below.now)) ⊘ take_part_of (lower (B.room below.now))) tokens.now) }
{
    match part(below, alloc, tokens) {
        Ok((found, rest)) => Ok((found, rest)),
        Err(Miss::NoReading) => part_of(below, alloc, tokens),
        Err(Miss::Memory) => Err(Miss::Memory),
    }
}

/// A directive.
#[tactic(auto, unfolding(grammar::specs::DeclarationDescents::take_directive))]
pub fn directive<'k, B: Below<'k>>(
    below: &B,
    alloc: Global,
    tokens: &'k [Token],
) -> Result<(Item, &'k [Token]), Miss>
    requires limit { B.room below.now ≤ 200 }
    requires sound { B.sound below.now }
    ensures { Gives (λ x. (x.0, x.1.now)) result (take_directive (lower (B.room below.now)) tokens.now) }
{
    if heads(tokens, Kind::Library) {
        library(alloc, tokens)
    } else if heads(tokens, Kind::Import) {
        import(below, alloc, tokens)
    } else if heads(tokens, Kind::Export) {
        export(below, alloc, tokens)
    } else {
        some_part(below, alloc, tokens)
    }
}
