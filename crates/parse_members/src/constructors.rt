//! Constructors and factories.

ghost use Rattle.std.specs.Prelude.{◌≡◌, ◌≤◌, option_map};
ghost use Rattle.readings.specs.Descent.{take_token, take_maybe, take_make, take_turn, take_where, ◌▸◌, ◌⊘◌};
ghost use Rattle.grammar.specs.Tokens.{is, is_name, heads, identifier_at};
ghost use Rattle.grammar.specs.Operators.{table};
ghost use Rattle.grammar.specs.Types.{behind_token, listed_or_none};
ghost use Rattle.grammar.specs.Declarations.{is_class, empty_of, field_initializer_of, super_of, redirection_of};
ghost use Rattle.grammar.specs.Descents.{lower, take_separated};
ghost use Rattle.grammar.specs.DeclarationDescents.{take_constructor_name, take_constructed, take_initializer, take_constructor, take_factory};
ghost use Rattle.parse_leaves.specs.Answers.{Finds, Gives};
ghost use Rattle.parse_members.specs.Parts.{member_form_of};

use crate::functions::{body, semicolon_body};
use crate::leaves::heads_constructor;
use crate::parts::{Bodies, MemberForm};
use dart_tokens::Kind;
use dart_tree::{ArgumentList, Body, ConstructorName, Identifier, Initializer, InitializerNode};
use grammar::{Setting, Token};
use parse_leaves::{Below, Miss, block_body, heads, identifier_at, name, place_over, token};
use parse_operands::{argument_list, some_dotted_name};
use parse_operators::TABLE;
use parse_types::parameter_list;
use std::alloc::Global;

/// The token is the name of the class.
fn is_class(class: Option<u32>, token: Token) -> bool
    ensures { result ≡ is_class class token }
{
    match class {
        Some(word) => token.kind.is_identifier() && token.word == word,
        None => false,
    }
}

/// The name of the class.
fn class_name(class: Option<u32>, tokens: &[Token]) -> Option<(Token, &[Token])>
    ensures { Finds (λ x. (x.0, x.1.now)) result (take_token (is_class class) tokens.now) }
{
    match tokens.split_first() {
        Some((first, rest)) if is_class(class, *first) => Some((*first, rest)),
        _ => None,
    }
}

/// The name of a constructor of the class.
#[tactic(auto, unfolding(grammar::specs::DeclarationDescents::take_constructor_name))]
fn constructor_name(class: Option<u32>, tokens: &[Token]) -> Option<(ConstructorName, &[Token])>
    ensures { Finds (λ x. (x.0, x.1.now)) result (take_constructor_name class tokens.now) }
{
    let (first, rest) = class_name(class, tokens)?;
    let (found, rest) = some_dotted_name(rest);
    let name = ConstructorName {
        at: place_over(tokens, rest),
        class: first.word,
        name: found.map(|(_, word)| identifier_at(word)),
    };
    Some((name, rest))
}

/// `this` and a `.`.
fn this_period(tokens: &[Token]) -> Option<(Token, Token, &[Token])>
    ensures { Finds (λ x. ((x.0, x.1), x.2.now)) result ((take_token (is Kind.This) ▸ take_token (is Kind.Period)) tokens.now) }
{
    let (this, rest) = token(tokens, Kind::This)?;
    let (period, rest) = token(rest, Kind::Period)?;
    Some((this, period, rest))
}

/// `this` and a `.`, if they come next.
fn some_this_period(tokens: &[Token]) -> (Option<(Token, Token)>, &[Token])
    ensures { take_maybe (take_token (is Kind.This) ▸ take_token (is Kind.Period)) tokens.now ≡ Some (result.0, result.1.now) }
{
    match this_period(tokens) {
        Some((this, period, rest)) => (Some((this, period)), rest),
        None => (None, tokens),
    }
}

/// A field and its value.
#[tactic(auto, using(parse_leaves::specs::LastLevels::last_all))]
fn field_initializer<'k, B: Below<'k>>(
    below: &B,
    alloc: Global,
    tokens: &'k [Token],
) -> Result<(Initializer, &'k [Token]), Miss>
    requires limit { B.room below.now ≤ 200 }
    requires sound { B.sound below.now }
    ensures { Gives (λ x. (x.0, x.1.now)) result
        (take_make field_initializer_of (take_maybe (take_token (is Kind.This) ▸ take_token (is Kind.Period)) ▸ take_token is_name
        ▸ take_token (is Kind.Equals) ▸ (lower (B.room below.now)).operand Setting.Initializer table) tokens.now) }
{
    let (_, rest) = some_this_period(tokens);
    let (word, rest) = name(rest).ok_or(Miss::NoReading)?;
    let (_, rest) = token(rest, Kind::Equals).ok_or(Miss::NoReading)?;
    let (value, _, rest) = below.operand(alloc, Setting::Initializer, &TABLE, rest)?;
    let node = InitializerNode::Field {
        at: place_over(tokens, rest),
        name: identifier_at(word),
        value,
    };
    Ok((Initializer { node }, rest))
}

/// A name behind a `.`, if there is one, and arguments, of a constructor of this class or the one
/// above.
fn constructed<'k, B: Below<'k>>(
    below: &B,
    alloc: Global,
    tokens: &'k [Token],
) -> Result<(Option<(Token, Token)>, ArgumentList, &'k [Token]), Miss>
    requires limit { B.room below.now ≤ 200 }
    requires sound { B.sound below.now }
    ensures { Gives (λ x. ((x.0, x.1), x.2.now)) result (take_constructed (lower (B.room below.now)) tokens.now) }
{
    let (found, rest) = some_dotted_name(tokens);
    let (arguments, _, rest) = argument_list(below, alloc, rest)?;
    Ok((found, arguments, rest))
}

/// The name behind a `.`, if there is one.
fn behind_period(found: Option<(Token, Token)>) -> Option<Identifier>
    ensures { result ≡ option_map identifier_at (behind_token found) }
{
    found.map(|(_, word)| identifier_at(word))
}

/// A constructor of the class above.
fn super_initializer<'k, B: Below<'k>>(
    below: &B,
    alloc: Global,
    tokens: &'k [Token],
) -> Result<(Initializer, &'k [Token]), Miss>
    requires limit { B.room below.now ≤ 200 }
    requires sound { B.sound below.now }
    ensures { Gives (λ x. (x.0, x.1.now)) result (take_make super_of (take_token (is Kind.Super) ▸ take_constructed (lower (B.room below.now))) tokens.now) }
{
    let (_, rest) = token(tokens, Kind::Super).ok_or(Miss::NoReading)?;
    let (found, arguments, rest) = constructed(below, alloc, rest)?;
    let node = InitializerNode::Super {
        at: place_over(tokens, rest),
        name: behind_period(found),
        arguments,
    };
    Ok((Initializer { node }, rest))
}

/// Another constructor of the class.
fn redirection<'k, B: Below<'k>>(
    below: &B,
    alloc: Global,
    tokens: &'k [Token],
) -> Result<(Initializer, &'k [Token]), Miss>
    requires limit { B.room below.now ≤ 200 }
    requires sound { B.sound below.now }
    ensures { Gives (λ x. (x.0, x.1.now)) result (take_make redirection_of (take_token (is Kind.This) ▸ take_constructed (lower (B.room below.now))) tokens.now) }
{
    let (_, rest) = token(tokens, Kind::This).ok_or(Miss::NoReading)?;
    let (found, arguments, rest) = constructed(below, alloc, rest)?;
    let node = InitializerNode::Redirection {
        at: place_over(tokens, rest),
        name: behind_period(found),
        arguments,
    };
    Ok((Initializer { node }, rest))
}

/// An entry of an initializer list.
#[tactic(auto, unfolding(grammar::specs::DeclarationDescents::take_initializer))]
fn initializer<'k, B: Below<'k>>(
    below: &B,
    alloc: Global,
    tokens: &'k [Token],
) -> Result<(Initializer, &'k [Token]), Miss>
    requires limit { B.room below.now ≤ 200 }
    requires sound { B.sound below.now }
    ensures { Gives (λ x. (x.0, x.1.now)) result (take_initializer (lower (B.room below.now)) tokens.now) }
{
    match field_initializer(below, alloc, tokens) {
        Ok((found, rest)) => Ok((found, rest)),
        Err(Miss::NoReading) => {
            if heads(tokens, Kind::Super) {
                super_initializer(below, alloc, tokens)
            } else {
                redirection(below, alloc, tokens)
            }
        }
        Err(Miss::Memory) => Err(Miss::Memory),
    }
}

/// Entries of an initializer list with commas between them.
#[tactic(auto, using(parse_leaves::specs::Loops::list_out, parse_leaves::specs::Loops::list_stop, parse_leaves::specs::Commas::comma_goes, parse_leaves::specs::Commas::comma_stop, parse_leaves::specs::Loops::continued_first))]
fn initializers<'k, B: Below<'k>>(
    below: &B,
    alloc: Global,
    tokens: &'k [Token],
) -> Result<(Vec<Initializer>, &'k [Token]), Miss>
    requires limit { B.room below.now ≤ 200 }
    requires sound { B.sound below.now }
    ensures { Gives (λ x. (x.0.items, x.1.now)) result (take_separated (take_initializer (lower (B.room below.now))) tokens.now) }
{
    let (first, mut rest) = initializer(below, alloc, tokens)?;
    let mut list = Vec::new(alloc);
    list.push(first)?;
    let mut more = rest.len();
    while more > 0 {
        let Some((_, behind)) = token(rest, Kind::Comma) else {
            return Ok((list, rest));
        };
        match initializer(below, alloc, behind) {
            Ok((next, after)) => {
                list.push(next)?;
                rest = after;
                more -= 1;
            }
            Err(Miss::NoReading) => return Ok((list, rest)),
            Err(Miss::Memory) => return Err(Miss::Memory),
        }
    }
    Ok((list, rest))
}

/// A `:` and an initializer list.
fn initializer_list<'k, B: Below<'k>>(
    below: &B,
    alloc: Global,
    tokens: &'k [Token],
) -> Result<(Token, Vec<Initializer>, &'k [Token]), Miss>
    requires limit { B.room below.now ≤ 200 }
    requires sound { B.sound below.now }
    ensures { Gives (λ x. ((x.0, x.1.items), x.2.now)) result ((take_token (is Kind.Colon) ▸ take_separated (take_initializer (lower (B.room below.now)))) tokens.now) }
{
    let (colon, rest) = token(tokens, Kind::Colon).ok_or(Miss::NoReading)?;
    let (list, rest) = initializers(below, alloc, rest)?;
    Ok((colon, list, rest))
}

/// An initializer list, if there is one.
fn some_initializer_list<'k, B: Below<'k>>(
    below: &B,
    alloc: Global,
    tokens: &'k [Token],
) -> Result<(Option<(Token, Vec<Initializer>)>, &'k [Token]), Miss>
    requires limit { B.room below.now ≤ 200 }
    requires sound { B.sound below.now }
    ensures { Gives (λ x. (option_map (λ y. (y.0, y.1.items)) x.0, x.1.now)) result
        (take_maybe (take_token (is Kind.Colon) ▸ take_separated (take_initializer (lower (B.room below.now)))) tokens.now) }
{
    match initializer_list(below, alloc, tokens) {
        Ok((colon, list, rest)) => Ok((Some((colon, list)), rest)),
        Err(Miss::NoReading) => Ok((None, tokens)),
        Err(Miss::Memory) => Err(Miss::Memory),
    }
}

/// The initializer list that was found, or an empty one.
fn listed_initializers(alloc: Global, found: Option<(Token, Vec<Initializer>)>) -> Vec<Initializer>
    ensures { result.items ≡ listed_or_none (behind_token (option_map (λ y. (y.0, y.1.items)) found)) }
{
    match found {
        Some((_, list)) => list,
        None => Vec::new(alloc),
    }
}

/// The body of a constructor: a block, or `;`.
fn constructor_body<'k, B: Below<'k>>(
    below: &B,
    alloc: Global,
    tokens: &'k [Token],
) -> Result<(Body, &'k [Token]), Miss>
    requires limit { B.room below.now ≤ 200 }
    requires sound { B.sound below.now }
    ensures { Gives (λ x. (x.0, x.1.now)) result (take_where (heads Kind.OpenBrace) (lower (B.room below.now)).block (take_turn empty_of (take_token (is Kind.Semicolon))) tokens.now) }
{
    if heads(tokens, Kind::OpenBrace) {
        let (found, _, rest) = block_body(below, alloc, tokens)?;
        Ok((found, rest))
    } else {
        semicolon_body(tokens)
    }
}

/// A constructor of the class.
#[tactic(auto, unfolding(grammar::specs::DeclarationDescents::take_constructor))]
pub fn constructor<'k, B: Below<'k>>(
    below: &B,
    alloc: Global,
    class: Option<u32>,
    tokens: &'k [Token],
) -> Result<(MemberForm, &'k [Token]), Miss>
    requires limit { B.room below.now ≤ 200 }
    requires sound { B.sound below.now }
    ensures { Gives (λ x. (member_form_of x.0, x.1.now)) result (take_constructor class (lower (B.room below.now)) tokens.now) }
{
    let (name, rest) = constructor_name(class, tokens).ok_or(Miss::NoReading)?;
    if !heads_constructor(rest) {
        return Err(Miss::NoReading);
    }
    let (parameters, _, rest) = parameter_list(below, alloc, rest)?;
    let (found, rest) = some_initializer_list(below, alloc, rest)?;
    let (body, rest) = constructor_body(below, alloc, rest)?;
    let initializers = listed_initializers(alloc, found);
    Ok((
        MemberForm::Constructor {
            name,
            parameters,
            initializers,
            body,
        },
        rest,
    ))
}

/// A factory of the class.
#[tactic(auto, unfolding(grammar::specs::DeclarationDescents::take_factory))]
pub fn factory<'k, B: Below<'k>>(
    below: &B,
    alloc: Global,
    in_core: bool,
    class: Option<u32>,
    tokens: &'k [Token],
) -> Result<(MemberForm, &'k [Token]), Miss>
    requires limit { B.room below.now ≤ 200 }
    requires sound { B.sound below.now }
    ensures { Gives (λ x. (member_form_of x.0, x.1.now)) result (take_factory in_core class (lower (B.room below.now)) tokens.now) }
{
    let (_, rest) = token(tokens, Kind::Factory).ok_or(Miss::NoReading)?;
    let (name, rest) = constructor_name(class, rest).ok_or(Miss::NoReading)?;
    let (parameters, _, rest) = parameter_list(below, alloc, rest)?;
    let bodies = Bodies {
        in_core,
        without_body: false,
    };
    let (body, rest) = body(below, alloc, bodies, rest)?;
    Ok((
        MemberForm::Factory {
            name,
            parameters,
            body,
        },
        rest,
    ))
}
