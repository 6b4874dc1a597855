//! Single tokens, and groups.

ghost use Rattle.std.specs.Prelude.{◌≡◌, take, drop, Some};
ghost use Rattle.readings.specs.Descent.{take_token, take_maybe};
ghost use Rattle.grammar.specs.Tokens.{is, is_either, is_name, is_type_name};
ghost use Rattle.parse_leaves.specs.Answers.{Finds, group};

use dart_tokens::Kind;
use grammar::Token;

/// One token of the kind.
pub fn token(tokens: &[Token], kind: Kind) -> Option<(Token, &[Token])>
    ensures { Finds (λ x. (x.0, x.1.now)) result (take_token (is kind) tokens.now) }
{
    match tokens.split_first() {
        Some((first, rest)) if first.kind == kind => Some((*first, rest)),
        _ => None,
    }
}

/// One token of one kind or another.
pub fn either_token(tokens: &[Token], one: Kind, other: Kind) -> Option<(Token, &[Token])>
    ensures { Finds (λ x. (x.0, x.1.now)) result (take_token (is_either one other) tokens.now) }
{
    match tokens.split_first() {
        Some((first, rest)) if first.kind == one || first.kind == other => Some((*first, rest)),
        _ => None,
    }
}

/// An identifier.
pub fn name(tokens: &[Token]) -> Option<(Token, &[Token])>
    ensures { Finds (λ x. (x.0, x.1.now)) result (take_token is_name tokens.now) }
{
    match tokens.split_first() {
        Some((first, rest)) if first.kind.is_identifier() => Some((*first, rest)),
        _ => None,
    }
}

/// An identifier that may name a type.
pub fn type_word(tokens: &[Token]) -> Option<(Token, &[Token])>
    ensures { Finds (λ x. (x.0, x.1.now)) result (take_token is_type_name tokens.now) }
{
    match tokens.split_first() {
        Some((first, rest)) if first.kind.may_name_a_type() => Some((*first, rest)),
        _ => None,
    }
}

/// So many of the tokens, or all where there are fewer.
#[tactic(auto, using(std::proofs::lemmas::List::take_all))]
pub fn first_tokens(tokens: &[Token], count: usize) -> &[Token]
    ensures { result.now ≡ take count tokens.now }
{
    if count < tokens.len() {
        &tokens[..count]
    } else {
        tokens
    }
}

/// What is left behind so many of the tokens.
#[tactic(auto, using(std::proofs::lemmas::List::drop_all))]
pub fn tokens_behind(tokens: &[Token], count: usize) -> &[Token]
    ensures { result.now ≡ drop count tokens.now }
{
    if count < tokens.len() {
        &tokens[count..]
    } else {
        &[]
    }
}

/// The group that comes next, if its bracket is of the kind: the bracket, what stands in the group,
/// and what comes behind it.
pub fn group(tokens: &[Token], kind: Kind) -> Option<(Token, &[Token], &[Token])>
    ensures { Finds (λ x. (x.0, (x.1.now, x.2.now))) result (group kind tokens.now) }
{
    match tokens.split_first() {
        Some((first, rest)) if first.kind == kind => {
            let inside = first_tokens(rest, first.width as usize);
            let behind = tokens_behind(rest, first.past());
            Some((*first, inside, behind))
        }
        _ => None,
    }
}

/// An identifier, if one comes next.
pub fn some_name(tokens: &[Token]) -> (Option<Token>, &[Token])
    ensures { take_maybe (take_token is_name) tokens.now ≡ Some (result.0, result.1.now) }
{
    match name(tokens) {
        Some((found, rest)) => (Some(found), rest),
        None => (None, tokens),
    }
}
