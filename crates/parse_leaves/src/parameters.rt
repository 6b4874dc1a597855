//! Where a closure begins, told by its tokens: what stands in parentheses is gone over, whatever
//! stands in the groups in them, so that nothing is read for it.

ghost use Rattle.std.specs.Prelude.{◌≡◌, ◌||◌, false, not, length, Some};
ghost use Rattle.std.specs.Option.{option_map_or};
ghost use Rattle.readings.specs.Readings.{next};
ghost use Rattle.grammar.specs.Tokens.{is, is_either, is_name, heads, first_then, group_then};
ghost use Rattle.grammar.specs.Types.{heads_required};
ghost use Rattle.grammar.specs.Outline.{◌⨾◌, either_way, perhaps, repeated, some_more, over, over_type, behind_arguments};
ghost use Rattle.grammar.specs.Parameters.{at_end, group_holds, over_piece, over_value, over_field, over_declared, over_untyped, begins_parameter, heads_name_end, heads_parameter, fills_brackets, heads_optional, fills_parentheses};
ghost use Rattle.grammar.specs.Expressions.{heads_parentheses, heads_closure};
ghost use Rattle.parse_leaves.specs.Answers.{Finds};

use crate::ahead::{heads, heads_either, heads_group_and_body, heads_required};
use crate::leaves::{first_tokens, tokens_behind};
use crate::outline::{behind_arguments, over, over_word, over_written};
use dart_tokens::Kind;
use grammar::{Setting, Token};

/// Over a token or a whole group, but over neither a `,` nor a sign of a conditional.
fn over_piece(tokens: &[Token]) -> Option<&[Token]>
    ensures { Finds (λ x. x.now) result (over_piece tokens.now) }
{
    match tokens.split_first() {
        Some((first, rest)) => {
            if first.kind == Kind::Comma
                || first.kind == Kind::Question
                || first.kind == Kind::Colon
            {
                None
            } else {
                Some(tokens_behind(rest, first.past()))
            }
        }
        None => None,
    }
}

/// Over type arguments, or else a piece.
fn over_some(tokens: &[Token]) -> Option<&[Token]>
    ensures { Finds (λ x. x.now) result (either_way behind_arguments over_piece tokens.now) }
{
    match behind_arguments(tokens) {
        Some(rest) => Some(rest),
        None => over_piece(tokens),
    }
}

/// Over a value, up to a `,` or the first sign of a conditional outside brackets.
fn over_value(tokens: &[Token]) -> &[Token]
    ensures { result.now ≡ repeated (length tokens.now) (either_way behind_arguments over_piece) tokens.now }
{
    let mut rest = tokens;
    let mut more = tokens.len();
    while more > 0 {
        let Some(next) = over_some(rest) else {
            return rest;
        };
        rest = next;
        more -= 1;
    }
    rest
}

/// Over `this` and a `.`.
fn over_this(tokens: &[Token]) -> Option<&[Token]>
    ensures { Finds (λ x. x.now) result ((over (is Kind.This) ⨾ over (is Kind.Period)) tokens.now) }
{
    let rest = over(tokens, Kind::This)?;
    over(rest, Kind::Period)
}

/// Over a name, behind `this` and a `.` or without them.
fn over_field(tokens: &[Token]) -> Option<&[Token]>
    ensures { Finds (λ x. x.now) result (over_field tokens.now) }
{
    match over_this(tokens) {
        Some(rest) => over_word(rest),
        None => over_word(tokens),
    }
}

/// Over a type and a name behind it.
fn over_typed(tokens: &[Token]) -> Option<&[Token]>
    ensures { Finds (λ x. x.now) result ((over_type 200 ⨾ over_field) tokens.now) }
{
    let rest = over_written(tokens)?;
    over_field(rest)
}

/// Over a name, behind a type or without one.
fn over_declared(tokens: &[Token]) -> Option<&[Token]>
    ensures { Finds (λ x. x.now) result (over_declared tokens.now) }
{
    match over_typed(tokens) {
        Some(rest) => Some(rest),
        None => over_field(tokens),
    }
}

/// Over `=` and a value, if they come next.
fn perhaps_over_default(tokens: &[Token]) -> &[Token]
    ensures { perhaps (over (is Kind.Equals) ⨾ over_value) tokens.now ≡ Some result.now }
{
    match over(tokens, Kind::Equals) {
        Some(rest) => over_value(rest),
        None => tokens,
    }
}

/// Over a parameter without a type, and the `,` behind it.
fn over_untyped(tokens: &[Token]) -> Option<&[Token]>
    ensures { Finds (λ x. x.now) result (over_untyped tokens.now) }
{
    let rest = over_field(tokens)?;
    let rest = perhaps_over_default(rest);
    over(rest, Kind::Comma)
}

/// Over as many parameters without a type as there are, each with a `,` behind it.
fn over_all_untyped(tokens: &[Token]) -> &[Token]
    ensures { result.now ≡ repeated (length tokens.now) over_untyped tokens.now }
{
    let mut rest = tokens;
    let mut more = tokens.len();
    while more > 0 {
        let Some(next) = over_untyped(rest) else {
            return rest;
        };
        rest = next;
        more -= 1;
    }
    rest
}

/// A parameter begins with this token, and no expression does.
fn begins_parameter(token: Token) -> bool
    ensures { result ≡ begins_parameter token }
{
    token.kind == Kind::At
        || token.kind == Kind::Final
        || token.kind == Kind::Var
        || token.kind == Kind::Void
}

/// A default value comes next, and no `:` behind it.
fn heads_default(tokens: &[Token]) -> bool
    ensures { result ≡ first_then (is Kind.Equals) (λ us. option_map_or (λ vs. not (heads Kind.Colon vs)) (over_value us) false) tokens.now }
{
    match tokens.split_first() {
        Some((first, rest)) => {
            first.kind == Kind::Equals && !heads(over_value(rest), Kind::Colon)
        }
        None => false,
    }
}

/// What may stand behind a parameter's name comes next.
fn heads_name_end(tokens: &[Token]) -> bool
    ensures { result ≡ heads_name_end tokens.now }
{
    tokens.is_empty() || heads_either(tokens, Kind::Comma, Kind::OpenBrace) || heads_default(tokens)
}

/// A token comes next with which a parameter begins and no expression does, or `required`.
fn heads_marked(tokens: &[Token]) -> bool
    ensures { result ≡ next begins_parameter tokens.now || heads_required tokens.now }
{
    let begins = match tokens.split_first() {
        Some((first, _)) => begins_parameter(*first),
        None => false,
    };
    begins || heads_required(tokens)
}

/// A parameter comes next, as one stands in brackets.
fn heads_bracketed(tokens: &[Token]) -> bool
    ensures { result ≡ heads_parameter heads_name_end tokens.now }
{
    if heads_marked(tokens) {
        return true;
    }
    match over_declared(tokens) {
        Some(rest) => heads_name_end(rest),
        None => false,
    }
}

/// Optional parameters fill brackets.
fn fills_brackets(tokens: &[Token]) -> bool
    ensures { result ≡ fills_brackets tokens.now }
{
    let rest = over_all_untyped(tokens);
    rest.is_empty() || heads_bracketed(rest)
}

/// Optional parameters come next, and nothing behind them.
fn heads_optional(tokens: &[Token]) -> bool
    ensures { result ≡ heads_optional tokens.now }
{
    match tokens.split_first() {
        Some((first, rest)) => {
            (first.kind == Kind::OpenBracket || first.kind == Kind::OpenBrace)
                && fills_brackets(first_tokens(rest, first.width as usize))
                && tokens_behind(rest, first.past()).is_empty()
        }
        None => false,
    }
}

/// A parameter comes next, as one stands in parentheses.
fn heads_parameter(tokens: &[Token]) -> bool
    ensures { result ≡ heads_parameter (λ us. heads_name_end us || heads_optional us) tokens.now }
{
    if heads_marked(tokens) {
        return true;
    }
    match over_declared(tokens) {
        Some(rest) => heads_name_end(rest) || heads_optional(rest),
        None => false,
    }
}

/// Parameters fill parentheses.
#[tactic(auto, unfolding(grammar::specs::Parameters::fills_parentheses))]
fn fills_parentheses(tokens: &[Token]) -> bool
    ensures { result ≡ fills_parentheses tokens.now }
{
    tokens.is_empty() || heads_optional(tokens) || heads_parameter(tokens)
}

/// Parentheses come next that hold parameters.
fn heads_filled(tokens: &[Token]) -> bool
    ensures { result ≡ group_holds (is Kind.OpenParenthesis) fills_parentheses tokens.now }
{
    match tokens.split_first() {
        Some((first, rest)) => {
            first.kind == Kind::OpenParenthesis
                && fills_parentheses(first_tokens(rest, first.width as usize))
        }
        None => false,
    }
}

/// Parentheses that come next may be a closure's.
fn heads_parentheses(setting: Setting, tokens: &[Token]) -> bool
    ensures { result ≡ heads_parentheses setting tokens.now }
{
    match setting {
        Setting::Plain => true,
        Setting::Listed => true,
        Setting::Initializer => true,
        Setting::Default => heads_filled(tokens),
    }
}

/// The parameters of a closure come next: parentheses, and a body behind them.
pub fn heads_closure(setting: Setting, tokens: &[Token]) -> bool
    ensures { result ≡ heads_closure setting tokens.now }
{
    heads_group_and_body(setting, tokens) && heads_parentheses(setting, tokens)
}
