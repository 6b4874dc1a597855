//! Tests of the tokens that come next.

ghost use Rattle.std.specs.Prelude.{◌≡◌, ◌||◌};
ghost use Rattle.readings.specs.Readings.{next};
ghost use Rattle.grammar.specs.Tokens.{is, is_name, is_type_name, is_either, heads, heads_name, first_then, group_then};
ghost use Rattle.grammar.specs.Types.{heads_qualified, heads_required, heads_field, goes_on_parameter};
ghost use Rattle.grammar.specs.Expressions.{goes_on, heads_cast, heads_rest, heads_brace, heads_body, begins_expression, heads_tail, heads_choice, heads_nullable, heads_label, heads_use, behind_call};
ghost use Rattle.grammar.specs.Descents.{begins_string, begins_prefix};
ghost use Rattle.parse_leaves.specs.Next.{goes_on_type, type_name_size, heads_untyped};

use crate::leaves::tokens_behind;
use crate::operators::sign_at;
use dart_tokens::Kind;
use grammar::{Setting, Token};

/// A token of the kind comes next.
pub fn heads(tokens: &[Token], kind: Kind) -> bool
    ensures { result ≡ heads kind tokens.now }
{
    match tokens.split_first() {
        Some((first, _)) => first.kind == kind,
        None => false,
    }
}

/// A token of one kind or another comes next.
pub fn heads_either(tokens: &[Token], one: Kind, other: Kind) -> bool
    ensures { result ≡ next (is_either one other) tokens.now }
{
    match tokens.split_first() {
        Some((first, _)) => first.kind == one || first.kind == other,
        None => false,
    }
}

/// An identifier comes next.
pub fn heads_name(tokens: &[Token]) -> bool
    ensures { result ≡ heads_name tokens.now }
{
    match tokens.split_first() {
        Some((first, _)) => first.kind.is_identifier(),
        None => false,
    }
}

/// An identifier that may name a type comes next.
fn heads_type_name(tokens: &[Token]) -> bool
    ensures { result ≡ next is_type_name tokens.now }
{
    match tokens.split_first() {
        Some((first, _)) => first.kind.may_name_a_type(),
        None => false,
    }
}

/// A `.` and an identifier that may name a type come next.
fn heads_dotted(tokens: &[Token]) -> bool
    ensures { result ≡ first_then (is Kind.Period) (next is_type_name) tokens.now }
{
    match tokens.split_first() {
        Some((first, rest)) => first.kind == Kind::Period && heads_type_name(rest),
        None => false,
    }
}

/// The name of a type behind an import prefix comes next.
pub fn heads_qualified(tokens: &[Token]) -> bool
    ensures { result ≡ heads_qualified tokens.now }
{
    match tokens.split_first() {
        Some((first, rest)) => first.kind.is_identifier() && heads_dotted(rest),
        None => false,
    }
}

/// A parameter goes on with this token behind `required`.
fn goes_on_parameter(token: Token) -> bool
    ensures { result ≡ goes_on_parameter token }
{
    token.kind.is_identifier()
        || token.kind == Kind::Final
        || token.kind == Kind::Var
        || token.kind == Kind::Void
        || token.kind == Kind::This
}

/// `required` comes next, and isn't the parameter's name.
pub fn heads_required(tokens: &[Token]) -> bool
    ensures { result ≡ heads_required tokens.now }
{
    match tokens.split_first() {
        Some((first, rest)) => {
            first.kind == Kind::Required
                && match rest.split_first() {
                    Some((second, _)) => goes_on_parameter(*second),
                    None => false,
                }
        }
        None => false,
    }
}

/// A parameter's name comes next, or `this`.
pub fn heads_field(tokens: &[Token]) -> bool
    ensures { result ≡ heads_field tokens.now }
{
    match tokens.split_first() {
        Some((first, _)) => first.kind.is_identifier() || first.kind == Kind::This,
        None => false,
    }
}

/// Behind the name of a type: the type goes on with this token, or a name or `this` stands there.
fn goes_on_type(token: Token) -> bool
    ensures { result ≡ goes_on_type token }
{
    token.kind.is_identifier()
        || token.kind == Kind::Less
        || token.kind == Kind::Question
        || token.kind == Kind::This
}

/// How many tokens the name of a type takes that would begin here.
fn type_name_size(tokens: &[Token]) -> usize
    ensures { result ≡ type_name_size tokens.now }
{
    if heads_qualified(tokens) { 3 } else { 1 }
}

/// No type in front of a name or of `this` comes next: the name of one would be the whole type, and
/// neither stands behind it.
pub fn heads_untyped(tokens: &[Token]) -> bool
    ensures { result ≡ heads_untyped tokens.now }
{
    if heads(tokens, Kind::Function) {
        return false;
    }
    match tokens_behind(tokens, type_name_size(tokens)).split_first() {
        Some((next, _)) => !goes_on_type(*next),
        None => false,
    }
}

/// An expression goes on with this token, or ends before it where it isn't the last thing.
fn goes_on(token: Token) -> bool
    ensures { result ≡ goes_on token }
{
    token.kind == Kind::Semicolon
        || token.kind == Kind::Comma
        || token.kind == Kind::OpenBrace
        || token.kind == Kind::Colon
        || token.kind == Kind::Question
        || token.kind == Kind::Period
        || token.kind == Kind::QuestionPeriod
        || token.kind == Kind::PeriodPeriod
        || token.kind == Kind::QuestionPeriodPeriod
        || token.kind == Kind::OpenBracket
        || token.kind == Kind::QuestionBracket
        || token.kind == Kind::OpenParenthesis
        || token.kind == Kind::Bang
        || token.kind == Kind::PlusPlus
        || token.kind == Kind::MinusMinus
        || token.kind == Kind::Is
}

/// An `as` comes next with what begins a type behind it.
fn heads_cast(tokens: &[Token]) -> bool
    ensures { result ≡ heads_cast tokens.now }
{
    match tokens.split_first() {
        Some((first, rest)) => {
            first.kind == Kind::As && (heads(rest, Kind::Void) || heads_name(rest))
        }
        None => false,
    }
}

/// An expression goes on with these tokens.
fn heads_rest(tokens: &[Token]) -> bool
    ensures { result ≡ heads_rest tokens.now }
{
    let goes = match tokens.split_first() {
        Some((first, _)) => goes_on(*first),
        None => false,
    };
    goes || heads_cast(tokens) || sign_at(tokens).is_some()
}

/// A `{` comes next, and what comes behind its group goes on with an expression.
fn heads_braced_rest(tokens: &[Token]) -> bool
    ensures { result ≡ group_then (is Kind.OpenBrace) heads_rest tokens.now }
{
    match tokens.split_first() {
        Some((first, rest)) => {
            first.kind == Kind::OpenBrace && heads_rest(tokens_behind(rest, first.past()))
        }
        None => false,
    }
}

/// A `{` comes next that belongs to an expression: in an initializer list it may also be the
/// constructor's body.
fn heads_brace(setting: Setting, tokens: &[Token]) -> bool
    ensures { result ≡ heads_brace setting tokens.now }
{
    match setting {
        Setting::Plain => heads(tokens, Kind::OpenBrace),
        Setting::Listed => heads(tokens, Kind::OpenBrace),
        Setting::Initializer => heads_braced_rest(tokens),
        Setting::Default => heads(tokens, Kind::OpenBrace),
    }
}

/// The body of a closure comes next.
fn heads_body(setting: Setting, tokens: &[Token]) -> bool
    ensures { result ≡ heads_body setting tokens.now }
{
    heads(tokens, Kind::Arrow) || heads_brace(setting, tokens)
}

/// Parentheses come next, and the body of a closure behind them.
pub fn heads_group_and_body(setting: Setting, tokens: &[Token]) -> bool
    ensures { result ≡ group_then (is Kind.OpenParenthesis) (heads_body setting) tokens.now }
{
    match tokens.split_first() {
        Some((first, rest)) => {
            first.kind == Kind::OpenParenthesis
                && heads_body(setting, tokens_behind(rest, first.past()))
        }
        None => false,
    }
}

/// An expression begins with this token, whatever comes behind it.
fn begins_expression(token: Token) -> bool
    ensures { result ≡ begins_expression token }
{
    token.kind.is_identifier()
        || token.kind == Kind::Integer
        || token.kind == Kind::StringLiteral
        || token.kind == Kind::StringOpening
        || token.kind == Kind::UnterminatedString
        || token.kind == Kind::True
        || token.kind == Kind::False
        || token.kind == Kind::Null
        || token.kind == Kind::This
        || token.kind == Kind::Super
        || token.kind == Kind::OpenParenthesis
        || token.kind == Kind::New
        || token.kind == Kind::Less
        || token.kind == Kind::OpenBracket
        || token.kind == Kind::OpenBrace
        || token.kind == Kind::Minus
        || token.kind == Kind::Bang
        || token.kind == Kind::Tilde
        || token.kind == Kind::PlusPlus
        || token.kind == Kind::MinusMinus
        || token.kind == Kind::Throw
}

/// The tail of a function type comes next.
fn heads_tail(tokens: &[Token]) -> bool
    ensures { result ≡ heads_tail tokens.now }
{
    match tokens.split_first() {
        Some((first, rest)) => {
            first.kind == Kind::Function && heads_either(rest, Kind::OpenParenthesis, Kind::Less)
        }
        None => false,
    }
}

/// An expression comes next, behind a `?`.
fn heads_choice(setting: Setting, tokens: &[Token]) -> bool
    ensures { result ≡ heads_choice setting tokens.now }
{
    let begins = match tokens.split_first() {
        Some((first, _)) => begins_expression(*first),
        None => false,
    };
    begins
        && !heads_tail(tokens)
        && (!heads(tokens, Kind::OpenBrace) || heads_brace(setting, tokens))
}

/// A `?` comes next that belongs to the type of a test, and not to a conditional.
pub fn heads_nullable(setting: Setting, tokens: &[Token]) -> bool
    ensures { result ≡ heads_nullable setting tokens.now }
{
    match tokens.split_first() {
        Some((first, rest)) => first.kind == Kind::Question && !heads_choice(setting, rest),
        None => false,
    }
}

/// A name and a `:` come next.
pub fn heads_label(tokens: &[Token]) -> bool
    ensures { result ≡ heads_label tokens.now }
{
    match tokens.split_first() {
        Some((first, rest)) => first.kind.is_identifier() && heads(rest, Kind::Colon),
        None => false,
    }
}

/// What a generic name is read before comes next.
pub fn heads_use(tokens: &[Token]) -> bool
    ensures { result ≡ heads_use tokens.now }
{
    heads_either(tokens, Kind::OpenParenthesis, Kind::Period)
}

/// What a call with type arguments is read before comes next.
pub fn behind_call(setting: Setting, tokens: &[Token]) -> bool
    ensures { result ≡ behind_call setting tokens.now }
{
    match setting {
        Setting::Plain => true,
        Setting::Listed => !heads_body(Setting::Plain, tokens),
        Setting::Initializer => true,
        Setting::Default => true,
    }
}

/// A string comes next.
pub fn heads_string(tokens: &[Token]) -> bool
    ensures { result ≡ next begins_string tokens.now }
{
    match tokens.split_first() {
        Some((first, _)) => {
            first.kind == Kind::StringLiteral
                || first.kind == Kind::UnterminatedString
                || first.kind == Kind::StringOpening
        }
        None => false,
    }
}

/// An operator that stands before its operand comes next.
pub fn heads_prefix(tokens: &[Token]) -> bool
    ensures { result ≡ next begins_prefix tokens.now }
{
    match tokens.split_first() {
        Some((first, _)) => {
            first.kind == Kind::Minus
                || first.kind == Kind::Bang
                || first.kind == Kind::Tilde
                || first.kind == Kind::PlusPlus
                || first.kind == Kind::MinusMinus
        }
        None => false,
    }
}
