//! The table of what marks a construct that the language leaves out.

ghost use Rattle.std.specs.Prelude.{◌≡◌, ◌≤◌, ℕ, true, List, None, drop, length};
ghost use Rattle.dart_tokens.specs.declared.grouped_token.GroupedToken.{GroupedToken as Token};
ghost use Rattle.readings.specs.Readings.{either};
ghost use Rattle.grammar.specs.Tokens.{first_then, heads, is, is_either, is_name};
ghost use Rattle.segment_faults.specs.Table.{asynchronous, behind, continue_case, fault_at, forms, lexemes, mixin_application, one_right_behind, parameters_equals, redirecting_factory, row_at, triple_shift, two_right_behind, words};

use crate::fault::SegmentFault;
use dart_tokens::Kind;
use grammar::Token;
use parse_leaves::{heads, heads_either, heads_name, tokens_behind};

/// What is wrong by a word that comes next.
fn word_at(ahead: &[Token]) -> Option<SegmentFault>
    ensures { result ≡ row_at words ahead.now 0 0 }
{
    if heads(ahead, Kind::Late) {
        return Some(SegmentFault::Late);
    }
    if heads(ahead, Kind::External) {
        return Some(SegmentFault::External);
    }
    if heads(ahead, Kind::Covariant) {
        return Some(SegmentFault::Covariant);
    }
    if heads(ahead, Kind::Const) {
        return Some(SegmentFault::Const);
    }
    if heads(ahead, Kind::Enum) {
        return Some(SegmentFault::Enum);
    }
    if heads(ahead, Kind::Extension) {
        return Some(SegmentFault::Extension);
    }
    if heads(ahead, Kind::Assert) {
        return Some(SegmentFault::Assert);
    }
    if heads(ahead, Kind::Deferred) {
        return Some(SegmentFault::Deferred);
    }
    None
}

/// What is wrong by a word of asynchronous code that comes next.
fn asynchronous_at(ahead: &[Token]) -> Option<SegmentFault>
    ensures { result ≡ row_at asynchronous ahead.now 0 0 }
{
    if heads(ahead, Kind::Async) {
        return Some(SegmentFault::Async);
    }
    if heads(ahead, Kind::Await) {
        return Some(SegmentFault::Async);
    }
    if heads(ahead, Kind::Sync) {
        return Some(SegmentFault::Async);
    }
    if heads(ahead, Kind::Yield) {
        return Some(SegmentFault::Async);
    }
    None
}

/// An opening bracket of a list or a comma stands before the place.
fn is_behind_separator(tokens: &[Token], place: usize) -> bool
    requires { place ≤ length tokens.now }
    ensures { result ≡ behind (is_either Kind.OpenBracket Kind.Comma) tokens.now 0 place }
{
    if place == 0 {
        return false;
    }
    heads_either(&tokens[place - 1..], Kind::OpenBracket, Kind::Comma)
}

/// What is wrong by another lexeme at the place.
fn lexeme_at(tokens: &[Token], place: usize) -> Option<SegmentFault>
    requires { place ≤ length tokens.now }
    ensures { result ≡ row_at lexemes tokens.now 0 place }
{
    let ahead = &tokens[place..];
    if heads(ahead, Kind::Double) {
        return Some(SegmentFault::Double);
    }
    if heads(ahead, Kind::PeriodPeriodPeriod) {
        return Some(SegmentFault::CollectionElement);
    }
    if heads_either(ahead, Kind::If, Kind::For) && is_behind_separator(tokens, place) {
        return Some(SegmentFault::CollectionElement);
    }
    if heads(ahead, Kind::Hash) {
        return Some(SegmentFault::Symbol);
    }
    if heads(ahead, Kind::At) {
        return Some(SegmentFault::Annotation);
    }
    None
}

/// `>` comes next, right behind a token.
fn heads_one_right_behind(token: Token, ahead: &[Token]) -> bool
    ensures { result ≡ one_right_behind token ahead.now }
{
    match ahead.split_first() {
        Some((first, _)) => token.end == first.start && first.kind == Kind::Greater,
        None => false,
    }
}

/// Two `>` come next, right behind a token and one another.
fn heads_two_right_behind(token: Token, ahead: &[Token]) -> bool
    ensures { result ≡ two_right_behind token ahead.now }
{
    match ahead.split_first() {
        Some((first, rest)) => {
            token.end == first.start
                && first.kind == Kind::Greater
                && heads_one_right_behind(*first, rest)
        }
        None => false,
    }
}

/// Three `>` come next, right behind one another.
fn heads_triple_shift(ahead: &[Token]) -> bool
    ensures { result ≡ triple_shift ahead.now }
{
    match ahead.split_first() {
        Some((first, rest)) => {
            first.kind == Kind::Greater && heads_two_right_behind(*first, rest)
        }
        None => false,
    }
}

/// An identifier comes next, and `=` behind it.
fn heads_name_equals(ahead: &[Token]) -> bool
    ensures { result ≡ first_then is_name (heads Kind.Equals) ahead.now }
{
    match ahead.split_first() {
        Some((first, rest)) => first.kind.is_identifier() && heads(rest, Kind::Equals),
        None => false,
    }
}

/// A class comes next that is made by `=`.
fn heads_mixin_application(ahead: &[Token]) -> bool
    ensures { result ≡ mixin_application ahead.now }
{
    match ahead.split_first() {
        Some((first, rest)) => first.kind == Kind::Class && heads_name_equals(rest),
        None => false,
    }
}

/// Parameters come next, and `=` behind them.
fn heads_parameters_equals(ahead: &[Token]) -> bool
    ensures { result ≡ parameters_equals ahead.now }
{
    match ahead.split_first() {
        Some((first, rest)) => {
            first.kind == Kind::OpenParenthesis
                && heads(tokens_behind(rest, first.past()), Kind::Equals)
        }
        None => false,
    }
}

/// An identifier comes next, and parameters and `=` behind it.
fn heads_named_parameters_equals(ahead: &[Token]) -> bool
    ensures { result ≡ first_then is_name parameters_equals ahead.now }
{
    match ahead.split_first() {
        Some((first, rest)) => first.kind.is_identifier() && heads_parameters_equals(rest),
        None => false,
    }
}

/// The second name of a constructor comes next, and parameters and `=` behind it.
fn heads_second_name(ahead: &[Token]) -> bool
    ensures { result ≡ first_then (is Kind.Period) (first_then is_name parameters_equals) ahead.now }
{
    match ahead.split_first() {
        Some((first, rest)) => first.kind == Kind::Period && heads_named_parameters_equals(rest),
        None => false,
    }
}

/// What may stand behind `factory` comes next, and `=` behind it.
fn heads_constructor_equals(ahead: &[Token]) -> bool
    ensures { result ≡ first_then is_name (either parameters_equals (first_then (is Kind.Period) (first_then is_name parameters_equals))) ahead.now }
{
    match ahead.split_first() {
        Some((first, rest)) => {
            first.kind.is_identifier() && (heads_parameters_equals(rest) || heads_second_name(rest))
        }
        None => false,
    }
}

/// A factory comes next with `=` behind its parameters.
fn heads_redirecting_factory(ahead: &[Token]) -> bool
    ensures { result ≡ redirecting_factory ahead.now }
{
    match ahead.split_first() {
        Some((first, rest)) => first.kind == Kind::Factory && heads_constructor_equals(rest),
        None => false,
    }
}

/// `:` comes next, and `case` behind it.
fn heads_colon_case(ahead: &[Token]) -> bool
    ensures { result ≡ first_then (is Kind.Colon) (heads Kind.Case) ahead.now }
{
    match ahead.split_first() {
        Some((first, rest)) => first.kind == Kind::Colon && heads(rest, Kind::Case),
        None => false,
    }
}

/// A label comes next, and `case` behind it.
fn heads_continue_case(ahead: &[Token]) -> bool
    ensures { result ≡ continue_case ahead.now }
{
    match ahead.split_first() {
        Some((first, rest)) => first.kind.is_identifier() && heads_colon_case(rest),
        None => false,
    }
}

/// What is wrong by a form of several lexemes at the place, or by `typedef`.
fn form_at(tokens: &[Token], first: usize, place: usize) -> Option<SegmentFault>
    requires segment { first ≤ length tokens.now }
    requires place { place ≤ length tokens.now }
    ensures { result ≡ row_at forms tokens.now first place }
{
    let ahead = &tokens[place..];
    if heads_triple_shift(ahead) {
        return Some(SegmentFault::TripleShift);
    }
    if heads(ahead, Kind::If) && heads_either(&tokens[first..], Kind::Import, Kind::Export) {
        return Some(SegmentFault::ConditionalUri);
    }
    if heads_mixin_application(ahead) {
        return Some(SegmentFault::MixinApplication);
    }
    if heads_redirecting_factory(ahead) {
        return Some(SegmentFault::RedirectingFactory);
    }
    if heads_continue_case(ahead) {
        return Some(SegmentFault::ContinueCase);
    }
    if heads(ahead, Kind::Typedef) {
        return Some(SegmentFault::Typedef);
    }
    None
}

/// No row of the table fits where such a token comes next: a bracket or a separator, or an identifier
/// that is no word of the language, where no label can be.
fn heads_no_row(ahead: &[Token]) -> bool
    ensures { result ≡ true → (text : List Token) (first place : ℕ) → ahead.now ≡ drop place text → fault_at text first place ≡ None }
{
    let Some((token, rest)) = ahead.split_first() else {
        return false;
    };
    match token.kind {
        Kind::Identifier => !heads(rest, Kind::Colon),
        Kind::OpenParenthesis => true,
        Kind::CloseParenthesis => true,
        Kind::OpenBrace => true,
        Kind::CloseBrace => true,
        Kind::Semicolon => true,
        Kind::Comma => true,
        _ => false,
    }
}

/// What is wrong by the table at a place of a text, in a segment that begins at the first place.
pub fn fault_at(tokens: &[Token], first: usize, place: usize) -> Option<SegmentFault>
    requires segment { first ≤ length tokens.now }
    requires place { place ≤ length tokens.now }
    ensures { result ≡ fault_at tokens.now first place }
{
    let ahead = tokens_behind(tokens, place);
    if heads_no_row(ahead) {
        return None;
    }
    if let Some(fault) = word_at(ahead) {
        return Some(fault);
    }
    if let Some(fault) = asynchronous_at(ahead) {
        return Some(fault);
    }
    if let Some(fault) = lexeme_at(tokens, place) {
        return Some(fault);
    }
    form_at(tokens, first, place)
}
