//! The kinds of groups, and the tokens that open and close them.

ghost use Rattle.std.specs.Prelude.{◌≡◌, option_map};
ghost use Rattle.dart_tokens.specs.Kinds.{closes, opens};
ghost use Rattle.dart_tokens.specs.Stack.{bracket_of};

use crate::token::Kind;

/// A kind of groups.
#[derive(Clone, Copy, Debug, PartialEq, Eq)]
pub enum Bracket {
    /// From `(` to `)`.
    Round,
    /// From `[` or `?[` to `]`.
    Square,
    /// From `{` to `}`.
    Curly,
    /// From the `${` of an expression in a string to its `}`.
    Interpolation,
}

/// The group that a token opens.
pub fn opens(kind: Kind) -> Option<Bracket>
    ensures { option_map bracket_of result ≡ opens kind }
{
    match kind {
        Kind::OpenParenthesis => Some(Bracket::Round),
        Kind::OpenBracket => Some(Bracket::Square),
        Kind::QuestionBracket => Some(Bracket::Square),
        Kind::OpenBrace => Some(Bracket::Curly),
        Kind::InterpolationOpening => Some(Bracket::Interpolation),
        _ => None,
    }
}

/// The group that a token closes.
pub fn closes(kind: Kind) -> Option<Bracket>
    ensures { option_map bracket_of result ≡ closes kind }
{
    match kind {
        Kind::CloseParenthesis => Some(Bracket::Round),
        Kind::CloseBracket => Some(Bracket::Square),
        Kind::CloseBrace => Some(Bracket::Curly),
        Kind::InterpolationClosing => Some(Bracket::Interpolation),
        _ => None,
    }
}
