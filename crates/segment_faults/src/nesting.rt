//! Segments with too many groups in one another, or with too many lexemes.

ghost use Rattle.std.specs.Prelude.{◌≡◌, ◌+◌, ◌≤◌, length, take, drop};
ghost use Rattle.segment_faults.specs.Nesting.{AreDeep, is_deep, is_long, is_nested, is_punctuation};

use dart_tokens::Kind;
use grammar::Token;

/// The token is a lexeme of punctuation.
fn is_punctuation(token: Token) -> bool
    ensures { result ≡ is_punctuation token }
{
    if token.kind.is_identifier() || token.kind.is_reserved_word() {
        return false;
    }
    match token.kind {
        Kind::Integer => false,
        Kind::Double => false,
        Kind::StringLiteral => false,
        Kind::StringOpening => false,
        Kind::StringPart => false,
        Kind::StringClosing => false,
        Kind::UnterminatedString => false,
        Kind::InterpolationMark => false,
        Kind::InterpolationOpening => false,
        _ => true,
    }
}

/// More than 100 lexemes of punctuation stand in the segment outside the groups in it.
fn is_long(segment: &[Token]) -> bool
    ensures { result ≡ is_long segment.now }
{
    let mut inside = 0;
    let mut lexemes: usize = 0;
    for token in segment {
        if inside > 0 {
            inside -= 1;
        } else {
            if is_punctuation(*token) {
                lexemes += 1;
            }
            inside = token.width;
        }
    }
    lexemes > 100
}

/// A token of the segment lies in more than 100 groups of the text.
fn is_deep(tokens: &[Token], deep: &[bool], first: usize, count: usize) -> bool
    requires deep { AreDeep tokens.now deep.now }
    requires within { first + count ≤ length tokens.now }
    ensures { result ≡ is_deep tokens.now first count }
{
    for place in first..first + count {
        if deep[place] {
            return true;
        }
    }
    false
}

/// The segment is nested too deep, or too long.
pub fn is_nested(tokens: &[Token], deep: &[bool], first: usize, count: usize) -> bool
    requires deep { AreDeep tokens.now deep.now }
    requires within { first + count ≤ length tokens.now }
    ensures { result ≡ is_nested tokens.now first count }
{
    is_deep(tokens, deep, first, count) || is_long(&tokens[first..first + count])
}
