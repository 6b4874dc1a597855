//! What the next tokens alone tell.

ghost use Rattle.std.specs.Prelude.{◌≡◌, Some};
ghost use Rattle.readings.specs.Descent.{take_token, take_maybe};
ghost use Rattle.grammar.specs.Tokens.{is};
ghost use Rattle.grammar.specs.Declarations.{heads_word};
ghost use Rattle.parse_members.specs.Next.{goes_on_variable, heads_variable, goes_on_constructor, heads_constructor};

use dart_tokens::Kind;
use grammar::Token;
use parse_leaves::{heads_name, token, tokens_behind};

/// A word and a name come next.
pub fn heads_word(tokens: &[Token], word: Kind) -> bool
    ensures { result ≡ heads_word (is word) tokens.now }
{
    match tokens.split_first() {
        Some((first, rest)) => first.kind == word && heads_name(rest),
        None => false,
    }
}

/// A token of the kind, if it comes next.
pub fn some_token(tokens: &[Token], kind: Kind) -> (Option<Token>, &[Token])
    ensures { take_maybe (take_token (is kind)) tokens.now ≡ Some (result.0, result.1.now) }
{
    match token(tokens, kind) {
        Some((found, rest)) => (Some(found), rest),
        None => (None, tokens),
    }
}

/// Behind a name: variables go on with this token, or end before it.
fn goes_on_variable(token: Token) -> bool
    ensures { result ≡ goes_on_variable token }
{
    token.kind == Kind::Equals || token.kind == Kind::Comma || token.kind == Kind::Semicolon
}

/// The name of a variable comes next, by the token behind it.
pub fn heads_variable(tokens: &[Token]) -> bool
    ensures { result ≡ heads_variable tokens.now }
{
    match tokens.split_first() {
        Some((first, rest)) => {
            first.kind.is_identifier()
                && match rest.split_first() {
                    Some((second, _)) => goes_on_variable(*second),
                    None => false,
                }
        }
        None => false,
    }
}

/// Behind its parameters a constructor goes on with this token.
fn goes_on_constructor(token: Token) -> bool
    ensures { result ≡ goes_on_constructor token }
{
    token.kind == Kind::Colon || token.kind == Kind::OpenBrace || token.kind == Kind::Semicolon
}

/// Behind its name a constructor goes on with these tokens: parameters, and behind their group what a
/// constructor goes on with.
pub fn heads_constructor(tokens: &[Token]) -> bool
    ensures { result ≡ heads_constructor tokens.now }
{
    match tokens.split_first() {
        Some((first, rest)) => {
            first.kind == Kind::OpenParenthesis
                && match tokens_behind(rest, first.past()).split_first() {
                    Some((next, _)) => goes_on_constructor(*next),
                    None => false,
                }
        }
        None => false,
    }
}
