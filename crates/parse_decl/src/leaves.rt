//! What the next tokens alone tell of a class.

ghost use Rattle.std.specs.Prelude.{◌≡◌};
ghost use Rattle.grammar.specs.Tokens.{is, heads, first_then};
ghost use Rattle.grammar.specs.Declarations.{heads_class, class_word};

use dart_tokens::Kind;
use grammar::Token;
use parse_leaves::heads;

/// A token of one kind and then one of another come next.
fn heads_both(tokens: &[Token], one: Kind, other: Kind) -> bool
    ensures { result ≡ first_then (is one) (heads other) tokens.now }
{
    match tokens.split_first() {
        Some((first, rest)) => first.kind == one && heads(rest, other),
        None => false,
    }
}

/// A class comes next.
pub fn heads_class(tokens: &[Token]) -> bool
    ensures { result ≡ heads_class tokens.now }
{
    heads(tokens, Kind::Class) || heads_both(tokens, Kind::Abstract, Kind::Class)
}

/// The name of the class that comes next.
pub fn class_word(tokens: &[Token]) -> Option<u32>
    ensures { result ≡ class_word tokens.now }
{
    let place = if heads(tokens, Kind::Abstract) { 2 } else { 1 };
    tokens.get(place).map(|name| name.word)
}
