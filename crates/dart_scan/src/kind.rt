//! The kind of a lexeme.

ghost use Rattle.std.specs.Prelude.{◌≡◌};
ghost use Rattle.dart_tokens.specs.Marks.{marks};
ghost use Rattle.dart_tokens.specs.Words.{kind_beside};
ghost use Rattle.dart_tokens.specs.declared.token.Kind.TheVariants.{Identifier};
ghost use Rattle.dart_scan.specs.Scanned.{is_gap, kind_of};

use crate::piece::Class;
use dart_tokens::{Kind, kind_of_word, mark_at};

/// A piece of the class stands between lexemes.
pub fn is_gap(class: Class) -> bool
    ensures { result ≡ is_gap class }
{
    match class {
        Class::Gap | Class::UnterminatedComment | Class::IllegalCharacter | Class::BeyondAscii =>
            true,
        Class::Word
        | Class::Integer
        | Class::Double
        | Class::Mark
        | Class::StringLiteral
        | Class::StringOpening
        | Class::StringPart
        | Class::StringClosing
        | Class::UnterminatedString
        | Class::InterpolationMark
        | Class::InterpolationOpening
        | Class::InterpolationClosing => false,
    }
}

fn kind_of_mark(mark: &[u8]) -> Kind
    ensures { result ≡ kind_beside mark.now Identifier marks }
{
    let Some((kind, size)) = mark_at(mark) else {
        return Kind::Identifier;
    };
    if size == mark.len() {
        return kind;
    }
    Kind::Identifier
}

/// The kind of a lexeme of the class.
pub fn kind_of(class: Class, lexeme: &[u8]) -> Kind
    ensures { result ≡ kind_of class lexeme.now }
{
    match class {
        Class::Word => kind_of_word(lexeme),
        Class::Mark => kind_of_mark(lexeme),
        Class::Integer => Kind::Integer,
        Class::Double => Kind::Double,
        Class::StringLiteral => Kind::StringLiteral,
        Class::StringOpening => Kind::StringOpening,
        Class::StringPart => Kind::StringPart,
        Class::StringClosing => Kind::StringClosing,
        Class::UnterminatedString => Kind::UnterminatedString,
        Class::InterpolationMark => Kind::InterpolationMark,
        Class::InterpolationOpening => Kind::InterpolationOpening,
        Class::InterpolationClosing => Kind::InterpolationClosing,
        Class::Gap | Class::UnterminatedComment | Class::IllegalCharacter | Class::BeyondAscii =>
            Kind::Identifier,
    }
}
