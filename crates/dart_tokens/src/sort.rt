//! What a token is for the grammar, whatever its lexeme.

ghost use Rattle.std.specs.Prelude.{◌≡◌, is_some};
ghost use Rattle.dart_tokens.specs.Kinds.{closes, is_identifier, is_reserved_word, may_name_a_type, names_no_type, opens};

use crate::bracket::{closes, opens};
use crate::token::Kind;

impl Kind {
    /// Whether it is an identifier, one that the grammar names or none.
    pub fn is_identifier(self) -> bool
        ensures { result ≡ is_identifier self }
    {
        self.may_name_a_type() || self.names_no_type()
    }

    /// Whether it is an identifier that may name a type.
    pub fn may_name_a_type(self) -> bool
        ensures { result ≡ may_name_a_type self }
    {
        match self {
            Kind::Identifier
            | Kind::Dynamic
            | Kind::Function
            | Kind::Hide
            | Kind::Native
            | Kind::Of
            | Kind::On
            | Kind::Show => true,
            _ => false,
        }
    }

    /// Whether it is an identifier that may not name a type: a built-in one other than `dynamic` and
    /// `Function`, or one of `async`, `await`, `sync` and `yield`.
    pub fn names_no_type(self) -> bool
        ensures { result ≡ names_no_type self }
    {
        match self {
            Kind::Abstract
            | Kind::As
            | Kind::Covariant
            | Kind::Deferred
            | Kind::Export
            | Kind::Extension
            | Kind::External
            | Kind::Factory
            | Kind::Get
            | Kind::Implements
            | Kind::Import
            | Kind::Interface
            | Kind::Late
            | Kind::Library
            | Kind::Mixin
            | Kind::Operator
            | Kind::Part
            | Kind::Required
            | Kind::Set
            | Kind::Static
            | Kind::Typedef
            | Kind::Async
            | Kind::Await
            | Kind::Sync
            | Kind::Yield => true,
            _ => false,
        }
    }

    /// Whether it is a reserved word.
    pub fn is_reserved_word(self) -> bool
        ensures { result ≡ is_reserved_word self }
    {
        match self {
            Kind::Assert => true,
            Kind::Break => true,
            Kind::Case => true,
            Kind::Catch => true,
            Kind::Class => true,
            Kind::Const => true,
            Kind::Continue => true,
            Kind::Default => true,
            Kind::Do => true,
            Kind::Else => true,
            Kind::Enum => true,
            Kind::Extends => true,
            Kind::False => true,
            Kind::Final => true,
            Kind::Finally => true,
            Kind::For => true,
            Kind::If => true,
            Kind::In => true,
            Kind::Is => true,
            Kind::New => true,
            Kind::Null => true,
            Kind::Rethrow => true,
            Kind::Return => true,
            Kind::Super => true,
            Kind::Switch => true,
            Kind::This => true,
            Kind::Throw => true,
            Kind::True => true,
            Kind::Try => true,
            Kind::Var => true,
            Kind::Void => true,
            Kind::While => true,
            Kind::With => true,
            _ => false,
        }
    }

    /// Whether it is a bracket that opens a group.
    pub fn is_opening_bracket(self) -> bool
        ensures { result ≡ is_some (opens self) }
    {
        opens(self).is_some()
    }

    /// Whether it is a bracket that closes a group.
    pub fn is_closing_bracket(self) -> bool
        ensures { result ≡ is_some (closes self) }
    {
        closes(self).is_some()
    }
}
