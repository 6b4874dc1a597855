//! Strings that are open.

ghost use Rattle.std.specs.Prelude.{◌≡◌, [], ◌∷◌, true, OnOk, MatchOption};

use crate::cut::form::StringForm;
use std::alloc::{AllocError, Global};
use std::marker::Model;

/// A string that is open: its form, how many pieces stand before it, the byte at which it begins, the
/// byte up to which the text around it reaches, and how many braces are open around it in the
/// interpolation in which it stands. Bytes are counted from 0.
#[derive(Clone, Copy, Debug)]
pub struct OpenString {
    pub form: StringForm,
    pub pieces: usize,
    pub start: usize,
    pub outside: usize,
    pub braces: usize,
}

/// Strings that are open, each in an interpolation of the one before it.
#[derive(Debug, Drop)]
pub struct OpenStrings {
    strings: Vec<OpenString>,
}

impl Model for OpenStrings {
    ghost use Rattle.std.specs.Prelude.{List, reverse};
    ghost use Rattle.dart_scan.specs.declared.cut.strings.OpenString.{OpenString};

    ghost Value = { List OpenString };

    ghost view = { λ s. reverse s.strings.items };
}

impl OpenStrings {
    /// None, which takes no memory.
    pub fn new(alloc: Global) -> OpenStrings
        ensures { result ≡ [] }
    {
        OpenStrings {
            strings: Vec::new(alloc),
        }
    }

    /// A string begins inside all others.
    pub fn push(&mut self, string: OpenString) -> Result<(), AllocError>
        ensures { OnOk result (self.new ≡ string ∷ self.old) }
    {
        self.strings.push(string)?;
        Ok(())
    }

    /// The innermost string, which ends or goes on.
    pub fn pop(&mut self) -> Option<OpenString>
        ensures { MatchOption result ((self.old ≡ []) × (self.new ≡ [])) (λ string. self.old ≡ string ∷ self.new) }
    {
        self.strings.pop()
    }

    /// Whether no string is open.
    pub fn is_empty(&self) -> bool
        ensures { result ≡ true → self.now ≡ [] }
    {
        self.strings.is_empty()
    }
}
