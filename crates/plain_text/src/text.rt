//! An owned text.

ghost use Rattle.std.specs.Prelude.{◌≡◌, IfOk, string_bytes, bytes_eq};

use std::alloc::{AllocError, Global};
use std::marker::Model;

/// An owned text, which contracts see as the list of its bytes in UTF-8.
#[derive(Debug, Drop)]
pub struct PlainText {
    text: String,
}

impl Model for PlainText {
    ghost use Rattle.std.specs.Prelude.{ℕ, List, string_bytes};

    ghost Value = { List ℕ };

    ghost view = { λ t. string_bytes t.text };
}

impl PlainText {
    /// A copy of the text.
    pub fn new(alloc: Global, text: &str) -> Result<PlainText, AllocError>
        ensures { IfOk result (λ copied. copied ≡ text.now) }
    {
        let text = String::from_str(alloc, text)?;
        Ok(PlainText { text })
    }

    /// The text that the string holds, which takes no memory.
    pub fn from_string(text: String) -> PlainText
        ensures { result ≡ string_bytes text }
    {
        PlainText { text }
    }

    /// The text as a string, which takes no memory.
    pub fn into_string(self) -> String
        ensures { string_bytes result ≡ self }
    {
        self.text
    }

    /// The text itself.
    pub fn as_str(&self) -> &str
        ensures { result.now ≡ self.now }
    {
        self.text.as_str()
    }

    /// An equal text with memory of its own.
    pub fn copy(&self) -> Result<PlainText, AllocError>
        ensures { IfOk result (λ copied. copied ≡ self.now) }
    {
        let text = self.text.clone()?;
        Ok(PlainText { text })
    }
}
