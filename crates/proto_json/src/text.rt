//! Texts that take no memory of their own.

ghost use Rattle.std.specs.Prelude.{◌≡◌, IfOk};

use std::alloc::{AllocError, Global};
use std::marker::Model;
use std::rc::RcStr;

/// A text of the program itself, such as the name of a rule, which contracts see as the list of its
/// bytes in UTF-8.
#[derive(Debug, Drop)]
pub struct FixedText {
    text: &'static str,
}

impl Model for FixedText {
    ghost use Rattle.std.specs.Prelude.{ℕ, List};

    ghost Value = { List ℕ };

    ghost view = { λ t. t.text.now };
}

impl FixedText {
    /// The text as it stands in the program.
    pub fn new(text: &'static str) -> FixedText
        ensures { result ≡ text.now }
    {
        FixedText { text }
    }

    /// The text itself.
    pub fn as_str(&self) -> &'static str
        ensures { result.now ≡ self.now }
    {
        self.text
    }
}

/// A text that many values hold and that stands in memory once, which contracts see as the list of
/// its bytes in UTF-8.
#[derive(Debug, Drop)]
pub struct SharedText {
    text: RcStr,
}

impl Model for SharedText {
    ghost use Rattle.std.specs.Prelude.{ℕ, List};
    ghost use Rattle.std.specs.Rc.{rc_str_bytes};

    ghost Value = { List ℕ };

    ghost view = { λ t. rc_str_bytes t.text };
}

impl SharedText {
    /// A copy of the text, to be shared.
    pub fn new(alloc: Global, text: &str) -> Result<SharedText, AllocError>
        ensures { IfOk result (λ shared. shared ≡ text.now) }
    {
        let text = RcStr::from_str(alloc, text)?;
        Ok(SharedText { text })
    }

    /// The same text for one more value, which takes no memory.
    pub fn share(&self) -> Result<SharedText, AllocError>
        ensures { IfOk result (λ shared. shared ≡ self.now) }
    {
        let text = self.text.clone()?;
        Ok(SharedText { text })
    }

    /// The text itself.
    pub fn as_str(&self) -> &str
        ensures { result.now ≡ self.now }
    {
        self.text.as_str()
    }
}
