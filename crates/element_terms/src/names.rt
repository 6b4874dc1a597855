//! Names as texts.

ghost use Rattle.std.specs.Prelude.{◌≡◌, IfOk, string_bytes};
ghost use Rattle.element_terms.specs.NameTexts.{is_private, is_setter_of, means, setter_of};

use plain_text::PlainText;
use std::alloc::{AllocError, Global};
use std::marker::Model;

/// Names in the order in which they are written.
#[derive(Debug, Drop)]
pub struct NameList {
    names: Vec<PlainText>,
}

impl Model for NameList {
    ghost use Rattle.std.specs.Prelude.{ℕ, List};

    ghost Value = { List (List ℕ) };

    ghost view = { λ n. n.names.items };
}

impl NameList {
    /// The names that the vector holds, which takes no memory.
    pub fn from_vec(names: Vec<PlainText>) -> NameList
        ensures { result ≡ names.items }
    {
        NameList { names }
    }

    /// The names.
    pub fn as_slice(&self) -> &[PlainText]
        ensures { result.now ≡ self.now }
    {
        self.names.as_slice()
    }
}

/// The name of the setter that goes with a name.
pub fn setter_of(alloc: Global, name: &str) -> Result<String, AllocError>
    ensures { IfOk result (λ setter. string_bytes setter ≡ setter_of name.now) }
{
    let mut setter = String::from_str(alloc, name)?;
    setter.push_str("=")?;
    Ok(setter)
}

/// Whether the second text is the name of the setter that goes with the first.
pub fn is_setter_of(name: &str, setter: &str) -> bool
    ensures { result ≡ is_setter_of name.now setter.now }
{
    is_setter_in_bytes(name.as_bytes(), setter.as_bytes())
}

/// The same of the bytes of both.
fn is_setter_in_bytes(name: &[u8], setter: &[u8]) -> bool
    ensures { result ≡ is_setter_of name.now setter.now }
{
    if setter.len() != name.len() + 1 {
        return false;
    }
    if setter[name.len()] != b'=' {
        return false;
    }
    &setter[..name.len()] == name
}

/// Whether a name is its library's own.
pub fn is_private(name: &str) -> bool
    ensures { result ≡ is_private name.now }
{
    let name = name.as_bytes();
    !name.is_empty() && name[0] == b'_'
}

/// Whether a written name means a name: it is that, or that is the setter that goes with it.
pub fn means(written: &str, name: &str) -> bool
    ensures { result ≡ means written.now name.now }
{
    written == name || is_setter_of(written, name)
}
