//! Named parameters of function types, in the order of their names.

ghost use Rattle.std.specs.Prelude.{◌≡◌, ◌≤◌, length, MatchOption};
ghost use Rattle.dart_types.specs.Named.{AreInOrder, named_of, names_of};
ghost use Rattle.dart_types.specs.NamedSearch.{StandsFrom, IsNotFrom};
ghost use Rattle.dart_types.specs.Sub.{required_in};

use crate::types::{NamedType, NamedTypes};
use plain_text::PlainText;

/// The first place, from a place on, of a parameter of this name.
pub(crate) fn find_named(named: &[NamedType], from: usize, name: &PlainText) -> Option<usize>
    requires { from ≤ length named.now }
    ensures { MatchOption result (IsNotFrom (names_of named.now) from name.now) (StandsFrom (names_of named.now) from name.now) }
{
    for at in from..named.len() {
        if named[at].name.as_str() == name.as_str() {
            return Some(at);
        }
    }
    None
}

impl NamedTypes {
    /// Whether each parameter that is required here is required there. Each list is gone through once.
    /// It takes no memory.
    pub fn requires_no_more(&self, others: &NamedTypes) -> bool
        ensures { result ≡ required_in (named_of self.now) (named_of others.now) }
    {
        requires_no_more(self.as_slice(), others.as_slice())
    }
}

/// Whether each parameter that the first list requires is required by the second. Both are in the
/// order of their names, so each is gone through once.
pub(crate) fn requires_no_more(named: &[NamedType], others: &[NamedType]) -> bool
    requires in_order { AreInOrder (names_of named.now) }
    requires others_in_order { AreInOrder (names_of others.now) }
    ensures { result ≡ required_in (named_of named.now) (named_of others.now) }
{
    let mut from = 0;
    for i in 0..named.len() {
        if named[i].required {
            let at = match find_named(others, from, &named[i].name) {
                None => return false,
                Some(at) => at,
            };
            if !others[at].required {
                return false;
            }
            from = at + 1;
        }
    }
    true
}
