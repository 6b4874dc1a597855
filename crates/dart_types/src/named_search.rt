//! The named parameter of a name.

ghost use Rattle.std.specs.Prelude.{◌≡◌, ◌≢◌, ◌≤◌, bytes_eq, find, length};
ghost use Rattle.std.specs.List.Sorted.{IsPartitionPoint};
ghost use Rattle.std.specs.Option.{option_copied};
ghost use Rattle.std.specs.Ordering.{nat_cmp};
ghost use Rattle.std.specs.declared.cmp.Ordering.TheVariants.{Less};
ghost use Rattle.std.specs.Cmp.Lexicographic.{slice_cmp};
ghost use Rattle.dart_types.specs.Named.{AreInOrder, IsNameBefore, has_name, named_of, names_of};

use crate::types::{NamedType, NamedTypes};
use plain_text::PlainText;

impl NamedTypes {
    /// The parameter of this name, if there is one, by a binary search. It takes no memory.
    pub fn get(&self, name: &PlainText) -> Option<&NamedType>
        ensures found { option_copied result ≡ find (λ n. bytes_eq n.name name.now) self.now }
        ensures in_order { AreInOrder (names_of self.now) }
    {
        find_parameter(self.as_slice(), name)
    }

    /// Whether there is a parameter of this name. It takes no memory.
    pub fn has_name(&self, name: &PlainText) -> bool
        ensures { result ≡ has_name (named_of self.now) name.now }
    {
        match self.get(name) {
            None => false,
            Some(_) => true,
        }
    }
}

// Of parameters in the order of their names the one of this name, if there is one.
fn find_parameter<'a>(named: &'a [NamedType], name: &PlainText) -> Option<&'a NamedType>
    requires { AreInOrder (names_of named.now) }
    ensures { option_copied result ≡ find (λ n. bytes_eq n.name name.now) named.now }
{
    let at = place_of_name(named, name);
    if at >= named.len() {
        return None;
    }
    let parameter = &named[at];
    if parameter.name.as_str() == name.as_str() {
        Some(parameter)
    } else {
        None
    }
}

// How many parameters have names that come before this one.
fn place_of_name(named: &[NamedType], name: &PlainText) -> usize
    requires { AreInOrder (names_of named.now) }
    ensures bound { result ≤ length named.now }
    ensures parts { IsPartitionPoint (λ n. IsNameBefore n.name name.now) (λ n. slice_cmp nat_cmp n.name name.now ≢ Less) named.now result }
{
    let text = name.as_str();
    named.partition_point(|parameter| parameter.name.as_str() < text)
}
