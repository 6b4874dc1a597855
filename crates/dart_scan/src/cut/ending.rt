//! What ends a piece of a string.

ghost use Rattle.dart_scan.specs.Endings.{IsEnding, IsInterpolation};
ghost use Rattle.dart_scan.specs.Openings.{shape};

use crate::cut::form::StringForm;
use crate::cut::name::{begins_name, name_size};

/// What stands behind the plain bytes of a piece of a string.
#[derive(Clone, Copy, Debug, PartialEq, Eq)]
pub enum Ending {
    /// The quotes that end the string.
    Quotes,
    /// The `${` of an interpolation.
    Expression,
    /// A `$` and a name, which has so many bytes.
    Name { size: usize },
    /// Nothing: the text ends first.
    Never,
}

/// What an escaping string goes on with, where it doesn't end.
fn interpolation(text: &[u8]) -> Ending
    ensures { IsInterpolation text.now result }
{
    if text.starts_with(b"${") {
        return Ending::Expression;
    }
    if begins_name(text) {
        return Ending::Name {
            size: name_size(&text[1..]),
        };
    }
    Ending::Never
}

/// What ends a piece of a string of the form, whose plain bytes stand before the text.
pub fn what_ends(form: StringForm, text: &[u8]) -> Ending
    ensures { IsEnding (shape form) text.now result }
{
    if text.starts_with(form.quotes) {
        return Ending::Quotes;
    }
    if form.raw {
        return Ending::Never;
    }
    interpolation(text)
}
