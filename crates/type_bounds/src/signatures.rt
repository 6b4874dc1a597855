//! Which function types have a bound that is a function type.

ghost use Rattle.std.specs.Prelude.{◌≡◌, bytes_eq};
ghost use Rattle.dart_types.specs.Ty.{types_of};
ghost use Rattle.dart_types.specs.Named.{named_of};
ghost use Rattle.type_bounds.specs.Signatures.{required_are_in, same_names, some_type, some_named, have_upper_function, have_lower_function};

use dart_types::{FunctionType, NamedType, NamedTypes, TypeList};
use plain_text::PlainText;

// Whether the parameter has this name.
fn is_named(named: &NamedType, name: &PlainText) -> bool
    ensures { result ≡ bytes_eq named.now.name name.now }
{
    named.name.as_str() == name.as_str()
}

// Whether each name that the first list requires is in the second.
fn required_are_in(named: &[NamedType], others: &NamedTypes) -> bool
    ensures { result ≡ required_are_in (named_of named.now) (named_of others.now) }
{
    for i in 0..named.len() {
        if named[i].required {
            if !others.has_name(&named[i].name) {
                return false;
            }
        }
    }
    true
}

// Whether both lists have the same names, in the same order.
fn same_names(named: &[NamedType], others: &[NamedType]) -> bool
    ensures { result ≡ same_names (named_of named.now) (named_of others.now) }
{
    if named.len() != others.len() {
        return false;
    }
    for i in 0..named.len() {
        if !is_named(&named[i], &others[i].name) {
            return false;
        }
    }
    true
}

// Whether there is a type in the list.
fn some_type(types: &TypeList) -> bool
    ensures { result ≡ some_type (types_of types.now) }
{
    types.as_slice().len() > 0
}

// Whether there is a named parameter.
fn some_named(named: &NamedTypes) -> bool
    ensures { result ≡ some_named (named_of named.now) }
{
    named.as_slice().len() > 0
}

/// Whether two function types have an upper bound that is one.
pub(crate) fn have_upper(function: &FunctionType, other: &FunctionType) -> bool
    ensures { result ≡ have_upper_function function.now other.now }
{
    if function.required.as_slice().len() != other.required.as_slice().len() {
        return false;
    }
    if !required_are_in(function.named.as_slice(), &other.named) {
        return false;
    }
    if !required_are_in(other.named.as_slice(), &function.named) {
        return false;
    }
    let left = some_type(&function.optional) & some_named(&other.named);
    let right = some_type(&other.optional) & some_named(&function.named);
    !(left | right)
}

/// Whether two function types have a lower bound that is one.
pub(crate) fn have_lower(function: &FunctionType, other: &FunctionType) -> bool
    ensures { result ≡ have_lower_function function.now other.now }
{
    if function.required.as_slice().len() != other.required.as_slice().len() {
        return false;
    }
    if function.optional.as_slice().len() != other.optional.as_slice().len() {
        return false;
    }
    same_names(function.named.as_slice(), other.named.as_slice())
}
