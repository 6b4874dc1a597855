//! Which function types can be subtypes, as far as the numbers and the names of parameters tell.

ghost use Rattle.std.specs.Prelude.{◌≡◌, ◌<◌, length, slice_index_or};
ghost use Rattle.dart_types.specs.Ty.{invalid};
ghost use Rattle.dart_types.specs.Named.{named_of};
ghost use Rattle.dart_types.specs.Forms.{params_of};
ghost use Rattle.type_infer.specs.Pairs.{names_are_in, takes_calls_of_function, functions_fit};

use crate::constraints::Side;
use dart_types::{DartType, FunctionType, NamedType, NamedTypes};

/// How many positional parameters a function type has.
pub(crate) fn count_params(function: &FunctionType) -> usize
    ensures { result ≡ length (params_of function.now) }
{
    function.required.as_slice().len() + function.optional.as_slice().len()
}

/// The type of the positional parameter at a place, where the required ones come first.
pub(crate) fn param_at(function: &FunctionType, at: usize) -> &DartType
    requires { at < length (params_of function.now) }
    ensures { result.now ≡ slice_index_or (params_of function.now) at invalid }
{
    let required = function.required.as_slice();
    if at < required.len() {
        return &required[at];
    }
    let optional = function.optional.as_slice();
    &optional[at - required.len()]
}

// Whether each name of the first list is in the second.
fn names_are_in(named: &[NamedType], others: &NamedTypes) -> bool
    ensures { result ≡ names_are_in (named_of named.now) (named_of others.now) }
{
    for item in named {
        if !others.has_name(&item.name) {
            return false;
        }
    }
    true
}

// Whether a function type can be a subtype of another.
fn takes_calls_of(function: &FunctionType, other: &FunctionType) -> bool
    ensures { result ≡ takes_calls_of_function function.now other.now }
{
    if function.required.as_slice().len() > other.required.as_slice().len() {
        return false;
    }
    if count_params(other) > count_params(function) {
        return false;
    }
    let others = other.named.as_slice();
    if !names_are_in(others, &function.named) {
        return false;
    }
    function.named.requires_no_more(&other.named)
}

/// Whether a formal that is a function type can be a supertype, or a subtype, of another.
pub(crate) fn signatures_fit(side: Side, formal: &FunctionType, other: &FunctionType) -> bool
    ensures { result ≡ functions_fit side formal.now other.now }
{
    match side {
        Side::AtLeast => takes_calls_of(other, formal),
        Side::AtMost => takes_calls_of(formal, other),
    }
}
