//! Which types are open.

ghost use Rattle.std.specs.Prelude.{◌≡◌};
ghost use Rattle.dart_types.specs.Ty.{types_of};
ghost use Rattle.dart_types.specs.Named.{named_of};
ghost use Rattle.type_infer.specs.Open.{is_open, are_open, are_open_named};

use crate::contexts::OPEN_PARAMETER;
use dart_types::{DartType, NamedType, TypeNode};

/// Whether `OPEN_PARAMETER` stands in the type. It takes no memory.
#[cycle(openness)]
pub(crate) fn is_open(t: &DartType) -> bool
    ensures { result ≡ is_open t.now }
{
    match &t.node {
        TypeNode::Invalid => false,
        TypeNode::Never => false,
        TypeNode::Void => false,
        TypeNode::Null => false,
        TypeNode::Var(var) => *var == OPEN_PARAMETER,
        TypeNode::Interface { args, .. } => are_open(args.as_slice()),
        TypeNode::Function(function) => {
            are_open(function.required.as_slice())
                || are_open(function.optional.as_slice())
                || are_open_named(function.named.as_slice())
                || is_open(&function.result)
        }
        TypeNode::Promoted { to, .. } => is_open(to),
        TypeNode::Nullable(bare) => is_open(bare),
    }
}

// Whether it stands in one of the types.
#[cycle(openness)]
fn are_open(types: &[DartType]) -> bool
    ensures { result ≡ are_open (types_of types.now) }
{
    for item in types {
        if is_open(item) {
            return true;
        }
    }
    false
}

// Whether it stands in the type of one of the named parameters.
#[cycle(openness)]
fn are_open_named(named: &[NamedType]) -> bool
    ensures { result ≡ are_open_named (named_of named.now) }
{
    for item in named {
        if is_open(&item.ty) {
            return true;
        }
    }
    false
}
