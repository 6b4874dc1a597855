//! In which types a type parameter of a call stands.

ghost use Rattle.std.specs.Prelude.{◌≡◌};
ghost use Rattle.dart_types.specs.Ty.{types_of};
ghost use Rattle.dart_types.specs.Named.{named_of};
ghost use Rattle.dart_types.specs.WellFormed.{is_among};
ghost use Rattle.type_infer.specs.Holding.{holds_param, hold_param, hold_param_named};

use dart_types::{DartType, NamedType, TypeNode, VarId};

/// Whether one of the parameters stands in the type. It takes no memory.
#[cycle(holding)]
pub(crate) fn holds_param(params: &[VarId], t: &DartType) -> bool
    ensures { result ≡ holds_param params.now t.now }
{
    match &t.node {
        TypeNode::Invalid => false,
        TypeNode::Never => false,
        TypeNode::Void => false,
        TypeNode::Null => false,
        TypeNode::Var(var) => is_param(params, *var),
        TypeNode::Interface { args, .. } => hold_param(params, args.as_slice()),
        TypeNode::Function(function) => {
            hold_param(params, function.required.as_slice())
                || hold_param(params, function.optional.as_slice())
                || hold_param_named(params, function.named.as_slice())
                || holds_param(params, &function.result)
        }
        TypeNode::Promoted { var, to } => is_param(params, *var) || holds_param(params, to),
        TypeNode::Nullable(bare) => holds_param(params, bare),
    }
}

// Whether one stands in one of the types.
#[cycle(holding)]
fn hold_param(params: &[VarId], types: &[DartType]) -> bool
    ensures { result ≡ hold_param params.now (types_of types.now) }
{
    for item in types {
        if holds_param(params, item) {
            return true;
        }
    }
    false
}

// Whether one stands in the type of one of the named parameters.
#[cycle(holding)]
fn hold_param_named(params: &[VarId], named: &[NamedType]) -> bool
    ensures { result ≡ hold_param_named params.now (named_of named.now) }
{
    for item in named {
        if holds_param(params, &item.ty) {
            return true;
        }
    }
    false
}

// Whether the variable is one of the parameters.
fn is_param(params: &[VarId], var: VarId) -> bool
    ensures { result ≡ is_among params.now var }
{
    params.iter().any(|param| *param == var)
}
