//! The forms of types that rows of the tables speak of.

ghost use Rattle.std.specs.Prelude.{◌≡◌};
ghost use Rattle.dart_types.specs.Marks.{is_marked};
ghost use Rattle.dart_types.specs.SubTest.{is_null};
ghost use Rattle.type_bounds.specs.Bounds.{bare_of, is_promoted_from};

use dart_types::{DartType, TypeNode, VarId};

/// Whether the type is `Null`.
pub(crate) fn is_null(t: &DartType) -> bool
    ensures { result ≡ is_null t.now }
{
    match &t.node {
        TypeNode::Null => true,
        TypeNode::Invalid => false,
        TypeNode::Never => false,
        TypeNode::Void => false,
        TypeNode::Interface { .. } => false,
        TypeNode::Function(_) => false,
        TypeNode::Var(_) => false,
        TypeNode::Promoted { .. } => false,
        TypeNode::Nullable(_) => false,
    }
}

/// Whether the type has a `?`.
pub(crate) fn is_marked(t: &DartType) -> bool
    ensures { result ≡ is_marked t.now }
{
    match &t.node {
        TypeNode::Nullable(_) => true,
        TypeNode::Invalid => false,
        TypeNode::Never => false,
        TypeNode::Void => false,
        TypeNode::Null => false,
        TypeNode::Interface { .. } => false,
        TypeNode::Function(_) => false,
        TypeNode::Var(_) => false,
        TypeNode::Promoted { .. } => false,
    }
}

/// The type without its `?`, if it has one.
pub(crate) fn bare(t: &DartType) -> &DartType
    ensures { result.now ≡ bare_of t.now }
{
    match &t.node {
        TypeNode::Nullable(bare) => bare,
        TypeNode::Invalid => t,
        TypeNode::Never => t,
        TypeNode::Void => t,
        TypeNode::Null => t,
        TypeNode::Interface { .. } => t,
        TypeNode::Function(_) => t,
        TypeNode::Var(_) => t,
        TypeNode::Promoted { .. } => t,
    }
}

/// Whether the type is `X & U`, of this X.
pub(crate) fn is_promoted_from(var: VarId, t: &DartType) -> bool
    ensures { result ≡ is_promoted_from var t.now }
{
    match &t.node {
        TypeNode::Promoted { var: other, .. } => var == *other,
        TypeNode::Invalid => false,
        TypeNode::Never => false,
        TypeNode::Void => false,
        TypeNode::Null => false,
        TypeNode::Interface { .. } => false,
        TypeNode::Function(_) => false,
        TypeNode::Var(_) => false,
        TypeNode::Nullable(_) => false,
    }
}
