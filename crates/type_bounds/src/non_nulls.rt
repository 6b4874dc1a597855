//! Types without null.

ghost use Rattle.std.specs.Prelude.{◌≡◌, IfOk};
ghost use Rattle.dart_types.specs.Ty.{variable};
ghost use Rattle.dart_types.specs.Sizes.{size_of, held};
ghost use Rattle.dart_types.specs.Formed.{Forms};
ghost use Rattle.dart_types.specs.Sub.{Sub};
ghost use Rattle.type_bounds.specs.NonNull.{non_null_of};
ghost use Rattle.type_bounds.specs.NonNullSteps.{IsWithoutNull};

use dart_types::{
    DartType, NODE_LIMIT, Rows, TypeNode, TypeRefusal, VarId, is_subtype_of_object, row_laws, size,
};
use std::alloc::{AllocError, Global};

/// The type without null: `Never` for `Null`, and U without null for `U?`. A variable whose bound
/// isn't a subtype of `Object` is promoted to its bound without null, and an `X & U` to U without
/// null. Each other type stays as it is, `void` too. `TooLarge` comes exactly where more than
/// `NODE_LIMIT` types would stand in it, and is found before any of it is formed.
pub fn non_null(alloc: Global, rows: &Rows, t: &DartType) -> Result<DartType, TypeRefusal>
    ensures forms { Forms result (non_null_of rows.now.table t.now) }
    ensures below { IfOk result (λ formed. Sub rows.now.table formed t.now) }
{
    let nodes = non_null_nodes(rows, t);
    if nodes > NODE_LIMIT {
        return Err(TypeRefusal::TooLarge { nodes });
    }
    let formed = form_non_null(alloc, rows, t)?;
    Ok(formed)
}

// What a type is without null.
enum WithoutNull<'a> {
    // The type itself.
    Itself,
    // `Never`.
    Nothing,
    // This one without null.
    Bare(&'a DartType),
    // The variable, promoted to this type without null.
    Promoted(VarId, &'a DartType),
}

// What the type is without null.
fn without_null<'a>(rows: &'a Rows, t: &'a DartType) -> WithoutNull<'a>
    ensures { IsWithoutNull rows.now.table t.now result }
{
    row_laws(rows);
    match &t.node {
        TypeNode::Null => WithoutNull::Nothing,
        TypeNode::Nullable(bare) => WithoutNull::Bare(bare),
        TypeNode::Promoted { var, to } => WithoutNull::Promoted(*var, to),
        TypeNode::Var(var) => var_without_null(rows, *var),
        TypeNode::Invalid => WithoutNull::Itself,
        TypeNode::Never => WithoutNull::Itself,
        TypeNode::Void => WithoutNull::Itself,
        TypeNode::Interface { .. } => WithoutNull::Itself,
        TypeNode::Function(_) => WithoutNull::Itself,
    }
}

// What a variable is without null.
fn var_without_null<'a>(rows: &'a Rows, var: VarId) -> WithoutNull<'a>
    ensures { IsWithoutNull rows.now.table (variable var) result }
{
    row_laws(rows);
    match rows.bound(var) {
        None => WithoutNull::Itself,
        Some(bound) => {
            if is_subtype_of_object(rows, bound) {
                return WithoutNull::Itself;
            }
            WithoutNull::Promoted(var, bound)
        }
    }
}

// How many types stand in the type without null, or 2^64 - 1 where there are more. A long chain of
// variables as bounds is gone through step by step.
fn non_null_nodes(rows: &Rows, t: &DartType) -> u64
    ensures { result ≡ held (size_of (non_null_of rows.now.table t.now)) }
{
    let mut variables: u64 = 0;
    let mut left = t;
    loop {
        match without_null(rows, left) {
            WithoutNull::Itself => return variables.saturating_add(size(left)),
            WithoutNull::Nothing => return variables.saturating_add(1),
            WithoutNull::Bare(bare) => left = bare,
            WithoutNull::Promoted(_, to) => {
                variables = variables.saturating_add(1);
                left = to;
            }
        }
    }
}

// The type without null.
fn form_non_null(alloc: Global, rows: &Rows, t: &DartType) -> Result<DartType, AllocError>
    ensures { IfOk result (λ formed. formed ≡ non_null_of rows.now.table t.now) }
{
    match without_null(rows, t) {
        WithoutNull::Itself => t.copy(alloc),
        WithoutNull::Nothing => Ok(DartType {
            node: TypeNode::Never,
        }),
        WithoutNull::Bare(bare) => form_non_null(alloc, rows, bare),
        WithoutNull::Promoted(var, to) => {
            let formed = form_non_null(alloc, rows, to)?;
            DartType::promoted(alloc, var, formed)
        }
    }
}
