//! The type parameters of the classes of `dart:core`.

ghost use Rattle.std.specs.Prelude.{◌≡◌, IfOk};
ghost use Rattle.core_rows.specs.CoreTable.{core_var, free_row, core_vars};

use dart_types::{CORE, DartType, OBJECT, VarId, VarRow};
use std::alloc::{AllocError, Global};

/// The type parameter at a place among those of `dart:core`.
pub(crate) fn core_var(index: u32) -> VarId
    ensures { result ≡ core_var index }
{
    VarId { lib: CORE, index }
}

/// The row of a type parameter without a written bound.
fn free_row(alloc: Global, index: u32) -> Result<VarRow, AllocError>
    ensures { IfOk result (λ row. row ≡ free_row index) }
{
    let object = DartType::class(alloc, OBJECT)?;
    let bound = DartType::nullable(alloc, object)?;
    Ok(VarRow {
        var: core_var(index),
        bound,
    })
}

/// The rows of the type parameters of the classes of `dart:core`.
pub(crate) fn var_rows(alloc: Global) -> Result<Vec<VarRow>, AllocError>
    ensures { IfOk result (λ rows. rows.items ≡ core_vars) }
{
    let mut rows = Vec::new(alloc);
    rows.push(free_row(alloc, 0)?)?;
    rows.push(free_row(alloc, 1)?)?;
    rows.push(free_row(alloc, 10)?)?;
    rows.push(free_row(alloc, 12)?)?;
    rows.push(free_row(alloc, 13)?)?;
    Ok(rows)
}
