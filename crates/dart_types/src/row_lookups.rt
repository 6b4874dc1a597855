//! Rows that are looked up among own ones and those below.

ghost use Rattle.std.specs.Prelude.{◌≡◌, [], AllPairs, true};
ghost use Rattle.std.specs.Option.{option_copied};
ghost use Rattle.dart_types.specs.Tables.{class_of, bound_of};
ghost use Rattle.dart_types.specs.Unions.{beside};
ghost use Rattle.dart_types.specs.WellFormed.{class_before, var_before};

use crate::class_rows::{ClassRow, VarRow};
use crate::entries::{find_bound, find_row};
use crate::ids::{ClassId, VarId};
use crate::rows::Rows;
use crate::types::DartType;

/// The row of a class among own ones, else among those below, if it has one.
pub(crate) fn row_beside<'a>(
    below: &'a Rows,
    classes: &'a [ClassRow],
    class: ClassId,
) -> Option<&'a ClassRow>
    requires { AllPairs (λ a b. class_before a.id b.id ≡ true) classes.now }
    ensures { option_copied result ≡ class_of (beside below.now.table (record { classes = classes.now; vars = [] })) class }
{
    match find_row(classes, class) {
        Some(row) => Some(row),
        None => below.class(class),
    }
}

/// The bound of a type variable among own ones, else among those below, if it has one.
pub(crate) fn bound_beside<'a>(
    below: &'a Rows,
    vars: &'a [VarRow],
    var: VarId,
) -> Option<&'a DartType>
    requires { AllPairs (λ a b. var_before a.var b.var ≡ true) vars.now }
    ensures { option_copied result ≡ bound_of (beside below.now.table (record { classes = []; vars = vars.now })) var }
{
    match find_bound(vars, var) {
        Some(bound) => Some(bound),
        None => below.bound(var),
    }
}
