//! Declared classes put over rows.

ghost use Rattle.std.specs.Prelude.{◌≡◌, List, true, AllPairs, Err, IfOk, map, filter};
ghost use Rattle.dart_types.specs.Kept.{forms_too_large};
ghost use Rattle.dart_types.specs.Unions.{IsFormedOver, IsUnion, IsView};
ghost use Rattle.dart_types.specs.WellFormed.{class_before};
ghost use Rattle.dart_types.specs.declared.class_rows.ClassRow.{ClassRow};
ghost use Rattle.dart_types.specs.declared.ids.ClassId.{ClassId};
ghost use Rattle.class_depths.specs.Over.{LiesOver};
ghost use Rattle.class_depths.specs.Settled.{AreRowsOf, AreSettled};
ghost use Rattle.class_depths.specs.declared.unextended.Unextended.TheVariants.{Cycle, Unformed};

use crate::classes::DeclaredClass;
use crate::settling::settle;
use crate::unextended::Unextended;
use dart_types::{ExtendedRows, Rows, VarRow};
use std::alloc::Global;

/// The rows below with those of declared classes and of type variables over them, and the declared classes
/// that form a superinterface that is too large, as `Rows::extend` gives them. It finds the depths of the
/// classes, which stand in the order of their ids. `Cycle` comes exactly where no depths fit, and then its
/// class is a supertype of itself; `Unformed` comes where depths fit, and the rows with these depths and
/// the type variables aren't well formed over those below.
pub fn extend_declared(
    alloc: Global,
    below: &Rows,
    declared: &[DeclaredClass],
    vars: Vec<VarRow>,
) -> Result<ExtendedRows, Unextended>
    requires { AllPairs (λ a b. class_before a.id b.id ≡ true) declared.now }
    ensures ok { IfOk result (λ e. (rows : List ClassRow) × AreRowsOf below.now.table vars.items declared.now rows
        × IsFormedOver below.now.table (record { classes = rows; vars = vars.items })
        × IsUnion below.now.table (record { classes = rows; vars = vars.items }) e.rows.table) }
    ensures view { IfOk result (λ e. IsView below.now.table e.rows.table) }
    ensures too_large { IfOk result (λ e. e.too_large.items ≡ filter (forms_too_large e.rows.table) (map (λ class. class.id) declared.now)) }
    ensures over_itself { (class : ClassId) → result ≡ Err (Cycle class) → LiesOver declared.now class class }
    ensures none_fit { (class : ClassId) → result ≡ Err (Cycle class) →
        (rows : List ClassRow) → AreSettled below.now.table vars.items declared.now rows → ⊥ }
    ensures unformed { result ≡ Err Unformed → (rows : List ClassRow) × AreRowsOf below.now.table vars.items declared.now rows
        × (IsFormedOver below.now.table (record { classes = rows; vars = vars.items }) → ⊥) }
{
    let rows = settle(alloc, below, declared)?;
    if !below.takes(&rows, &vars) {
        return Err(Unextended::Unformed);
    }
    let extended = Rows::extend(alloc, below, rows, vars)?;
    Ok(extended)
}
