//! Laws of the rows of `dart:core`.

ghost use Rattle.std.specs.Prelude.{◌≡◌, IsTrue, IsFalse};
ghost use Rattle.dart_types.specs.Heads.{object};
ghost use Rattle.dart_types.specs.SubTest.{sub};
ghost use Rattle.dart_types.specs.Superinterfaces.{LeavesNothingOut};
ghost use Rattle.dart_types.specs.Ty.{interface, no_more};
ghost use Rattle.dart_types.specs.declared.ids.TheConstants.{INT, BOOL};
ghost use Rattle.core_rows.specs.CoreTable.{core_table};

use dart_types::{Rows, kept_laws};

/// The rows of `dart:core` leave no superinterface out. There neither of `int` and `bool` is a subtype of
/// the other, and both are subtypes of `Object`.
pub fn core_row_laws(_rows: &Rows)
    requires { _rows.now.table ≡ core_table }
    ensures nothing_out { LeavesNothingOut _rows.now.table }
    ensures integers_apart { IsFalse (sub _rows.now.table (interface INT no_more) (interface BOOL no_more)) }
    ensures truths_apart { IsFalse (sub _rows.now.table (interface BOOL no_more) (interface INT no_more)) }
    ensures integers_below { IsTrue (sub _rows.now.table (interface INT no_more) object) }
    ensures truths_below { IsTrue (sub _rows.now.table (interface BOOL no_more) object) }
{
    kept_laws(_rows);
}
