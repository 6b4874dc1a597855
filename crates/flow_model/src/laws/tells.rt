//! What tests and writes of a local tell of it.

ghost use Rattle.std.specs.Prelude.{◌≡◌, true, false, All, List, IsTrue};
ghost use Rattle.dart_types.specs.Ty.{Ty};
ghost use Rattle.dart_types.specs.Sub.{Sub};
ghost use Rattle.type_bounds.specs.NonNull.{non_null_of};
ghost use Rattle.flow_model.specs.TypeTests.{is_formed, is_in, proper_sub};
ghost use Rattle.flow_model.specs.Flow.{current_of};
ghost use Rattle.flow_model.specs.Promote.{append_facts, below_current, non_null_facts, promote_facts, tested_as, without_null_of};
ghost use Rattle.flow_model.specs.Assign.{appended_of, assign_facts};
ghost use Rattle.flow_model.specs.Chains.{IsProperSubtype};
ghost use Rattle.flow_model.specs.declared.locals.Facts.{Facts};

use dart_types::{Rows, row_laws};
use type_bounds::bound_table_laws;

/// A written local has a value, and the value has each type that the local is promoted to: the
/// written type is a subtype of it.
pub fn writes_tell(_rows: &Rows)
    ensures assigned { (written : Ty) (l : Facts) → (assign_facts _rows.now.table written l).assigned ≡ true }
    ensures unassigned { (written : Ty) (l : Facts) → (assign_facts _rows.now.table written l).unassigned ≡ false }
    ensures types { (written : Ty) (l : Facts) → All (λ t. Sub _rows.now.table written t) (assign_facts _rows.now.table written l).chain }
{
    row_laws(_rows);
}

/// A tested type is of interest. A local that isn't captured has it, where it is a proper subtype of
/// the current one. So has one that is known to have the type without a test.
pub fn tests_tell(_rows: &Rows)
    ensures interest { (to : Ty) (l : Facts) → IsTrue (is_in (promote_facts _rows.now.table to l).tested to) }
    ensures promoted { (to : Ty) (l : Facts) → l.captured ≡ false → IsTrue (proper_sub _rows.now.table to (current_of l))
        → current_of (promote_facts _rows.now.table to l) ≡ to }
    ensures appended { (to : Ty) (l : Facts) → l.captured ≡ false → IsTrue (proper_sub _rows.now.table to (current_of l))
        → current_of (append_facts _rows.now.table to l) ≡ to }
{}

/// A local that isn't null and isn't captured has its current type without null, where no more types
/// stand in it than may.
pub fn non_null_tells(_rows: &Rows)
    ensures { (l : Facts) → l.captured ≡ false → IsTrue (is_formed (non_null_of _rows.now.table (current_of l)))
        → current_of (non_null_facts _rows.now.table l) ≡ non_null_of _rows.now.table (current_of l) }
{}

/// A test leaves a local with a subtype of the type that it had.
pub fn tests_narrow(_rows: &Rows)
    ensures promote { (to : Ty) (l : Facts) → Sub _rows.now.table (current_of (promote_facts _rows.now.table to l)) (current_of l) }
    ensures non_null { (l : Facts) → Sub _rows.now.table (current_of (non_null_facts _rows.now.table l)) (current_of l) }
    ensures append { (to : Ty) (l : Facts) → Sub _rows.now.table (current_of (append_facts _rows.now.table to l)) (current_of l) }
{
    bound_table_laws(_rows);
}

/// What a step puts at the end of a chain is a proper subtype of the current type: a subtype of it,
/// and another type.
pub fn appended_types_are_proper_subtypes(_rows: &Rows)
    ensures promote { (to current : Ty) → All (IsProperSubtype _rows.now.table current) (tested_as _rows.now.table to current) }
    ensures non_null { (current : Ty) → All (IsProperSubtype _rows.now.table current) (without_null_of _rows.now.table current) }
    ensures append { (to current : Ty) → All (IsProperSubtype _rows.now.table current) (below_current _rows.now.table to current) }
    ensures assign { (written current : Ty) (interest : List Ty)
        → All (IsProperSubtype _rows.now.table current) (appended_of _rows.now.table written current interest) }
{
    bound_table_laws(_rows);
}
