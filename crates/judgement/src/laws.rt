//! Laws of the types whose members receivers have.

ghost use Rattle.std.specs.Prelude.{◌≡◌};
ghost use Rattle.dart_types.specs.Ty.{Ty};
ghost use Rattle.judgement.specs.Receivers.{member_step, member_type};

use dart_types::{Rows, row_laws};

/// A type variable has the members of its bound, and `X & U` those of U, however many bounds lead from
/// one variable to another; each other type has its own.
pub fn members_are_those_of_bounds(_rows: &Rows)
    ensures { (t : Ty) → member_type _rows.now.table t ≡ member_step _rows.now.table (member_type _rows.now.table) t }
{
    row_laws(_rows);
}
