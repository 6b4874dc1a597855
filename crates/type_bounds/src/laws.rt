//! Laws of bounds and of types without null, for all well-formed rows and all types.

ghost use Rattle.std.specs.Prelude.{◌≡◌, ◌≤◌, ◌+◌, ◌↔◌, ℕ, Contains};
ghost use Rattle.dart_types.specs.Ty.{Ty, Types, interface, no_more, null, void};
ghost use Rattle.dart_types.specs.Normal.{normal};
ghost use Rattle.dart_types.specs.WellFormed.{IsOver};
ghost use Rattle.dart_types.specs.Sub.{Sub};
ghost use Rattle.dart_types.specs.Measure.{weight_of};
ghost use Rattle.dart_types.specs.Superinterfaces.{Keeps};
ghost use Rattle.dart_types.specs.Kept.{kept_of};
ghost use Rattle.dart_types.specs.Unions.{Extends};
ghost use Rattle.dart_types.specs.declared.ids.ClassId.{ClassId};
ghost use Rattle.dart_types.specs.declared.ids.TheConstants.{FUNCTION};
ghost use Rattle.type_bounds.specs.Bounds.{Upper, Lower};
ghost use Rattle.type_bounds.specs.BoundsOf.{upper_of, lower_of, upper_row, lower_row, upper_within, lower_within};
ghost use Rattle.type_bounds.specs.Common.{IsAbove};
ghost use Rattle.type_bounds.specs.CommonOf.{above_of};
ghost use Rattle.type_bounds.specs.Factor.{factor_of};
ghost use Rattle.type_bounds.specs.Laws.{BoundLaws, MoreBounds};
ghost use Rattle.type_bounds.specs.NonNull.{non_null_of, non_null_within};
ghost use Rattle.type_bounds.specs.Valid.{IsValid, HasValidRows};

use dart_types::{DartType, Rows, row_laws, wider_rows_laws};

/// The bounds that are computed are those of the tables: each two types have an upper bound and a lower
/// bound, however large, and no other.
pub fn bounds_are_those_of_the_tables(_rows: &Rows)
    ensures upper { (s t u : Ty) → Upper _rows.now.table s t u ↔ (u ≡ upper_of _rows.now.table s t) }
    ensures lower { (s t u : Ty) → Lower _rows.now.table s t u ↔ (u ≡ lower_of _rows.now.table s t) }
{
    row_laws(_rows);
}

/// The bounds that are computed go by one row from those of the parts, and more rows than the weights of
/// both types give the same.
pub fn bounds_go_row_by_row(_rows: &Rows, _s: &DartType, _t: &DartType)
    ensures upper { let table = _rows.now.table in
        upper_of table _s.now _t.now ≡ upper_row table (upper_of table) (lower_of table) _s.now _t.now }
    ensures lower { let table = _rows.now.table in
        lower_of table _s.now _t.now ≡ lower_row table (upper_of table) (lower_of table) _s.now _t.now }
    ensures upper_rows { (n : ℕ) → let table = _rows.now.table in
        weight_of table _s.now + weight_of table _t.now ≤ n → upper_within table n _s.now _t.now ≡ upper_of table _s.now _t.now }
    ensures lower_rows { (n : ℕ) → let table = _rows.now.table in
        weight_of table _s.now + weight_of table _t.now ≤ n → lower_within table n _s.now _t.now ≡ lower_of table _s.now _t.now }
{
    row_laws(_rows);
}

/// The superinterfaces of a class that are computed are those that it keeps, over its parameters and with
/// arguments put in.
pub fn superinterfaces_are_those_of_the_rules(_rows: &Rows)
    ensures over_parameters { (c : ClassId) (v : Ty) → Keeps _rows.now.table c v ↔ Contains (kept_of _rows.now.table c) v }
    ensures with_arguments { (c : ClassId) (ts : Types) (u : Ty) → IsAbove _rows.now.table c ts u ↔ Contains (above_of _rows.now.table c ts) u }
{
    row_laws(_rows);
}

/// The upper bound of two types is a supertype of both, and the lower bound a subtype of both, where
/// the bound holds no `Invalid`.
pub fn bounds_are_bounds(_rows: &Rows, _s: &DartType, _t: &DartType)
    ensures upper { let u = upper_of _rows.now.table _s.now _t.now in IsValid u → Sub _rows.now.table _s.now u × Sub _rows.now.table _t.now u }
    ensures lower { let u = lower_of _rows.now.table _s.now _t.now in IsValid u → Sub _rows.now.table u _s.now × Sub _rows.now.table u _t.now }
{
    row_laws(_rows);
}

/// Two types have one upper bound and one lower bound at most by the tables, however large.
pub fn bounds_are_unique(_rows: &Rows)
    ensures upper { (s t u v : Ty) → Upper _rows.now.table s t u → Upper _rows.now.table s t v → u ≡ v }
    ensures lower { (s t u v : Ty) → Lower _rows.now.table s t u → Lower _rows.now.table s t v → u ≡ v }
{}

/// Where rows hold no `Invalid`, the bounds of two types that are over them, and hold none, hold none
/// either.
pub fn bounds_are_valid(_rows: &Rows, _s: &DartType, _t: &DartType)
    requires rows { HasValidRows _rows.now.table }
    requires left { IsOver _rows.now.table _s.now × IsValid _s.now }
    requires right { IsOver _rows.now.table _t.now × IsValid _t.now }
    ensures upper { IsValid (upper_of _rows.now.table _s.now _t.now) }
    ensures lower { IsValid (lower_of _rows.now.table _s.now _t.now) }
{
    row_laws(_rows);
}

/// Over rows that have `Function`, without parameters, the bounds of two types that are over them are
/// over them too.
pub fn bounds_are_over_rows(_rows: &Rows, _s: &DartType, _t: &DartType)
    requires rows { IsOver _rows.now.table (interface FUNCTION no_more) }
    requires left { IsOver _rows.now.table _s.now }
    requires right { IsOver _rows.now.table _t.now }
    ensures upper { IsOver _rows.now.table (upper_of _rows.now.table _s.now _t.now) }
    ensures lower { IsOver _rows.now.table (lower_of _rows.now.table _s.now _t.now) }
{
    row_laws(_rows);
}

/// Laws of types without null: each is a subtype of its type, and null is a value of one exactly where
/// the type is `void`, which has none but itself. More steps than the weight of the type give the same.
pub fn non_null_laws(_rows: &Rows)
    ensures below { (t : Ty) → Sub _rows.now.table (non_null_of _rows.now.table t) t }
    ensures no_null { (t : Ty) → Sub _rows.now.table null (non_null_of _rows.now.table t) ↔ (normal t ≡ void) }
    ensures steps { (n : ℕ) (t : Ty) → weight_of _rows.now.table t ≤ n → non_null_within _rows.now.table n t ≡ non_null_of _rows.now.table t }
{
    row_laws(_rows);
}

/// More rows change nothing: types over the smaller rows have the same bounds over the larger ones, and
/// what is left of them without null or without another type is the same.
pub fn more_rows_laws(_small: &Rows, _large: &Rows)
    requires { Extends _small.now.table _large.now.table }
    ensures upper { (s t : Ty) → IsOver _small.now.table s → IsOver _small.now.table t → upper_of _small.now.table s t ≡ upper_of _large.now.table s t }
    ensures lower { (s t : Ty) → IsOver _small.now.table s → IsOver _small.now.table t → lower_of _small.now.table s t ≡ lower_of _large.now.table s t }
    ensures non_null { (t : Ty) → IsOver _small.now.table t → non_null_of _small.now.table t ≡ non_null_of _large.now.table t }
    ensures factor { (s t : Ty) → IsOver _small.now.table s → IsOver _small.now.table t → factor_of _small.now.table s t ≡ factor_of _large.now.table s t }
{
    row_laws(_small);
    row_laws(_large);
    wider_rows_laws(_small, _large);
}

/// The laws of bounds as one value, for functions of crates above whose proofs go by several.
pub fn bound_table_laws(_rows: &Rows)
    ensures { BoundLaws _rows.now.table }
{
    row_laws(_rows);
}

/// What larger rows leave as it is of bounds, as one value.
pub fn wider_bounds_laws(_small: &Rows, _large: &Rows)
    requires { Extends _small.now.table _large.now.table }
    ensures { MoreBounds _small.now.table _large.now.table }
{
    row_laws(_small);
    row_laws(_large);
    wider_rows_laws(_small, _large);
}
