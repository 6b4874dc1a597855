//! Laws of types, of rows, of subtyping and of substitution, for all well-formed rows and all types.

ghost use Rattle.std.specs.Prelude.{◌≡◌, ◌≢◌, ◌≤◌, ◌<◌, ◌+◌, ◌↔◌, ◌⊎◌, ℕ, true, false, List, All, Contains, Some, find, length, map, bytes_eq, IsTrue, IsSome};
ghost use Rattle.dart_types.specs.Ty.{Ty, Types, Named, void, null, interface, function, variable, promoted, nullable, no_more, count, join, types_of};
ghost use Rattle.dart_types.specs.Same.{same_class, same_var, same_type, same_types, same_named};
ghost use Rattle.dart_types.specs.Heads.{object, is_object, is_function_class, is_top};
ghost use Rattle.dart_types.specs.Named.{named_of, names_of, AreInOrder};
ghost use Rattle.dart_types.specs.Normal.{normal, normal_all, nullable_of};
ghost use Rattle.dart_types.specs.Laws.{RowLaws, MoreRows};
ghost use Rattle.dart_types.specs.Marks.{takes_mark};
ghost use Rattle.dart_types.specs.Sizes.{size_of};
ghost use Rattle.dart_types.specs.Parts.{HasType};
ghost use Rattle.dart_types.specs.Measure.{measure, weight_of, deepness_of, heaviest_of, rank_of};
ghost use Rattle.dart_types.specs.Scope.{IsInScope, IsWithinBounds};
ghost use Rattle.dart_types.specs.Sub.{Sub, HasNamed, is_required, required_in};
ghost use Rattle.dart_types.specs.SubTest.{sub};
ghost use Rattle.dart_types.specs.Superinterfaces.{IsSuperinterface, Keeps, FormsTooLarge, LeavesNothingOut};
ghost use Rattle.dart_types.specs.Kept.{kept_of, forms_too_large};
ghost use Rattle.dart_types.specs.Tables.{Table, class_of, bound_of, depth_of, head_depth};
ghost use Rattle.dart_types.specs.Unions.{Extends, IsUnion, IsView, AreViewsOfOne, HasClassOf, HasVarOf};
ghost use Rattle.dart_types.specs.WellFormed.{IsSupertype, IsEarlier, IsOver, IsFormedClass};
ghost use Rattle.dart_types.specs.declared.ids.ClassId.{ClassId};
ghost use Rattle.dart_types.specs.declared.ids.LibId.{LibId};
ghost use Rattle.dart_types.specs.declared.ids.VarId.{VarId};
ghost use Rattle.dart_types.specs.declared.class_rows.ClassRow.{ClassRow};
ghost use Rattle.dart_types.specs.declared.types.NamedType.{NamedType};
ghost use Rattle.dart_types.specs.Substitution.{put, put_all, by_params};
ghost use Rattle.dart_types.specs.CoreClasses.{named_classes, places_of_named_classes};
ghost use Rattle.dart_types.specs.declared.ids.TheConstants.{CORE, OBJECT, FUNCTION, NO_LIBRARY};
ghost use Rattle.dart_types.specs.declared.refusal.TheConstants.{NODE_LIMIT};

use crate::rows::Rows;

/// The numbers that rules name: 4,096 types may stand in a type, and `Object` and `Function` are the
/// first and the fourth class of library 0, which is `dart:core`; so it is with its other classes that
/// rules name.
pub fn constants_are_those_of_the_rules()
    ensures limit { NODE_LIMIT ≡ 4096 }
    ensures object { OBJECT ≡ record { lib = record { 0 = 0 }; index = 0 } }
    ensures function { FUNCTION ≡ record { lib = record { 0 = 0 }; index = 3 } }
    ensures core { All (λ class. class.lib ≡ CORE) named_classes }
    ensures places { map (λ class. class.index) named_classes ≡ places_of_named_classes }
{}

/// The tests whether two ids or two types are the same hold exactly of equal ones.
pub fn equality_laws()
    ensures classes { (c d : ClassId) → IsTrue (same_class c d) ↔ (c ≡ d) }
    ensures vars { (x y : VarId) → IsTrue (same_var x y) ↔ (x ≡ y) }
    ensures types { (s t : Ty) → IsTrue (same_type s t) ↔ (s ≡ t) }
    ensures lists { (ss ts : Types) → IsTrue (same_types ss ts) ↔ (ss ≡ ts) }
    ensures named { (ms ns : Named) → IsTrue (same_named ms ns) ↔ (ms ≡ ns) }
{}

/// The tests of the forms that single rules speak of hold exactly of `Object`, of `Function`, and of
/// `void` and `Object?`.
pub fn form_laws()
    ensures object { (t : Ty) → IsTrue (is_object t) ↔ (t ≡ object) }
    ensures function { (t : Ty) → IsTrue (is_function_class t) ↔ (t ≡ interface FUNCTION no_more) }
    ensures top { (t : Ty) → IsTrue (is_top t) ↔ ((t ≡ void) ⊎ (t ≡ nullable object)) }
{}

/// How many types there are: as many as in the list that they are made of, and as many as before in
/// normal form and with types put in.
pub fn count_laws()
    ensures listed { (ts : List Ty) → count (types_of ts) ≡ length ts }
    ensures normal { (ts : Types) → count (normal_all ts) ≡ count ts }
    ensures put { (σ : VarId → Ty) (ts : Types) → count (put_all σ ts) ≡ count ts }
{}

/// A `?` that stays in the normal form is one node more, and one that doesn't is none.
pub fn size_laws()
    ensures marked { (t : Ty) → takes_mark t ≡ true → size_of (nullable_of t) ≡ size_of t + 1 }
    ensures unmarked { (t : Ty) → takes_mark t ≡ false → size_of (nullable_of t) ≡ size_of t }
{}

/// One list of named parameters requires no more than another exactly where the other requires each name
/// that it does. Of parameters in order the one of a name tells whether the name is required.
pub fn named_parameter_laws()
    ensures required { (ts us : Named) → IsTrue (required_in ts us) ↔ ((m : List ℕ) → IsTrue (is_required ts m) → IsTrue (is_required us m)) }
    ensures found { (ns : List NamedType) (m : List ℕ) (n : NamedType) → AreInOrder (names_of ns)
        → find (λ k. bytes_eq k.name m) ns ≡ Some n → is_required (named_of ns) m ≡ n.required }
{}

/// The row of a class has its id and is well formed; a direct supertype is an interface over the
/// parameters of the class and over the rows, and less far from `Object`.
pub fn class_row_laws(_rows: &Rows)
    ensures ids { (c : ClassId) (row : ClassRow) → class_of _rows.now.table c ≡ Some row → row.id ≡ c }
    ensures formed { (c : ClassId) (row : ClassRow) → class_of _rows.now.table c ≡ Some row → IsFormedClass _rows.now.table row }
    ensures supertypes { (c : ClassId) (row : ClassRow) (v : Ty) → class_of _rows.now.table c ≡ Some row → Contains row.supers v
        → IsSupertype row.params v × IsOver _rows.now.table v }
    ensures depths { (c : ClassId) (row : ClassRow) (v : Ty) → class_of _rows.now.table c ≡ Some row → Contains row.supers v
        → head_depth _rows.now.table v + 1 ≤ depth_of _rows.now.table c }
{}

/// A variable that has a bound is of a library. Its bound holds earlier variables alone, is over the rows,
/// and is lighter and less deep than the variable.
pub fn bound_laws(_rows: &Rows)
    ensures declared { (x : VarId) (b : Ty) → bound_of _rows.now.table x ≡ Some b → x.lib ≢ NO_LIBRARY }
    ensures earlier { (x : VarId) (b : Ty) → bound_of _rows.now.table x ≡ Some b → IsEarlier x b }
    ensures over { (x : VarId) (b : Ty) → bound_of _rows.now.table x ≡ Some b → IsOver _rows.now.table b }
    ensures weights { (x : VarId) (b : Ty) → bound_of _rows.now.table x ≡ Some b
        → weight_of _rows.now.table b + 1 ≤ weight_of _rows.now.table (variable x) }
    ensures deepness { (x : VarId) (b : Ty) → bound_of _rows.now.table x ≡ Some b
        → deepness_of _rows.now.table b + 1 ≤ deepness_of _rows.now.table (variable x) }
{}

/// A superinterface is an interface over the parameters of the class that has it, with as many arguments
/// as its class has parameters; and a superinterface of its class is one too, with the arguments put in.
pub fn superinterface_laws(_rows: &Rows)
    ensures supertypes { (c : ClassId) (row : ClassRow) (v : Ty) → class_of _rows.now.table c ≡ Some row
        → IsSuperinterface _rows.now.table c v → IsSupertype row.params v }
    ensures counted { (c d : ClassId) (ts : Types) (row : ClassRow) → class_of _rows.now.table d ≡ Some row
        → IsSuperinterface _rows.now.table c (interface d ts) → count ts ≡ length row.params }
    ensures further { (c d : ClassId) (ts : Types) (row : ClassRow) (v : Ty) → class_of _rows.now.table d ≡ Some row
        → IsSuperinterface _rows.now.table c (interface d ts) → IsSuperinterface _rows.now.table d v
        → IsSuperinterface _rows.now.table c (put (by_params row.params ts) v) }
{}

/// A class keeps superinterfaces alone, those that are computed, and all where nothing is left out: where no
/// class forms one that is too large, for which there is a test that computes.
pub fn kept_laws(_rows: &Rows)
    ensures kept { (c : ClassId) (v : Ty) → Keeps _rows.now.table c v → IsSuperinterface _rows.now.table c v × (size_of (normal v) ≤ NODE_LIMIT) }
    ensures all_kept { LeavesNothingOut _rows.now.table → (c : ClassId) (v : Ty) → IsSuperinterface _rows.now.table c v → Keeps _rows.now.table c v }
    ensures nothing_out { LeavesNothingOut _rows.now.table ↔ ((c : ClassId) → FormsTooLarge _rows.now.table c → ⊥) }
    ensures computed { (c : ClassId) (v : Ty) → Keeps _rows.now.table c v ↔ Contains (kept_of _rows.now.table c) v }
    ensures told { (c : ClassId) → IsTrue (forms_too_large _rows.now.table c) ↔ FormsTooLarge _rows.now.table c }
{}

/// A type is a subtype of itself. A nullable type is a subtype of what its bare type and Null are subtypes
/// of, and of nothing else. A class with arguments is a subtype of each superinterface that it keeps, with
/// the arguments put in. Where rows leave nothing out, a type is a subtype of all that a supertype of it is
/// a subtype of, and a class with arguments of all that a superinterface of it is, with the arguments put in.
pub fn subtype_laws(_rows: &Rows)
    ensures reflexive { (t : Ty) → Sub _rows.now.table t t }
    ensures nullable { (s t : Ty) → Sub _rows.now.table (nullable s) t ↔ (Sub _rows.now.table s t × Sub _rows.now.table null t) }
    ensures kept { (c : ClassId) (ss : Types) (row : ClassRow) (v : Ty) → class_of _rows.now.table c ≡ Some row
        → count ss ≡ length row.params → Keeps _rows.now.table c v
        → Sub _rows.now.table (interface c ss) (put (by_params row.params ss) v) }
    ensures transitive { LeavesNothingOut _rows.now.table
        → (s t u : Ty) → Sub _rows.now.table s t → Sub _rows.now.table t u → Sub _rows.now.table s u }
    ensures superinterfaces { LeavesNothingOut _rows.now.table
        → (c : ClassId) (ss : Types) (row : ClassRow) (v t : Ty) → class_of _rows.now.table c ≡ Some row
        → count ss ≡ length row.params → IsSuperinterface _rows.now.table c v
        → Sub _rows.now.table (put (by_params row.params ss) v) t → Sub _rows.now.table (interface c ss) t }
{}

/// The test that definitions compute holds exactly where the rules have a derivation.
pub fn subtype_test_law(_rows: &Rows)
    ensures { (s t : Ty) → IsTrue (sub _rows.now.table s t) ↔ Sub _rows.now.table s t }
{}

/// The measure of two types falls from the sides of each rule of subtyping to those of its premises, and
/// on the way up to any superinterface. It doesn't rise where the left type gives way to one that is
/// neither heavier nor deeper, and as far from `Object`.
pub fn measure_laws(_rows: &Rows)
    ensures left_nullable { (s t : Ty) → measure _rows.now.table s t < measure _rows.now.table (nullable s) t }
    ensures right_nullable { (s t : Ty) → measure _rows.now.table s t < measure _rows.now.table s (nullable t) }
    ensures left_promoted { (x : VarId) (s t : Ty) → (measure _rows.now.table (variable x) t < measure _rows.now.table (promoted x s) t)
        × (measure _rows.now.table s t < measure _rows.now.table (promoted x s) t) }
    ensures right_promoted { (x : VarId) (s t : Ty) → (measure _rows.now.table s (variable x) < measure _rows.now.table s (promoted x t))
        × (measure _rows.now.table s t < measure _rows.now.table s (promoted x t)) }
    ensures bounds { (x : VarId) (b t : Ty) → bound_of _rows.now.table x ≡ Some b
        → measure _rows.now.table b t < measure _rows.now.table (variable x) t }
    ensures superinterfaces { (c : ClassId) (ss : Types) (row : ClassRow) (v t : Ty) → class_of _rows.now.table c ≡ Some row
        → count ss ≡ length row.params → IsSuperinterface _rows.now.table c v
        → measure _rows.now.table (put (by_params row.params ss) v) t < measure _rows.now.table (interface c ss) t }
    ensures arguments { (c d : ClassId) (ss ts : Types) (s t : Ty) → HasType ss s → HasType ts t
        → measure _rows.now.table s t < measure _rows.now.table (interface c ss) (interface d ts) }
    ensures parameters { (r o r' o' : Types) (n n' : Named) (e e' s t : Ty) → HasType (join r o) s → HasType (join r' o') t
        → measure _rows.now.table t s < measure _rows.now.table (function r o n e) (function r' o' n' e') }
    ensures named { (r o r' o' : Types) (n n' : Named) (e e' : Ty) (l m : List ℕ) (s t : Ty) → HasNamed n l s → HasNamed n' m t
        → measure _rows.now.table t s < measure _rows.now.table (function r o n e) (function r' o' n' e') }
    ensures results { (r o r' o' : Types) (n n' : Named) (e e' : Ty)
        → measure _rows.now.table e e' < measure _rows.now.table (function r o n e) (function r' o' n' e') }
    ensures no_rise { (s s' t : Ty) → heaviest_of _rows.now.table s' ≤ heaviest_of _rows.now.table s
        → deepness_of _rows.now.table s' ≤ deepness_of _rows.now.table s → rank_of _rows.now.table s' ≡ rank_of _rows.now.table s
        → measure _rows.now.table s' t ≤ measure _rows.now.table s t }
{}

/// A type and its normal form are subtypes of each other, and a normal form is its own. Types put into a
/// normal form give the normal form that they give put into the type.
pub fn normal_form_laws(_rows: &Rows)
    ensures below { (t : Ty) → Sub _rows.now.table t (normal t) }
    ensures above { (t : Ty) → Sub _rows.now.table (normal t) t }
    ensures settled { (t : Ty) → normal (normal t) ≡ normal t }
    ensures put { (σ : VarId → Ty) (t : Ty) → normal (put σ (normal t)) ≡ normal (put σ t) }
{}

/// Where rows leave nothing out, types over the variables in scope stay subtypes where each variable is
/// replaced by a type within its bound.
pub fn substitution_keeps_subtypes(_rows: &Rows)
    requires { LeavesNothingOut _rows.now.table }
    ensures { (scope : List VarId) (σ : VarId → Ty) (s t : Ty) → IsWithinBounds scope σ _rows.now.table → IsInScope scope σ s → IsInScope scope σ t
        → Sub _rows.now.table s t → Sub _rows.now.table (put σ s) (put σ t) }
{}

/// The laws of rows as one value, for functions of crates above whose proofs go by several.
pub fn row_laws(_rows: &Rows)
    ensures { RowLaws _rows.now.table }
{}

/// More rows change nothing: types over the smaller rows are over the larger ones too, and there the
/// same types are their subtypes, the rows of their classes are the same, and so are superinterfaces,
/// those that are kept, and bounds.
pub fn more_rows_laws(_small: &Rows, _large: &Rows)
    requires { Extends _small.now.table _large.now.table }
    ensures over { (t : Ty) → IsOver _small.now.table t → IsOver _large.now.table t }
    ensures subtypes { (s t : Ty) → IsOver _small.now.table s → IsOver _small.now.table t
        → Sub _small.now.table s t ↔ Sub _large.now.table s t }
    ensures rows { (c : ClassId) → IsSome (class_of _small.now.table c) → class_of _small.now.table c ≡ class_of _large.now.table c }
    ensures bounds { (x : VarId) → IsSome (bound_of _small.now.table x) → bound_of _small.now.table x ≡ bound_of _large.now.table x }
    ensures superinterfaces { (c : ClassId) (v : Ty) → IsSome (class_of _small.now.table c)
        → IsSuperinterface _small.now.table c v ↔ IsSuperinterface _large.now.table c v }
    ensures kept { (c : ClassId) (v : Ty) → IsSome (class_of _small.now.table c) → Keeps _small.now.table c v ↔ Keeps _large.now.table c v }
{}

/// What larger rows leave as it is, as one value.
pub fn wider_rows_laws(_small: &Rows, _large: &Rows)
    requires { Extends _small.now.table _large.now.table }
    ensures { MoreRows _small.now.table _large.now.table }
{}

/// A union has the rows of both; and where both are views of one table it is one too, so that it may be
/// united with further ones.
pub fn union_laws(_a: &Rows, _b: &Rows, _union: &Rows)
    requires { IsUnion _a.now.table _b.now.table _union.now.table }
    ensures left { Extends _a.now.table _union.now.table }
    ensures right { Extends _b.now.table _union.now.table }
    ensures views { (whole : Table) → IsView _a.now.table whole → IsView _b.now.table whole → IsView _union.now.table whole }
{}

/// Rows and a view of them are views of one table, so that they may be united.
pub fn view_law(_view: &Rows, _rows: &Rows)
    requires { IsView _view.now.table _rows.now.table }
    ensures { AreViewsOfOne _view.now.table _rows.now.table }
{}

/// Two that have the same rows below, and further ones of different libraries, are views of one table,
/// so that they may be united.
pub fn views_law(_below: &Rows, _left: &Rows, _right: &Rows)
    requires left { IsView _below.now.table _left.now.table }
    requires right { IsView _below.now.table _right.now.table }
    requires classes { (lib : LibId) → HasClassOf _left.now.table lib → HasClassOf _right.now.table lib → HasClassOf _below.now.table lib }
    requires vars { (lib : LibId) → HasVarOf _left.now.table lib → HasVarOf _right.now.table lib → HasVarOf _below.now.table lib }
    ensures { AreViewsOfOne _left.now.table _right.now.table }
{}
