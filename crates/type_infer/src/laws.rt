//! Laws of inference, for all well-formed rows and all pairs of types.

ghost use Rattle.std.specs.Prelude.{◌≡◌, ◌↔◌, ℕ, List, [], length, slice_index_or, All, IfSome, Option, Ok, Err, Result};
ghost use Rattle.dart_types.specs.Ty.{Ty, invalid, interface, variable, no_more};
ghost use Rattle.dart_types.specs.Unions.{Extends};
ghost use Rattle.dart_types.specs.WellFormed.{IsOver};
ghost use Rattle.type_infer.specs.Pairs.{Pair};
ghost use Rattle.type_infer.specs.Contexts.{ContextOf};
ghost use Rattle.type_infer.specs.Inference.{pairs_of, Inferred};
ghost use Rattle.type_infer.specs.InferenceOf.{inferred_of, context_of_argument};
ghost use Rattle.type_infer.specs.Matching.{End, Match};
ghost use Rattle.type_infer.specs.MatchOf.{match_of};
ghost use Rattle.type_infer.specs.Reached.{HasNoSolution, IsUnconstrained};
ghost use Rattle.type_infer.specs.Within.{AreWithinBounds};
ghost use Rattle.type_infer.specs.declared.constraints.Constraint.{Constraint};
ghost use Rattle.type_infer.specs.declared.constraints.Side.{Side};
ghost use Rattle.type_infer.specs.declared.refusal.InferRefusal.{InferRefusal};
ghost use Rattle.type_infer.specs.declared.refusal.InferRefusal.TheVariants.{NoSolution, Unconstrained};
ghost use Rattle.dart_types.specs.declared.ids.VarId.{VarId};
ghost use Rattle.dart_types.specs.declared.ids.TheConstants.{FUNCTION};

use dart_types::{Rows, VarId};
use type_bounds::{bound_table_laws, wider_bounds_laws};

/// The constraints, the arguments and the contexts that are computed are those that the rules derive,
/// each of them one and no other; so it is with each refusal.
pub fn answers_are_those_of_the_rules(_rows: &Rows, _params: &[VarId])
    ensures matched { (side : Side) (t s : Ty) (cs : List Constraint) (end : End) → let found = match_of _rows.now.table _params.now side t s in
        Match _rows.now.table _params.now side t s cs end ↔ ((cs ≡ found.constraints) × (end ≡ found.end)) }
    ensures inferred { (returned : Ty) (context : Option Ty) (formals actuals : List Ty) (a : Result (List Ty) InferRefusal) → let table = _rows.now.table in
        Inferred table _params.now (pairs_of returned context formals actuals) a ↔ (a ≡ inferred_of table _params.now returned context formals actuals) }
    ensures context { (returned : Ty) (context : Option Ty) (formals done : List Ty) (a : Result Ty ℕ) → let table = _rows.now.table in
        let So = ContextOf table _params.now (pairs_of returned context formals done) (slice_index_or formals (length done) invalid) in
        So a ↔ (a ≡ context_of_argument table _params.now returned context formals done) }
{
    bound_table_laws(_rows);
}

/// There is one argument for each parameter, and each is within the bound of its parameter, in which
/// the arguments of those before it are put in.
pub fn inferred_arguments_are_within_bounds(_rows: &Rows, _params: &[VarId])
    ensures { (pairs : List Pair) (ts : List Ty) → Inferred _rows.now.table _params.now pairs (Ok ts) → AreWithinBounds _rows.now.table [] _params.now ts }
{}

/// The rules derive one answer at most: no others than these arguments, and no arguments where they
/// refuse a call.
pub fn inferred_arguments_are_unique(_rows: &Rows, _params: &[VarId])
    ensures { (pairs : List Pair) (a b : Result (List Ty) InferRefusal) → let So = Inferred _rows.now.table _params.now pairs in So a → So b → a ≡ b }
{
    bound_table_laws(_rows);
}

/// `NoSolution` and `Unconstrained` come exactly for the first parameter that has no argument: for one
/// whose solution isn't within its bound, in which the arguments of those before it are put in, and
/// for one that nothing constrains and that has no bound but `Object?`.
pub fn refusals_are_for_the_first_parameter(_rows: &Rows, _params: &[VarId])
    ensures no_solution { (pairs : List Pair) (x : VarId) → let table = _rows.now.table in
        Inferred table _params.now pairs (Err (NoSolution x)) ↔ HasNoSolution table _params.now pairs x }
    ensures unconstrained { (pairs : List Pair) (x : VarId) → let table = _rows.now.table in
        Inferred table _params.now pairs (Err (Unconstrained x)) ↔ IsUnconstrained table _params.now pairs x }
{}

/// The rules derive one context of an argument at most.
pub fn contexts_are_unique(_rows: &Rows, _params: &[VarId])
    ensures { (pairs : List Pair) (formal : Ty) (a b : Result Ty ℕ) → let So = ContextOf _rows.now.table _params.now pairs formal in So a → So b → a ≡ b }
{
    bound_table_laws(_rows);
}

/// More rows change nothing: of types over the smaller rows, which have `Function` and a bound for each
/// parameter, the larger ones infer the same arguments and contexts.
pub fn more_rows_laws(_small: &Rows, _large: &Rows, _params: &[VarId])
    requires extends { Extends _small.now.table _large.now.table }
    requires function { IsOver _small.now.table (interface FUNCTION no_more) }
    requires params { All (λ x. IsOver _small.now.table (variable x)) _params.now }
    ensures inferred { (returned : Ty) (context : Option Ty) (formals actuals : List Ty) → let small = _small.now.table in
        IsOver small returned → IfSome context (IsOver small) → All (IsOver small) formals → All (IsOver small) actuals
        → inferred_of small _params.now returned context formals actuals ≡ inferred_of _large.now.table _params.now returned context formals actuals }
    ensures context { (returned : Ty) (context : Option Ty) (formals done : List Ty) → let small = _small.now.table in
        IsOver small returned → IfSome context (IsOver small) → All (IsOver small) formals → All (IsOver small) done
        → context_of_argument small _params.now returned context formals done ≡ context_of_argument _large.now.table _params.now returned context formals done }
{
    bound_table_laws(_small);
    bound_table_laws(_large);
    wider_bounds_laws(_small, _large);
}
