//! What is known where two models meet.

ghost use Rattle.std.specs.Prelude.{◌≡◌, List, Some};
ghost use Rattle.dart_types.specs.Ty.{Ty};
ghost use Rattle.flow_model.specs.TypeTests.{is_in};
ghost use Rattle.flow_model.specs.Flow.{FlowModel, PromotesNoCaptured, facts_of};
ghost use Rattle.flow_model.specs.Join.{BothReach, HaveSameScope, join_facts, join_of, promoted_on_both};
ghost use Rattle.flow_model.specs.Restrict.{restrict_facts, restrict_of};
ghost use Rattle.flow_model.specs.declared.locals.Facts.{Facts};
ghost use Rattle.flow_model.specs.declared.locals.LocalId.{LocalId};

use dart_types::Rows;

/// What is known of a local where two reached paths meet is joined from what is known of it on
/// each.
pub fn join_knows_each_local()
    ensures { (a b : FlowModel) (var : LocalId) → BothReach a b → (l m : Facts) → facts_of a var ≡ Some l → facts_of b var ≡ Some m
        → facts_of (join_of a b) var ≡ Some (join_facts l m) }
{}

/// Where two paths meet a local is promoted to what it was promoted to on both of them, unless it
/// is captured on one.
pub fn join_promotes_to_what_both_do()
    ensures { (l m : Facts) (t : Ty) → is_in (join_facts l m).chain t ≡ promoted_on_both l m t }
{}

/// Which of two paths is the first matters for no more than the order of the types.
pub fn join_commutes()
    ensures chain { (l m : Facts) (t : Ty) → is_in (join_facts l m).chain t ≡ is_in (join_facts m l).chain t }
    ensures tested { (l m : Facts) (t : Ty) → is_in (join_facts l m).tested t ≡ is_in (join_facts m l).tested t }
    ensures assigned { (l m : Facts) → (join_facts l m).assigned ≡ (join_facts m l).assigned }
    ensures unassigned { (l m : Facts) → (join_facts l m).unassigned ≡ (join_facts m l).unassigned }
    ensures captured { (l m : Facts) → (join_facts l m).captured ≡ (join_facts m l).captured }
{}

/// Two paths with the same model meet in that model, where no captured local is promoted.
pub fn join_with_itself_changes_nothing()
    ensures { (m : FlowModel) → PromotesNoCaptured m → join_of m m ≡ m }
{}

/// What is known of a local behind a body and a `finally` block is made of what is known of it
/// behind each.
pub fn restrict_knows_each_local(_rows: &Rows)
    ensures { (a b : FlowModel) (written captured : List LocalId) (var : LocalId) → HaveSameScope a b
        → (l m : Facts) → facts_of a var ≡ Some l → facts_of b var ≡ Some m
        → facts_of (restrict_of _rows.now.table a b written captured) var ≡ Some (restrict_facts _rows.now.table written captured l m) }
{}
