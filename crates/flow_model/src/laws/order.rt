//! Which model says at least as much as which, and which steps keep that.

ghost use Rattle.std.specs.Prelude.{◌≡◌, List, IsNone, [], ◌∷◌};
ghost use Rattle.dart_types.specs.Ty.{Ty};
ghost use Rattle.flow_model.specs.Flow.{FlowModel, PromotesNoCaptured, at_local, current_in, declare_of, end_of, facts_of};
ghost use Rattle.flow_model.specs.Promote.{append_facts, non_null_facts, promote_facts};
ghost use Rattle.flow_model.specs.Assign.{assign_facts};
ghost use Rattle.flow_model.specs.Join.{HaveSameScope, join_of};
ghost use Rattle.flow_model.specs.Restrict.{restrict_of};
ghost use Rattle.flow_model.specs.Steps.{conservative_of, exit_of};
ghost use Rattle.flow_model.specs.Order.{Implies, kept_in, tested_in};
ghost use Rattle.flow_model.specs.declared.locals.LocalDecl.{LocalDecl};
ghost use Rattle.flow_model.specs.declared.locals.LocalId.{LocalId};

use dart_types::Rows;

/// A model implies itself, and all that a model implies which it implies.
pub fn models_are_ordered()
    ensures reflexive { (a : FlowModel) → Implies a a }
    ensures transitive { (a b c : FlowModel) → Implies a b → Implies b c → Implies a c }
{}

/// Both of two paths imply the model where they meet; and this implies each model that both imply, if
/// that promotes no captured local. So it is the most that may be said there.
pub fn both_ends_imply_their_join()
    ensures first { (a b : FlowModel) → HaveSameScope a b → Implies a (join_of a b) }
    ensures second { (a b : FlowModel) → HaveSameScope a b → Implies b (join_of a b) }
    ensures most { (a b k : FlowModel) → HaveSameScope a b → PromotesNoCaptured k → Implies a k → Implies b k → Implies (join_of a b) k }
{}

/// These steps keep which of two models implies the other.
pub fn steps_keep_the_order()
    ensures declare { (a b : FlowModel) (local : LocalDecl) → Implies a b → Implies (declare_of a local) (declare_of b local) }
    ensures end { (a b : FlowModel) (vars : List LocalId) → Implies a b → Implies (end_of a vars) (end_of b vars) }
    ensures exit { (a b : FlowModel) → Implies (exit_of a) (exit_of b) }
    ensures conservative_join { (a b : FlowModel) (written captured : List LocalId) → Implies a b
        → Implies (conservative_of a written captured) (conservative_of b written captured) }
    ensures join { (a b c d : FlowModel) → HaveSameScope a b → HaveSameScope c d → Implies a c → Implies b d
        → Implies (join_of a b) (join_of c d) }
{}

/// A test keeps which of two models implies the other, where the local has one current type in both.
///
/// Where it hasn't, it may not: of a local of type `Object?` that is known to be an `int?` in the one
/// model alone, `x != null` tells the one that it is an `int`, and the other that it is an `Object`,
/// which stands in no chain of the one. What the one knew before it still knows
/// (`steps_say_more_or_less`).
pub fn tests_keep_the_order(_rows: &Rows)
    ensures promote { (a b : FlowModel) (var : LocalId) (to : Ty) → current_in a var ≡ current_in b var → Implies a b
        → Implies (at_local a var (promote_facts _rows.now.table to)) (at_local b var (promote_facts _rows.now.table to)) }
    ensures non_null { (a b : FlowModel) (var : LocalId) → current_in a var ≡ current_in b var → Implies a b
        → Implies (at_local a var (non_null_facts _rows.now.table)) (at_local b var (non_null_facts _rows.now.table)) }
    ensures append { (a b : FlowModel) (var : LocalId) (to : Ty) → current_in a var ≡ current_in b var → Implies a b
        → Implies (at_local a var (append_facts _rows.now.table to)) (at_local b var (append_facts _rows.now.table to)) }
{}

/// A write keeps which of two models implies the other, where the local was tested for the same types
/// in both, and has the same type of those that the written value has.
///
/// Where it was tested for more in the one, that may be promoted to another type; so it may where it
/// is left with another type, as above.
pub fn writes_keep_the_order(_rows: &Rows)
    ensures { (a b : FlowModel) (var : LocalId) (written : Ty) → tested_in a var ≡ tested_in b var
        → kept_in _rows.now.table written a var ≡ kept_in _rows.now.table written b var → Implies a b
        → Implies (at_local a var (assign_facts _rows.now.table written)) (at_local b var (assign_facts _rows.now.table written)) }
{}

/// What is known behind a body and a `finally` block keeps which models imply which, where the models
/// behind the bodies give each local the same current type.
///
/// Where they don't, it may not: a type that the block tells is added to the chain of the body where
/// it is a proper subtype of the current type there, and it may be one in the weaker model alone.
pub fn restrict_keeps_the_order(_rows: &Rows)
    ensures { (a b c d : FlowModel) (written captured : List LocalId) → HaveSameScope a b → HaveSameScope c d
        → ((var : LocalId) → current_in a var ≡ current_in c var) → Implies a c → Implies b d
        → Implies (restrict_of _rows.now.table a b written captured) (restrict_of _rows.now.table c d written captured) }
{}

/// What is known behind a body and a `finally` block implies what the model behind the body implies,
/// but for what the block changes, if the model behind the block implies that too.
pub fn restrict_says_what_both_say(_rows: &Rows)
    ensures { (a b k : FlowModel) (written captured : List LocalId) → HaveSameScope a b → PromotesNoCaptured k
        → Implies a k → Implies b (conservative_of k written captured)
        → Implies (restrict_of _rows.now.table a b written captured) (conservative_of k written captured) }
{}

/// A test says more than was known before; a write more than was known but for what it changes. A
/// model implies what is left of it around code, and without locals whose scope ends; one that isn't
/// reached implies every model.
pub fn steps_say_more_or_less(_rows: &Rows)
    ensures declare { (m : FlowModel) (local : LocalDecl) → IsNone (facts_of m local.var) → Implies (declare_of m local) m }
    ensures promote { (m : FlowModel) (var : LocalId) (to : Ty) → Implies (at_local m var (promote_facts _rows.now.table to)) m }
    ensures non_null { (m : FlowModel) (var : LocalId) → Implies (at_local m var (non_null_facts _rows.now.table)) m }
    ensures append { (m : FlowModel) (var : LocalId) (to : Ty) → Implies (at_local m var (append_facts _rows.now.table to)) m }
    ensures assign { (m : FlowModel) (var : LocalId) (written : Ty)
        → Implies (at_local m var (assign_facts _rows.now.table written)) (conservative_of m (var ∷ []) []) }
    ensures end { (m : FlowModel) (vars : List LocalId) → Implies m (end_of m vars) }
    ensures conservative_join { (m : FlowModel) (written captured : List LocalId) → Implies m (conservative_of m written captured) }
    ensures exit { (m k : FlowModel) → Implies (exit_of m) k }
{}
