//! Whether own rows are well formed over those below.

ghost use Rattle.std.specs.Prelude.{◌≡◌, ◌≢◌, ◌↔◌, ◌∷◌, [], All, AllPairs, IsTrue, true};
ghost use Rattle.dart_types.specs.Heads.{object};
ghost use Rattle.dart_types.specs.Tables.{depth_of, head_depth, depth_above};
ghost use Rattle.dart_types.specs.WellFormed.{class_before, var_before, IsFormedClass, IsFormedVar};
ghost use Rattle.dart_types.specs.Unions.{beside, IsFormedOver, HasClassOf, HasVarOf};
ghost use Rattle.dart_types.specs.declared.ids.TheConstants.{OBJECT, FUNCTION};

use crate::class_rows::{ClassRow, VarRow};
use crate::ids::{ClassId, FUNCTION, NO_LIBRARY, OBJECT, VarId};
use crate::row_lookups::row_beside;
use crate::rows::Rows;
use crate::types::{DartType, TypeNode};

impl Rows {
    /// Whether own rows of these classes and type variables are well formed over these, so that
    /// `extend` takes them. It takes no memory.
    pub fn takes(&self, classes: &[ClassRow], vars: &[VarRow]) -> bool
        ensures { IsTrue result ↔ IsFormedOver self.now.table (record { classes = classes.now; vars = vars.now }) }
    {
        if !are_classes_in_order(classes) {
            return false;
        }
        if !are_vars_in_order(vars) {
            return false;
        }
        if !are_classes_apart(self, classes) {
            return false;
        }
        if !are_vars_apart(self, vars) {
            return false;
        }
        if !are_formed_classes(self, classes, vars) {
            return false;
        }
        are_formed_vars(self, classes, vars)
    }
}

// Whether the libraries of the classes have none below.
fn are_classes_apart(below: &Rows, classes: &[ClassRow]) -> bool
    ensures { IsTrue result ↔ All (λ row. HasClassOf below.now.table row.id.lib → ⊥) classes.now }
{
    for row in classes {
        if below.has_classes_of(row.id.lib) {
            return false;
        }
    }
    true
}

// Whether the libraries of the type variables have none below.
fn are_vars_apart(below: &Rows, vars: &[VarRow]) -> bool
    ensures { IsTrue result ↔ All (λ row. HasVarOf below.now.table row.var.lib → ⊥) vars.now }
{
    for row in vars {
        if below.has_vars_of(row.var.lib) {
            return false;
        }
    }
    true
}

// Whether the ids of the classes rise.
fn are_classes_in_order(classes: &[ClassRow]) -> bool
    ensures { IsTrue result ↔ AllPairs (λ a b. class_before a.id b.id ≡ true) classes.now }
{
    for i in 1..classes.len() {
        if !is_class_before(classes[i - 1].id, classes[i].id) {
            return false;
        }
    }
    true
}

// Whether the ids of the type variables rise.
fn are_vars_in_order(vars: &[VarRow]) -> bool
    ensures { IsTrue result ↔ AllPairs (λ a b. var_before a.var b.var ≡ true) vars.now }
{
    for i in 1..vars.len() {
        if !is_var_before(vars[i - 1].var, vars[i].var) {
            return false;
        }
    }
    true
}

// Whether the first class stands before the second.
fn is_class_before(c: ClassId, d: ClassId) -> bool
    ensures { result ≡ class_before c d }
{
    c < d
}

// Whether the first variable stands before the second.
fn is_var_before(x: VarId, y: VarId) -> bool
    ensures { result ≡ var_before x y }
{
    x < y
}

// Whether the row of each class is well formed among the others.
fn are_formed_classes(below: &Rows, classes: &[ClassRow], vars: &[VarRow]) -> bool
    requires classes_in_order { AllPairs (λ a b. class_before a.id b.id ≡ true) classes.now }
    requires vars_in_order { AllPairs (λ a b. var_before a.var b.var ≡ true) vars.now }
    ensures { IsTrue result ↔ All (IsFormedClass (beside below.now.table (record { classes = classes.now; vars = vars.now }))) classes.now }
{
    for row in classes {
        if !is_formed_class(below, row, classes, vars) {
            return false;
        }
    }
    true
}

// Whether the row of each type variable is well formed among the others.
fn are_formed_vars(below: &Rows, classes: &[ClassRow], vars: &[VarRow]) -> bool
    requires classes_in_order { AllPairs (λ a b. class_before a.id b.id ≡ true) classes.now }
    requires vars_in_order { AllPairs (λ a b. var_before a.var b.var ≡ true) vars.now }
    ensures { IsTrue result ↔ All (IsFormedVar (beside below.now.table (record { classes = classes.now; vars = vars.now }))) vars.now }
{
    for row in vars {
        if !is_formed_var(below, row, classes, vars) {
            return false;
        }
    }
    true
}

// Whether the row of a type variable is well formed among the others.
fn is_formed_var(below: &Rows, row: &VarRow, classes: &[ClassRow], vars: &[VarRow]) -> bool
    requires classes_in_order { AllPairs (λ a b. class_before a.id b.id ≡ true) classes.now }
    requires vars_in_order { AllPairs (λ a b. var_before a.var b.var ≡ true) vars.now }
    ensures { IsTrue result ↔ IsFormedVar (beside below.now.table (record { classes = classes.now; vars = vars.now })) row.now }
{
    if row.var.lib == NO_LIBRARY {
        return false;
    }
    if !row.bound.is_earlier(row.var) {
        return false;
    }
    row.bound.is_over(below, classes, vars)
}

// Whether the row of a class is well formed among the others.
fn is_formed_class(below: &Rows, row: &ClassRow, classes: &[ClassRow], vars: &[VarRow]) -> bool
    requires classes_in_order { AllPairs (λ a b. class_before a.id b.id ≡ true) classes.now }
    requires vars_in_order { AllPairs (λ a b. var_before a.var b.var ≡ true) vars.now }
    ensures { IsTrue result ↔ IsFormedClass (beside below.now.table (record { classes = classes.now; vars = vars.now })) row.now }
{
    if !is_rooted(row) {
        return false;
    }
    if !has_its_parameters(row) {
        return false;
    }
    if !row.supers.are_supertypes(row.params.as_slice()) {
        return false;
    }
    if !row.supers.are_over(below, classes, vars) {
        return false;
    }
    u128::from(row.depth) == depth_over(below, classes, row.supers.as_slice())
}

// Whether the class is `Object` and has no supertype, or is `Function` and has `Object` alone, or is
// another class and has one at least.
fn is_rooted(row: &ClassRow) -> bool
    ensures { let r = row.now in IsTrue result
        ↔ ((r.id ≡ OBJECT → r.supers ≡ []) × (r.id ≡ FUNCTION → r.supers ≡ object ∷ []) × (r.id ≢ OBJECT → r.supers ≢ [])) }
{
    let supers = row.supers.as_slice();
    if row.id == OBJECT {
        return supers.is_empty();
    }
    if row.id == FUNCTION {
        return is_object_alone(supers);
    }
    !supers.is_empty()
}

// Whether the class is neither `Object` nor `Function`, or has no parameters.
fn has_its_parameters(row: &ClassRow) -> bool
    ensures { IsTrue result ↔ ((row.now.id ≡ OBJECT → row.now.params ≡ []) × (row.now.id ≡ FUNCTION → row.now.params ≡ [])) }
{
    if row.id == OBJECT || row.id == FUNCTION {
        return row.params.as_slice().is_empty();
    }
    true
}

// Whether the one type is `Object`.
fn is_object_alone(types: &[DartType]) -> bool
    ensures { IsTrue result ↔ (types.now ≡ object ∷ []) }
{
    if types.len() != 1 {
        return false;
    }
    types[0].is_object()
}

impl DartType {
    /// Whether the type is `Object`. It takes no memory.
    pub fn is_object(&self) -> bool
        ensures { IsTrue result ↔ (self.now ≡ object) }
    {
        match &self.node {
            TypeNode::Interface { class, args } => *class == OBJECT && args.as_slice().is_empty(),
            _ => false,
        }
    }
}

// The longest way up over one of these direct supertypes.
fn depth_over(below: &Rows, classes: &[ClassRow], supers: &[DartType]) -> u128
    requires { AllPairs (λ a b. class_before a.id b.id ≡ true) classes.now }
    ensures { result ≡ depth_above (beside below.now.table (record { classes = classes.now; vars = [] })) supers.now }
{
    let mut depth: u128 = 0;
    for v in supers {
        depth = depth.max(u128::from(depth_from(below, classes, v)) + 1);
    }
    depth
}

// The longest way up from a type, as the row of its class says.
fn depth_from(below: &Rows, classes: &[ClassRow], t: &DartType) -> u64
    requires { AllPairs (λ a b. class_before a.id b.id ≡ true) classes.now }
    ensures { result ≡ head_depth (beside below.now.table (record { classes = classes.now; vars = [] })) t.now }
{
    match &t.node {
        TypeNode::Interface { class, .. } => depth_of_class(below, classes, *class),
        TypeNode::Invalid
        | TypeNode::Never
        | TypeNode::Void
        | TypeNode::Null
        | TypeNode::Function(_)
        | TypeNode::Var(_)
        | TypeNode::Promoted { .. }
        | TypeNode::Nullable(_) => 0,
    }
}

// The longest way up from a class, as its row says; 0 without a row.
fn depth_of_class(below: &Rows, classes: &[ClassRow], class: ClassId) -> u64
    requires { AllPairs (λ a b. class_before a.id b.id ≡ true) classes.now }
    ensures { result ≡ depth_of (beside below.now.table (record { classes = classes.now; vars = [] })) class }
{
    match row_beside(below, classes, class) {
        None => 0,
        Some(row) => row.depth,
    }
}
