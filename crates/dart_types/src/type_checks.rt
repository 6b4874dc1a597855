//! What well-formed rows ask of single types.

ghost use Rattle.std.specs.Prelude.{◌≡◌, ◌↔◌, [], All, AllPairs, IsSome, IsTrue, true};
ghost use Rattle.dart_types.specs.Ty.{types_of};
ghost use Rattle.dart_types.specs.Node.{function_type};
ghost use Rattle.dart_types.specs.Tables.{class_of, bound_of};
ghost use Rattle.dart_types.specs.Unions.{beside};
ghost use Rattle.dart_types.specs.WellFormed.{is_among, class_before, var_before, IsSimple, IsSupertype, IsEarlierVar, IsEarlier, HasArguments, IsOver};

use crate::class_rows::{ClassRow, VarRow};
use crate::ids::{ClassId, VarId};
use crate::row_lookups::{bound_beside, row_beside};
use crate::rows::Rows;
use crate::types::{DartType, FunctionType, NamedTypes, TypeList, TypeNode};

// Whether a variable is one of these.
fn is_param(params: &[VarId], var: VarId) -> bool
    ensures { result ≡ is_among params.now var }
{
    for param in params {
        if *param == var {
            return true;
        }
    }
    false
}

// Whether y is declared before x, in the same library.
fn is_earlier_var(x: VarId, y: VarId) -> bool
    ensures { IsTrue result ↔ IsEarlierVar x y }
{
    if y.lib != x.lib {
        return false;
    }
    y.index < x.index
}

// Whether a type variable has a bound.
fn has_bound(below: &Rows, vars: &[VarRow], var: VarId) -> bool
    requires { AllPairs (λ a b. var_before a.var b.var ≡ true) vars.now }
    ensures { IsTrue result ↔ IsSome (bound_of (beside below.now.table (record { classes = []; vars = vars.now })) var) }
{
    match bound_beside(below, vars, var) {
        None => false,
        Some(_) => true,
    }
}

// Whether a class has a row with as many parameters as there are arguments.
fn has_arguments(below: &Rows, classes: &[ClassRow], class: ClassId, args: &TypeList) -> bool
    requires { AllPairs (λ a b. class_before a.id b.id ≡ true) classes.now }
    ensures { IsTrue result ↔ HasArguments (class_of (beside below.now.table (record { classes = classes.now; vars = [] })) class) (types_of args.now) }
{
    match row_beside(below, classes, class) {
        None => false,
        Some(row) => args.as_slice().len() == row.params.as_slice().len(),
    }
}

impl DartType {
    // Whether the type is an interface over these parameters, whose arguments hold no function type
    // and no `X & U`.
    fn is_supertype(&self, params: &[VarId]) -> bool
        ensures { IsTrue result ↔ IsSupertype params.now self.now }
    {
        match &self.node {
            TypeNode::Interface { args, .. } => args.are_simple(params),
            TypeNode::Invalid => false,
            TypeNode::Never => false,
            TypeNode::Void => false,
            TypeNode::Null => false,
            TypeNode::Function(_) => false,
            TypeNode::Var(_) => false,
            TypeNode::Promoted { .. } => false,
            TypeNode::Nullable(_) => false,
        }
    }

    // Whether the type holds no other variables than these, no function type and no `X & U`.
    #[cycle(simple)]
    fn is_simple(&self, params: &[VarId]) -> bool
        ensures { IsTrue result ↔ IsSimple params.now self.now }
    {
        match &self.node {
            TypeNode::Invalid => true,
            TypeNode::Never => true,
            TypeNode::Void => true,
            TypeNode::Null => true,
            TypeNode::Interface { args, .. } => args.are_simple(params),
            TypeNode::Function(_) => false,
            TypeNode::Var(var) => is_param(params, *var),
            TypeNode::Promoted { .. } => false,
            TypeNode::Nullable(bare) => bare.is_simple(params),
        }
    }

    /// Whether the type holds no variables but earlier ones than x, and no `X & U`.
    #[cycle(earlier)]
    pub(crate) fn is_earlier(&self, x: VarId) -> bool
        ensures { IsTrue result ↔ IsEarlier x self.now }
    {
        match &self.node {
            TypeNode::Invalid => true,
            TypeNode::Never => true,
            TypeNode::Void => true,
            TypeNode::Null => true,
            TypeNode::Interface { args, .. } => args.are_earlier(x),
            TypeNode::Function(function) => function.is_earlier(x),
            TypeNode::Var(var) => is_earlier_var(x, *var),
            TypeNode::Promoted { .. } => false,
            TypeNode::Nullable(bare) => bare.is_earlier(x),
        }
    }

    /// Whether each class that the type names has a row with as many parameters as it has arguments
    /// there, and each variable in it has a bound.
    #[cycle(over)]
    pub(crate) fn is_over(&self, below: &Rows, classes: &[ClassRow], vars: &[VarRow]) -> bool
        requires classes_in_order { AllPairs (λ a b. class_before a.id b.id ≡ true) classes.now }
        requires vars_in_order { AllPairs (λ a b. var_before a.var b.var ≡ true) vars.now }
        ensures { IsTrue result ↔ IsOver (beside below.now.table (record { classes = classes.now; vars = vars.now })) self.now }
    {
        match &self.node {
            TypeNode::Invalid => true,
            TypeNode::Never => true,
            TypeNode::Void => true,
            TypeNode::Null => true,
            TypeNode::Interface { class, args } => {
                if !has_arguments(below, classes, *class, args) {
                    return false;
                }
                args.are_over(below, classes, vars)
            }
            TypeNode::Function(function) => function.is_over(below, classes, vars),
            TypeNode::Var(var) => has_bound(below, vars, *var),
            TypeNode::Promoted { var, to } => {
                if !has_bound(below, vars, *var) {
                    return false;
                }
                to.is_over(below, classes, vars)
            }
            TypeNode::Nullable(bare) => bare.is_over(below, classes, vars),
        }
    }
}

impl FunctionType {
    // Whether its types hold no variables but earlier ones than x, and no `X & U`.
    #[cycle(earlier)]
    fn is_earlier(&self, x: VarId) -> bool
        ensures { IsTrue result ↔ IsEarlier x (function_type self.now) }
    {
        if !self.required.are_earlier(x) {
            return false;
        }
        if !self.optional.are_earlier(x) {
            return false;
        }
        if !self.named.are_earlier(x) {
            return false;
        }
        self.result.is_earlier(x)
    }

    // Whether each class and each variable in its types has a row that fits.
    #[cycle(over)]
    fn is_over(&self, below: &Rows, classes: &[ClassRow], vars: &[VarRow]) -> bool
        requires classes_in_order { AllPairs (λ a b. class_before a.id b.id ≡ true) classes.now }
        requires vars_in_order { AllPairs (λ a b. var_before a.var b.var ≡ true) vars.now }
        ensures { IsTrue result ↔ IsOver (beside below.now.table (record { classes = classes.now; vars = vars.now })) (function_type self.now) }
    {
        if !self.required.are_over(below, classes, vars) {
            return false;
        }
        if !self.optional.are_over(below, classes, vars) {
            return false;
        }
        if !self.named.are_over(below, classes, vars) {
            return false;
        }
        self.result.is_over(below, classes, vars)
    }
}

impl TypeList {
    /// Whether the types are direct supertypes of a class with these parameters.
    pub(crate) fn are_supertypes(&self, params: &[VarId]) -> bool
        ensures { IsTrue result ↔ All (IsSupertype params.now) self.now }
    {
        for item in &self.items {
            if !item.is_supertype(params) {
                return false;
            }
        }
        true
    }

    // Whether the types hold no other variables than these, no function type and no `X & U`.
    #[cycle(simple)]
    fn are_simple(&self, params: &[VarId]) -> bool
        ensures { IsTrue result ↔ All (IsSimple params.now) self.now }
    {
        for item in &self.items {
            if !item.is_simple(params) {
                return false;
            }
        }
        true
    }

    // Whether the types hold no variables but earlier ones than x, and no `X & U`.
    #[cycle(earlier)]
    fn are_earlier(&self, x: VarId) -> bool
        ensures { IsTrue result ↔ All (IsEarlier x) self.now }
    {
        for item in &self.items {
            if !item.is_earlier(x) {
                return false;
            }
        }
        true
    }

    /// Whether each class and each variable in the types has a row that fits.
    #[cycle(over)]
    pub(crate) fn are_over(&self, below: &Rows, classes: &[ClassRow], vars: &[VarRow]) -> bool
        requires classes_in_order { AllPairs (λ a b. class_before a.id b.id ≡ true) classes.now }
        requires vars_in_order { AllPairs (λ a b. var_before a.var b.var ≡ true) vars.now }
        ensures { IsTrue result ↔ All (IsOver (beside below.now.table (record { classes = classes.now; vars = vars.now }))) self.now }
    {
        for item in &self.items {
            if !item.is_over(below, classes, vars) {
                return false;
            }
        }
        true
    }
}

impl NamedTypes {
    // Whether the types of the parameters hold no variables but earlier ones than x, and no `X & U`.
    #[cycle(earlier)]
    fn are_earlier(&self, x: VarId) -> bool
        ensures { IsTrue result ↔ All (λ named. IsEarlier x named.ty) self.now }
    {
        for item in &self.items {
            if !item.ty.is_earlier(x) {
                return false;
            }
        }
        true
    }

    // Whether each class and each variable in the types of the parameters has a row that fits.
    #[cycle(over)]
    fn are_over(&self, below: &Rows, classes: &[ClassRow], vars: &[VarRow]) -> bool
        requires classes_in_order { AllPairs (λ a b. class_before a.id b.id ≡ true) classes.now }
        requires vars_in_order { AllPairs (λ a b. var_before a.var b.var ≡ true) vars.now }
        ensures { IsTrue result ↔ All (λ named. IsOver (beside below.now.table (record { classes = classes.now; vars = vars.now })) named.ty) self.now }
    {
        for item in &self.items {
            if !item.ty.is_over(below, classes, vars) {
                return false;
            }
        }
        true
    }
}
