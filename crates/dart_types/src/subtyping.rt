//! Whether a type is a subtype of another.

ghost use Rattle.std.specs.Prelude.{◌≡◌, ◌≢◌, ◌≤◌, true, false, length, IsTrue, ◌↔◌, ◌⊎◌};
ghost use Rattle.dart_types.specs.Ty.{variable, nullable, promoted, interface, null, invalid};
ghost use Rattle.dart_types.specs.Heads.{object, is_object};
ghost use Rattle.dart_types.specs.Forms.{form_of, seen_types, seen_function, seen_params, seen_named};
ghost use Rattle.dart_types.specs.Targets.{is_bare_target, or_nullable};
ghost use Rattle.dart_types.specs.Sub.{Sub, Subs, SubParams, SubNamed};
ghost use Rattle.dart_types.specs.SubTest.{sub};
ghost use Rattle.dart_types.specs.BoundVars.{IsBoundVar};

use crate::ids::{ClassId, FUNCTION, OBJECT, VarId};
use crate::params::{find_named, requires_no_more};
use crate::rows::Rows;
use crate::scopes::{Form, Scope, Seen, SeenFunction, SeenList};
use crate::superinterfaces::superinterfaces_of_class;
use crate::types::{DartType, TypeNode};

/// Whether s is a subtype of t, by the rules of the language specification, "Subtypes". It takes no
/// memory and forms no type: the arguments of a superinterface are seen where they stand.
pub fn is_subtype(rows: &Rows, s: &DartType, t: &DartType) -> bool
    ensures test { result ≡ sub rows.now.table s.now t.now }
    ensures rules { IsTrue result ↔ Sub rows.now.table s.now t.now }
{
    let root = Scope::root();
    let left = Seen {
        ty: s,
        scope: &root,
    };
    let right = Seen {
        ty: t,
        scope: &root,
    };
    is_below(rows, &left.form(), &right.form())
}

/// Whether s is a subtype of `Object`: null is no value of it. It takes no memory.
pub fn is_subtype_of_object(rows: &Rows, s: &DartType) -> bool
    ensures test { result ≡ sub rows.now.table s.now object }
    ensures rules { IsTrue result ↔ Sub rows.now.table s.now object }
{
    let root = Scope::root();
    let left = Seen {
        ty: s,
        scope: &root,
    };
    let none = SeenList {
        types: &[],
        scope: &root,
    };
    let right = Form::Interface {
        class: OBJECT,
        args: none,
    };
    is_below(rows, &left.form(), &right)
}

// Whether s is a subtype of t.
#[cycle(subtyping)]
fn is_below(rows: &Rows, s: &Form, t: &Form) -> bool
    ensures { IsTrue result ↔ Sub rows.now.table (form_of s.now) (form_of t.now) }
{
    match *t {
        Form::Void => true,
        Form::Promoted { var, to } => is_below_promoted(rows, s, var, &to.form()),
        Form::Nullable(bare) => is_below_nullable(rows, s, &bare.form()),
        Form::Invalid => is_below_bare(rows, s, t, false),
        Form::Never => is_below_bare(rows, s, t, false),
        Form::Null => is_below_bare(rows, s, t, false),
        Form::Interface { .. } => is_below_bare(rows, s, t, false),
        Form::Function(_) => is_below_bare(rows, s, t, false),
        Form::Var(_) => is_below_bare(rows, s, t, false),
    }
}

// Whether s is a subtype of `t?`.
#[cycle(subtyping)]
fn is_below_nullable(rows: &Rows, s: &Form, t: &Form) -> bool
    ensures { IsTrue result ↔ Sub rows.now.table (form_of s.now) (nullable (form_of t.now)) }
{
    match *t {
        Form::Void => true,
        Form::Promoted { var, to } => is_below_nullable_promoted(rows, s, var, &to.form()),
        Form::Nullable(bare) => is_below_nullable(rows, s, &bare.form()),
        Form::Invalid => is_below_bare(rows, s, t, true),
        Form::Never => is_below_bare(rows, s, t, true),
        Form::Null => is_below_bare(rows, s, t, true),
        Form::Interface { .. } => is_below_bare(rows, s, t, true),
        Form::Function(_) => is_below_bare(rows, s, t, true),
        Form::Var(_) => is_below_bare(rows, s, t, true),
    }
}

// Whether s is a subtype of `X & U`, where X is the variable and U is t.
#[cycle(subtyping)]
fn is_below_promoted(rows: &Rows, s: &Form, var: VarId, t: &Form) -> bool
    ensures { IsTrue result ↔ Sub rows.now.table (form_of s.now) (promoted var (form_of t.now)) }
{
    if !is_below_bare(rows, s, &Form::Var(var), false) {
        return false;
    }
    is_below(rows, s, t)
}

// Whether s is a subtype of `(X & U)?`, where X is the variable and U is t.
#[cycle(subtyping)]
fn is_below_nullable_promoted(rows: &Rows, s: &Form, var: VarId, t: &Form) -> bool
    ensures { IsTrue result ↔ Sub rows.now.table (form_of s.now) (nullable (promoted var (form_of t.now))) }
{
    match *s {
        Form::Never => true,
        Form::Null => true,
        Form::Invalid => false,
        Form::Void => false,
        Form::Interface { .. } => false,
        Form::Function(_) => false,
        Form::Nullable(bare) => is_below_nullable_promoted(rows, &bare.form(), var, t),
        Form::Var(x) => is_var_below_nullable_promoted(rows, x, var, t),
        Form::Promoted { var: x, to } => {
            if is_below_promoted(rows, s, var, t) {
                return true;
            }
            if is_var_below_nullable_promoted(rows, x, var, t) {
                return true;
            }
            is_below_nullable_promoted(rows, &to.form(), var, t)
        }
    }
}

// Whether a variable is a subtype of `(X & U)?`, where X is the other variable and U is t.
#[cycle(subtyping)]
fn is_var_below_nullable_promoted(rows: &Rows, x: VarId, var: VarId, t: &Form) -> bool
    ensures { IsTrue result ↔ Sub rows.now.table (variable x) (nullable (promoted var (form_of t.now))) }
{
    let mut left = x;
    loop {
        if is_below_promoted(rows, &Form::Var(left), var, t) {
            return true;
        }
        let bound = match rows.bound(left) {
            None => return false,
            Some(bound) => bound,
        };
        match bound_var(bound) {
            BoundVar::Plain(y) => left = y,
            BoundVar::Nullable(y) => left = y,
            BoundVar::Other => {
                let root = Scope::root();
                let seen = Seen {
                    ty: bound,
                    scope: &root,
                };
                return is_below_nullable_promoted(rows, &seen.form(), var, t);
            }
        }
    }
}

// Whether s is a subtype of t, with `?` where null is meant too, where t is no `X & U`, not `void`
// and without `?`.
#[cycle(subtyping)]
fn is_below_bare(rows: &Rows, s: &Form, t: &Form, or_null: bool) -> bool
    requires { is_bare_target (form_of t.now) ≡ true }
    ensures { IsTrue result ↔ Sub rows.now.table (form_of s.now) (or_nullable or_null (form_of t.now)) }
{
    if is_top(t, or_null) {
        return true;
    }
    match *s {
        Form::Never => true,
        Form::Void => false,
        Form::Invalid => is_invalid_form(t),
        Form::Null => admits_null(t, or_null),
        Form::Nullable(bare) => {
            if !admits_null(t, or_null) {
                return false;
            }
            is_below_bare(rows, &bare.form(), t, or_null)
        }
        Form::Var(x) => is_var_below_bare(rows, x, t, or_null),
        Form::Promoted { var, to } => {
            if is_var_below_bare(rows, var, t, or_null) {
                return true;
            }
            is_below_bare(rows, &to.form(), t, or_null)
        }
        Form::Interface { class, args } => is_interface_below(rows, class, &args, t),
        Form::Function(function) => is_function_below(rows, &function, t),
    }
}

// Whether a variable is a subtype of t, with `?` where null is meant too, where t is no `X & U`, not
// `void` and without `?`, and no top type. A long chain of variables as bounds is gone through step
// by step.
#[cycle(subtyping)]
fn is_var_below_bare(rows: &Rows, x: VarId, t: &Form, or_null: bool) -> bool
    requires bare { is_bare_target (form_of t.now) ≡ true }
    requires no_top { or_null ≡ true → is_object (form_of t.now) ≡ true → ⊥ }
    ensures { IsTrue result ↔ Sub rows.now.table (variable x) (or_nullable or_null (form_of t.now)) }
{
    let mut left = x;
    loop {
        if is_var_form(t, left) {
            return true;
        }
        let bound = match rows.bound(left) {
            None => return false,
            Some(bound) => bound,
        };
        match bound_var(bound) {
            BoundVar::Plain(y) => left = y,
            BoundVar::Nullable(y) => {
                if !admits_null(t, or_null) {
                    return false;
                }
                left = y;
            }
            BoundVar::Other => {
                let root = Scope::root();
                let seen = Seen {
                    ty: bound,
                    scope: &root,
                };
                return is_below_bare(rows, &seen.form(), t, or_null);
            }
        }
    }
}

// A bound, where it is a variable.
enum BoundVar {
    // It is this variable.
    Plain(VarId),
    // It is this variable with `?`.
    Nullable(VarId),
    // It is another type.
    Other,
}

// Whether a bound is a variable.
fn bound_var(bound: &DartType) -> BoundVar
    ensures { IsBoundVar bound.now result }
{
    match &bound.node {
        TypeNode::Var(x) => BoundVar::Plain(*x),
        TypeNode::Nullable(bare) => match &bare.node {
            TypeNode::Var(x) => BoundVar::Nullable(*x),
            _ => BoundVar::Other,
        },
        _ => BoundVar::Other,
    }
}

// Whether t, with `?` where null is meant too, is `Object?`.
fn is_top(t: &Form, or_null: bool) -> bool
    ensures { IsTrue result ↔ ((or_null ≡ true) × (is_object (form_of t.now) ≡ true)) }
{
    if or_null { is_object_form(t) } else { false }
}

// Whether t is `Object`.
fn is_object_form(t: &Form) -> bool
    ensures { result ≡ is_object (form_of t.now) }
{
    match *t {
        Form::Interface { class, args } => class == OBJECT && args.types.is_empty(),
        _ => false,
    }
}

// Whether t is `Null`, or null is meant too.
fn admits_null(t: &Form, or_null: bool) -> bool
    ensures { IsTrue result ↔ ((or_null ≡ true) ⊎ (form_of t.now ≡ null)) }
{
    if or_null {
        return true;
    }
    match *t {
        Form::Null => true,
        _ => false,
    }
}

// Whether t is the invalid type.
fn is_invalid_form(t: &Form) -> bool
    ensures { IsTrue result ↔ (form_of t.now ≡ invalid) }
{
    match *t {
        Form::Invalid => true,
        _ => false,
    }
}

// Whether t is the variable.
fn is_var_form(t: &Form, var: VarId) -> bool
    ensures { IsTrue result ↔ (form_of t.now ≡ variable var) }
{
    match *t {
        Form::Var(x) => x == var,
        _ => false,
    }
}

// Whether a class with these arguments is a subtype of t.
#[cycle(subtyping)]
fn is_interface_below(rows: &Rows, class: ClassId, args: &SeenList, t: &Form) -> bool
    requires { is_bare_target (form_of t.now) ≡ true }
    ensures { IsTrue result ↔ Sub rows.now.table (interface class (seen_types args.now)) (form_of t.now) }
{
    match *t {
        Form::Interface {
            class: other,
            args: other_args,
        } => {
            if is_object_form(t) {
                return true;
            }
            if class == other {
                return are_arguments_below(rows, class, args, &other_args);
            }
            is_superinterface_below(rows, class, args, other, &other_args)
        }
        _ => false,
    }
}

// Whether a class with these arguments is a subtype of another class with those, by a superinterface.
#[cycle(subtyping)]
fn is_superinterface_below(
    rows: &Rows,
    class: ClassId,
    args: &SeenList,
    other: ClassId,
    other_args: &SeenList,
) -> bool
    requires other_class { class ≢ other }
    requires no_object { is_object (interface other (seen_types other_args.now)) ≡ false }
    ensures { IsTrue result ↔ Sub rows.now.table (interface class (seen_types args.now)) (interface other (seen_types other_args.now)) }
{
    let row = match rows.class(class) {
        None => return false,
        Some(row) => row,
    };
    if row.params.as_slice().len() != args.types.len() {
        return false;
    }
    let scope = Scope::frame(row.params.as_slice(), args.types, args.scope);
    let superinterfaces = rows.superinterfaces(class);
    for superinterface in superinterfaces_of_class(superinterfaces, other) {
        let seen = SeenList {
            types: superinterface.args.as_slice(),
            scope: &scope,
        };
        if are_arguments_below(rows, other, &seen, other_args) {
            return true;
        }
    }
    false
}

// Whether the arguments of a class are subtypes of others, pair by pair. That this ends is proved by a
// measure of the class with its arguments, so it is handed over.
#[cycle(subtyping)]
fn are_arguments_below(rows: &Rows, _class: ClassId, args: &SeenList, others: &SeenList) -> bool
    ensures { IsTrue result ↔ Subs rows.now.table (seen_types args.now) (seen_types others.now) }
{
    if args.types.len() != others.types.len() {
        return false;
    }
    for i in 0..args.types.len() {
        let arg = args.at(i);
        let other = others.at(i);
        if !is_below(rows, &arg.form(), &other.form()) {
            return false;
        }
    }
    true
}

// Whether a function type is a subtype of t.
#[cycle(subtyping)]
fn is_function_below(rows: &Rows, function: &SeenFunction, t: &Form) -> bool
    requires { is_bare_target (form_of t.now) ≡ true }
    ensures { IsTrue result ↔ Sub rows.now.table (seen_function function.now) (form_of t.now) }
{
    match *t {
        Form::Interface { class, args } => {
            (class == OBJECT || class == FUNCTION) && args.types.is_empty()
        }
        Form::Function(other) => is_signature_below(rows, function, &other),
        _ => false,
    }
}

// Whether a function type is a subtype of another.
#[cycle(subtyping)]
fn is_signature_below(rows: &Rows, function: &SeenFunction, other: &SeenFunction) -> bool
    ensures { IsTrue result ↔ Sub rows.now.table (seen_function function.now) (seen_function other.now) }
{
    let required = function.function.required.as_slice().len();
    if required > other.function.required.as_slice().len() {
        return false;
    }
    if !requires_no_more(
        function.function.named.as_slice(),
        other.function.named.as_slice(),
    ) {
        return false;
    }
    if !are_params_below(rows, function, other) {
        return false;
    }
    if !are_named_below(rows, function, other) {
        return false;
    }
    is_below(rows, &function.result().form(), &other.result().form())
}

// Whether each positional parameter of the other function type is a subtype of that at its place in
// the first.
#[cycle(subtyping)]
fn are_params_below(rows: &Rows, function: &SeenFunction, other: &SeenFunction) -> bool
    requires { length function.now.function.now.required ≤ length other.now.function.now.required }
    ensures { IsTrue result ↔ SubParams rows.now.table (seen_params other.now) (seen_params function.now) }
{
    let required = other.function.required.as_slice();
    for i in 0..required.len() {
        let own = match function.param(i) {
            None => return false,
            Some(own) => own,
        };
        let param = Seen {
            ty: &required[i],
            scope: other.scope,
        };
        if !is_below(rows, &param.form(), &own.form()) {
            return false;
        }
    }
    let optional = other.function.optional.as_slice();
    for i in 0..optional.len() {
        let own = match function.param_after(required.len(), i) {
            None => return false,
            Some(own) => own,
        };
        let param = Seen {
            ty: &optional[i],
            scope: other.scope,
        };
        if !is_below(rows, &param.form(), &own.form()) {
            return false;
        }
    }
    true
}

// Whether each named parameter of the other function type has one of its name in the first, and is
// a subtype of that.
#[cycle(subtyping)]
fn are_named_below(rows: &Rows, function: &SeenFunction, other: &SeenFunction) -> bool
    ensures { IsTrue result ↔ SubNamed rows.now.table (seen_named other.now) (seen_named function.now) }
{
    let own = function.function.named.as_slice();
    let named = other.function.named.as_slice();
    let mut from = 0;
    for i in 0..named.len() {
        let at = match find_named(own, from, &named[i].name) {
            None => return false,
            Some(at) => at,
        };
        let param = Seen {
            ty: &named[i].ty,
            scope: other.scope,
        };
        let own_param = Seen {
            ty: &own[at].ty,
            scope: function.scope,
        };
        if !is_below(rows, &param.form(), &own_param.form()) {
            return false;
        }
        from = at + 1;
    }
    true
}
