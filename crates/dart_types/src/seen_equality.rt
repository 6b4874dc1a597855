//! Whether types in scopes have the same normal form. None is formed.

ghost use Rattle.std.specs.Prelude.{◌≡◌, ◌≤◌, ◌&&◌, false, bytes_eq};
ghost use Rattle.dart_types.specs.Ty.{height_of};
ghost use Rattle.dart_types.specs.Forms.{form_of, seen_type, seen_types, seen_function, seen_named};
ghost use Rattle.dart_types.specs.Marks.{is_marked};
ghost use Rattle.dart_types.specs.Targets.{or_nullable};
ghost use Rattle.dart_types.specs.Normal.{normal, normal_all, normal_named};
ghost use Rattle.dart_types.specs.Same.{same_bool, same_type, same_types, same_named};

use crate::scopes::{Form, Seen, SeenFunction, SeenList};
use crate::types::NamedType;

// A type in a scope, up to its normal form: that of a form that isn't one of `?`, with `?` where it is
// marked.
#[derive(Clone, Copy)]
struct Head<'a> {
    bare: Form<'a>,
    marked: bool,
}

impl<'a> Seen<'a> {
    // The type as a form with a mark: a second `?` adds nothing, neither does one after `void`, and
    // `Null?` and `Never?` are `Null`.
    fn head(&self) -> Head<'a>
        ensures same { or_nullable result.marked (normal (form_of result.bare)) ≡ normal (seen_type self.now) }
        ensures bare { is_marked (form_of result.bare) ≡ false }
        ensures height { height_of (form_of result.bare) ≤ height_of (seen_type self.now) }
    {
        let mut form = self.form();
        let mut marked = false;
        loop {
            match form {
                Form::Nullable(bare) => {
                    form = bare.form();
                    marked = true;
                }
                Form::Never if marked => {
                    return Head {
                        bare: Form::Null,
                        marked: false,
                    };
                }
                Form::Never | Form::Void | Form::Null => {
                    return Head {
                        bare: form,
                        marked: false,
                    };
                }
                Form::Invalid
                | Form::Interface { .. }
                | Form::Function(_)
                | Form::Var(_)
                | Form::Promoted { .. } => return Head { bare: form, marked },
            }
        }
    }
}

/// Whether the normal forms of both types are the same.
#[cycle(seen_equality)]
pub(crate) fn are_same(s: &Seen, t: &Seen) -> bool
    ensures { result ≡ same_type (normal (seen_type s.now)) (normal (seen_type t.now)) }
{
    let left = s.head();
    let right = t.head();
    if left.marked != right.marked {
        return false;
    }
    are_forms_same(&left.bare, &right.bare)
}

// Whether the normal forms of both types, which don't end with `?`, are the same.
#[cycle(seen_equality)]
fn are_forms_same(s: &Form, t: &Form) -> bool
    requires left { is_marked (form_of s.now) ≡ false }
    requires right { is_marked (form_of t.now) ≡ false }
    ensures { result ≡ same_type (normal (form_of s.now)) (normal (form_of t.now)) }
{
    match *s {
        Form::Invalid => matches!(*t, Form::Invalid),
        Form::Never => matches!(*t, Form::Never),
        Form::Void => matches!(*t, Form::Void),
        Form::Null => matches!(*t, Form::Null),
        Form::Interface { class, args } => match *t {
            Form::Interface {
                class: other_class,
                args: other_args,
            } => class == other_class && are_lists_same(&args, &other_args),
            _ => false,
        },
        Form::Function(function) => match *t {
            Form::Function(other) => are_functions_same(&function, &other),
            _ => false,
        },
        Form::Var(var) => match *t {
            Form::Var(other) => var == other,
            _ => false,
        },
        Form::Promoted { var, to } => match *t {
            Form::Promoted {
                var: other_var,
                to: other_to,
            } => var == other_var && are_same(&to, &other_to),
            _ => false,
        },
        Form::Nullable(_) => false,
    }
}

/// Whether both are lists of types with the same normal forms, in the same order.
#[cycle(seen_equality)]
pub(crate) fn are_lists_same(list: &SeenList, other: &SeenList) -> bool
    ensures { result ≡ same_types (normal_all (seen_types list.now)) (normal_all (seen_types other.now)) }
{
    if list.types.len() != other.types.len() {
        return false;
    }
    for i in 0..list.types.len() {
        let s = list.at(i);
        let t = other.at(i);
        if !are_same(&s, &t) {
            return false;
        }
    }
    true
}

// Whether the normal forms of both function types are the same.
#[cycle(seen_equality)]
fn are_functions_same(function: &SeenFunction, other: &SeenFunction) -> bool
    ensures { result ≡ same_type (normal (seen_function function.now)) (normal (seen_function other.now)) }
{
    are_lists_same(&function.required(), &other.required())
        && are_lists_same(&function.optional(), &other.optional())
        && are_named_same(function, other)
        && are_same(&function.result(), &other.result())
}

// Whether both have the same named parameters, up to the normal forms of their types.
#[cycle(seen_equality)]
fn are_named_same(function: &SeenFunction, other: &SeenFunction) -> bool
    ensures { result ≡ same_named (normal_named (seen_named function.now)) (normal_named (seen_named other.now)) }
{
    let named = function.function.named.as_slice();
    let other_named = other.function.named.as_slice();
    if named.len() != other_named.len() {
        return false;
    }
    for i in 0..named.len() {
        let param = &named[i];
        let other_param = &other_named[i];
        if !are_labels_same(param, other_param) {
            return false;
        }
        let s = Seen {
            ty: &param.ty,
            scope: function.scope,
        };
        let t = Seen {
            ty: &other_param.ty,
            scope: other.scope,
        };
        if !are_same(&s, &t) {
            return false;
        }
    }
    true
}

// Whether both named parameters have the same name, and both are required or neither.
fn are_labels_same(param: &NamedType, other: &NamedType) -> bool
    ensures { result ≡ (bytes_eq param.now.name other.now.name && same_bool param.now.required other.now.required) }
{
    param.name.as_str() == other.name.as_str() && param.required == other.required
}
