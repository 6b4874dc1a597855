//! Declarations of locals of the forms that are built.

ghost use Rattle.std.specs.Prelude.{◌≡◌};
ghost use Rattle.dart_tree.specs.Tree.{part_of, trees_of};
ghost use Rattle.built_forms.specs.Forms.{is_type, is_written_type, has_type, may_initialize, is_variable, is_one_variable, is_declaration};

use crate::expressions::{is_free, is_value};
use crate::meaning::meaning_at;
use dart_tree::{Expr, Variable, VariableList, WrittenType, WrittenTypeNode};
use dart_types::INT;
use judgement::Meaning;

/// Whether a name that means this is a type: `int`, `int?` or `bool`.
fn is_type(meaning: Meaning, nullable: bool) -> bool
    ensures { result ≡ is_type meaning nullable }
{
    match meaning {
        Meaning::Class(class) => !nullable || class == INT,
        Meaning::Nothing => false,
        Meaning::Local(_) => false,
        Meaning::Print => false,
        Meaning::Other => false,
    }
}

/// Whether a written type is built.
fn is_written_type(outside: &[Meaning], written: &WrittenType) -> bool
    ensures { result ≡ is_written_type outside.now written.now }
{
    match &*written.node {
        WrittenTypeNode::Named {
            prefix,
            name,
            arguments,
            nullable,
            ..
        } => {
            prefix.is_none()
                && arguments.is_none()
                && is_type(meaning_at(outside, name.word), *nullable)
        }
        _ => false,
    }
}

/// Whether a type is written, and built.
fn has_type(outside: &[Meaning], written: &Option<WrittenType>) -> bool
    ensures { result ≡ has_type outside.now (part_of written.now) }
{
    match written {
        None => false,
        Some(written) => is_written_type(outside, written),
    }
}

/// Whether what a local is at first is built, or left out.
fn may_initialize(outside: &[Meaning], initializer: &Option<Expr>) -> bool
    ensures { result ≡ may_initialize outside.now (part_of initializer.now) }
{
    match initializer {
        None => true,
        Some(value) => is_value(outside, value),
    }
}

/// Whether a variable is built.
fn is_variable(outside: &[Meaning], variable: &Variable) -> bool
    ensures { result ≡ is_variable outside.now variable.now }
{
    is_free(meaning_at(outside, variable.name.word))
        && may_initialize(outside, &variable.initializer)
}

/// Whether these are one variable.
fn is_one_variable(outside: &[Meaning], variables: &[Variable]) -> bool
    ensures { result ≡ is_one_variable outside.now (trees_of variables.now) }
{
    variables.len() == 1 && is_variable(outside, &variables[0])
}

/// Whether variables that are declared together are built: one, with its type.
pub(crate) fn is_declaration(outside: &[Meaning], list: &VariableList) -> bool
    ensures { result ≡ is_declaration outside.now list.now }
{
    !list.is_final && has_type(outside, &list.written) && is_one_variable(outside, &list.variables)
}
