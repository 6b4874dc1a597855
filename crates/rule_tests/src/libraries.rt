//! Libraries of one function, and names of types.

use dart_text::Text;
use dart_types::{BOOL, ClassId, DartType, INT, TypeNode};
use std::alloc::Global;
use std::test::Fail;

/// What stands before a body.
pub(crate) const MAIN: &str = "void main(){";

/// A library whose function `main` has this body.
pub(crate) fn library_of(alloc: Global, body: &str) -> Result<Text, Fail> {
    let text = format!(in alloc; "{MAIN}{body}}}")?;
    Ok(Text::from_str(alloc, &text)?)
}

/// The name of a type that something has in these libraries.
pub(crate) fn name_of(ty: &DartType) -> &'static str {
    match &ty.node {
        TypeNode::Invalid => "invalid",
        TypeNode::Never => "Never",
        TypeNode::Void => "void",
        TypeNode::Null => "Null",
        TypeNode::Interface { class, .. } => class_name(*class),
        TypeNode::Nullable(_) => "int?",
        _ => "other",
    }
}

fn class_name(class: ClassId) -> &'static str {
    if class == INT {
        return "int";
    }
    if class == BOOL {
        return "bool";
    }
    "other"
}
