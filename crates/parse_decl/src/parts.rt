//! What the parser holds of a declaration before it is made.

use dart_tree::{Function, Member, TypeParameter, VariableList, WrittenType};
use grammar::Token;

/// What a declaration is, without the annotations before it.
#[derive(Drop)]
pub enum DeclarationForm {
    Class {
        is_abstract: bool,
        name: Token,
        type_parameters: Vec<TypeParameter>,
        superclass: Option<WrittenType>,
        mixins: Vec<WrittenType>,
        interfaces: Vec<WrittenType>,
        members: Vec<Member>,
    },
    Mixin {
        name: Token,
        type_parameters: Vec<TypeParameter>,
        constraints: Vec<WrittenType>,
        interfaces: Vec<WrittenType>,
        members: Vec<Member>,
    },
    TypeAlias {
        name: Token,
        written: WrittenType,
    },
    Function {
        function: Function,
    },
    Variables {
        variables: VariableList,
    },
}
