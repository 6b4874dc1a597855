//! What the parser holds of a member before it is made.

use dart_tree::{
    Body, ConstructorName, Function, Initializer, OperatorName, ParameterList, TypeParameter,
    VariableList, WrittenType,
};
use grammar::Token;

/// What stands behind the result type of a function.
#[derive(Drop)]
pub enum Signature {
    Getter {
        name: Token,
        body: Body,
    },
    Setter {
        name: Token,
        parameters: ParameterList,
        body: Body,
    },
    Plain {
        name: Token,
        type_parameters: Vec<TypeParameter>,
        parameters: ParameterList,
        body: Body,
    },
}

/// A function, or variables, of a library or a class.
#[derive(Drop)]
pub enum FunctionOrVariables {
    Function { function: Function },
    Variables { variables: VariableList },
}

/// What a member is, without the annotations before it.
#[derive(Drop)]
pub enum MemberForm {
    Constructor {
        name: ConstructorName,
        parameters: ParameterList,
        initializers: Vec<Initializer>,
        body: Body,
    },
    Factory {
        name: ConstructorName,
        parameters: ParameterList,
        body: Body,
    },
    Method {
        is_static: bool,
        function: Function,
    },
    Fields {
        is_static: bool,
        variables: VariableList,
    },
    Operator {
        result: Option<WrittenType>,
        name: OperatorName,
        parameters: ParameterList,
        body: Body,
    },
}

/// Which bodies a function may have where it stands, beside blocks and `=>` with an expression.
#[derive(Clone, Copy)]
pub struct Bodies {
    /// `native;`, as in `dart:core` alone.
    pub in_core: bool,
    /// `;`, as where a member isn't static.
    pub without_body: bool,
}
