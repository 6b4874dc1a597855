//! What the parser holds of a node before it is made.

use dart_tree::{
    ArgumentList, BinaryOperator, Expr, ForInitializer, Identifier, MapEntry, Parameter,
    ParameterType, Span, TypeArguments, TypeParameter, WrittenType,
};
use grammar::Token;

/// What makes a function type of its result.
#[derive(Drop)]
pub struct Tail {
    pub type_parameters: Vec<TypeParameter>,
    pub parameters: Vec<ParameterType>,
    pub optional: Vec<Parameter>,
    pub nullable: bool,
}

/// What a literal of a list, a set or a map holds.
#[derive(Drop)]
pub enum Contents {
    Listed(Vec<Expr>),
    Entries(Vec<MapEntry>),
}

/// What a selector adds.
#[derive(Drop)]
pub enum Selector {
    Member {
        null_aware: bool,
        name: Identifier,
    },
    Element {
        null_aware: bool,
        bracket: Span,
        index: Expr,
    },
    Check,
    Called {
        type_arguments: Option<TypeArguments>,
        arguments: ArgumentList,
    },
}

/// What an operator adds on the right.
#[derive(Drop)]
pub enum Side {
    Operated {
        operator: BinaryOperator,
        right: Expr,
    },
    Tested {
        negated: bool,
        written: WrittenType,
    },
    Cast {
        written: WrittenType,
    },
    Choices {
        then_value: Expr,
        else_value: Expr,
    },
}

/// What stands between the parentheses of a `for`.
#[derive(Drop)]
pub enum Header {
    Counted {
        initializer: ForInitializer,
        condition: Option<Expr>,
        updates: Vec<Expr>,
    },
    Assigned {
        name: Token,
        iterable: Expr,
    },
    Declaring {
        is_final: bool,
        written: Option<WrittenType>,
        name: Token,
        iterable: Expr,
    },
}
