//! The syntax trees of Dart units.
//!
//! Every family of nodes is a struct around its enum, or a plain struct where it has one form, and is
//! seen by contracts as one mathematical value, the `Tree` of `specs/Tree.antt`, which has one
//! constructor for each production of the grammar. `specs/Heights.antt` says how deep trees are,
//! `specs/Numbers.antt` how their nodes are numbered in reading order, `specs/Bare.antt` what of a
//! tree does not depend on where it stands. The crate stands on the tokens of `dart_tokens`, and every
//! crate that reads, checks or runs a program takes its trees from here.
#![tactic(auto)]

mod expressions;
mod functions;
mod members;
mod names;
mod node_places;
mod operators;
mod places;
mod production;
mod statements;
mod types;
mod unit;

pub use expressions::{
    Argument, ArgumentList, ArgumentListNode, Expr, ExprNode, MapEntry, StringElement,
    StringElementNode, StringLiteral, StringLiteralNode,
};
pub use functions::{
    Body, BodyNode, Function, FunctionNode, Parameter, ParameterList, Variable, VariableList,
};
pub use members::{Initializer, InitializerNode, Member, MemberNode, ReadMember};
pub use names::{Annotation, ConstructorName, Identifier, ListedName, Name, ParameterKind};
pub use operators::{
    AssignmentOperator, BinaryOperator, BinaryOperatorKind, DeclaredOperator, OperatorName,
    PostfixOperator, PostfixOperatorKind, UnaryOperator, UnaryOperatorKind,
};
pub use places::{NodeId, Place, Span};
pub use production::Production;
pub use statements::{Block, CatchClause, ForInitializer, Stmt, StmtNode, SwitchCase, TryParts};
pub use types::{
    FunctionTypeParts, ParameterType, TypeArguments, TypeArgumentsNode, TypeParameter, WrittenType,
    WrittenTypeNode,
};
pub use unit::{Combinator, CombinatorNode, Item, ItemNode, ReadItem, Unit, UnitTree};
