//! Functions, their parameters and bodies, and variables.

use crate::expressions::Expr;
use crate::names::{Annotation, Name, ParameterKind};
use crate::places::Place;
use crate::statements::Stmt;
use crate::types::{TypeParameter, WrittenType};
use std::marker::Model;

/// Parameters with their parentheses.
#[cycle(tree)]
pub struct ParameterList {
    /// Its number and its range of text.
    pub at: Place,
    /// The parameters, in their order.
    pub parameters: Vec<Parameter>,
}

impl Drop for ParameterList {
    #[cycle(release)]
    fn drop(self) {
        let ParameterList {
            at: _,
            parameters: _,
        } = self;
    }
}

/// A parameter of a function, or an optional one of a function type.
#[cycle(tree)]
pub struct Parameter {
    /// Its number and its range of text.
    pub at: Place,
    /// Its annotations.
    pub metadata: Vec<Annotation>,
    /// How arguments are given to it.
    pub kind: ParameterKind,
    /// Whether `required` is written.
    pub is_required: bool,
    /// Whether `final` is written.
    pub is_final: bool,
    /// Its type, where one is written.
    pub written: Option<WrittenType>,
    /// Whether `this.` is written: it initializes the field of its name.
    pub is_field: bool,
    /// Its name.
    pub name: Name,
    /// What it is without an argument, where that is written.
    pub default_value: Option<Expr>,
}

impl Drop for Parameter {
    #[cycle(release)]
    fn drop(self) {
        let Parameter {
            at: _,
            metadata: _,
            kind: _,
            is_required: _,
            is_final: _,
            written: _,
            is_field: _,
            name: _,
            default_value: _,
        } = self;
    }
}

/// What a function runs.
#[cycle(tree)]
pub struct Body {
    /// Its form, with its parts.
    pub node: BodyNode,
}

impl Drop for Body {
    #[cycle(release)]
    fn drop(self) {
        let Body { node } = self;
        drop(node);
    }
}

/// The forms of a body.
#[cycle(tree)]
#[derive(Drop)]
pub enum BodyNode {
    /// `{ .. }`, as a statement or as a body.
    Block { at: Place, statements: Vec<Stmt> },
    /// `=> e`, with its `;` where there is one.
    Expression { at: Place, value: Expr },
    /// `;`.
    Empty { at: Place },
    /// `native;`.
    Native { at: Place },
}

/// A function with its name, in a library, a class or among statements.
#[cycle(tree)]
pub struct Function {
    /// Its form, with its parts.
    pub node: Box<FunctionNode>,
}

impl Drop for Function {
    #[cycle(release)]
    fn drop(self) {
        let Function { node } = self;
        drop(node);
    }
}

/// The forms of a function.
#[cycle(tree)]
#[derive(Drop)]
pub enum FunctionNode {
    /// `T get x` and a body.
    Getter {
        at: Place,
        result: Option<WrittenType>,
        name: Name,
        body: Body,
    },
    /// `T set x(a)` and a body.
    Setter {
        at: Place,
        result: Option<WrittenType>,
        name: Name,
        parameters: ParameterList,
        body: Body,
    },
    /// `T f<X>(a)` and a body.
    Plain {
        at: Place,
        result: Option<WrittenType>,
        name: Name,
        type_parameters: Vec<TypeParameter>,
        parameters: ParameterList,
        body: Body,
    },
}

/// Variables that are declared together, without the semicolon.
#[cycle(tree)]
pub struct VariableList {
    /// Its number and its range of text.
    pub at: Place,
    /// Whether `final` is written.
    pub is_final: bool,
    /// Their type, where one is written.
    pub written: Option<WrittenType>,
    /// The variables, at least one.
    pub variables: Vec<Variable>,
}

impl Drop for VariableList {
    #[cycle(release)]
    fn drop(self) {
        let VariableList {
            at: _,
            is_final: _,
            written: _,
            variables: _,
        } = self;
    }
}

/// A variable of a declaration.
#[cycle(tree)]
pub struct Variable {
    /// Its number and its range of text.
    pub at: Place,
    /// Its name.
    pub name: Name,
    /// What it is at first, where that is written.
    pub initializer: Option<Expr>,
}

impl Drop for Variable {
    #[cycle(release)]
    fn drop(self) {
        let Variable {
            at: _,
            name: _,
            initializer: _,
        } = self;
    }
}

impl Model for ParameterList {
    ghost use Rattle.dart_tree.specs.Tree.{Tree};
    ghost use Rattle.dart_tree.specs.TreeCode.{tree_code};
    ghost use Rattle.dart_tree.specs.Numbers.{nodes_in};

    ghost Value = { Tree };

    ghost coded = { tree_code };

    ghost use Rattle.dart_tree.specs.Parts.{parameter_list_of};

    ghost view = { λ a. parameter_list_of a };

    ghost size = { nodes_in };

    ghost use Rattle.dart_tree.specs.Falls.{parameter_list_falls};

    ghost size_decreases = { λ a h. parameter_list_falls a };
}

impl Model for Parameter {
    ghost use Rattle.dart_tree.specs.Tree.{Tree};
    ghost use Rattle.dart_tree.specs.TreeCode.{tree_code};
    ghost use Rattle.dart_tree.specs.Numbers.{nodes_in};

    ghost Value = { Tree };

    ghost coded = { tree_code };

    ghost use Rattle.dart_tree.specs.Parts.{parameter_of};

    ghost view = { λ a. parameter_of a };

    ghost size = { nodes_in };

    ghost use Rattle.dart_tree.specs.Falls.{parameter_falls};

    ghost size_decreases = { λ a h. parameter_falls a };
}

impl Model for Body {
    ghost use Rattle.dart_tree.specs.Tree.{Tree};
    ghost use Rattle.dart_tree.specs.TreeCode.{tree_code};
    ghost use Rattle.dart_tree.specs.Numbers.{nodes_in};

    ghost Value = { Tree };

    ghost coded = { tree_code };

    ghost use Rattle.dart_tree.specs.View.{body_of};

    ghost view = { λ a. body_of a.node };

    ghost size = { nodes_in };

    ghost use Rattle.dart_tree.specs.Falls.{body_falls};

    ghost size_decreases = { λ a h. body_falls a.node };
}

impl Model for Function {
    ghost use Rattle.dart_tree.specs.Tree.{Tree};
    ghost use Rattle.dart_tree.specs.TreeCode.{tree_code};
    ghost use Rattle.dart_tree.specs.Numbers.{nodes_in};

    ghost Value = { Tree };

    ghost coded = { tree_code };

    ghost use Rattle.dart_tree.specs.View.{function_of};

    ghost view = { λ a. function_of a.node.value };

    ghost size = { nodes_in };

    ghost use Rattle.dart_tree.specs.Falls.{function_falls};

    ghost size_decreases = { λ a h. function_falls a.node.value };
}

impl Model for VariableList {
    ghost use Rattle.dart_tree.specs.Tree.{Tree};
    ghost use Rattle.dart_tree.specs.TreeCode.{tree_code};
    ghost use Rattle.dart_tree.specs.Numbers.{nodes_in};

    ghost Value = { Tree };

    ghost coded = { tree_code };

    ghost use Rattle.dart_tree.specs.Parts.{variable_list_of};

    ghost view = { λ a. variable_list_of a };

    ghost size = { nodes_in };

    ghost use Rattle.dart_tree.specs.Falls.{variable_list_falls};

    ghost size_decreases = { λ a h. variable_list_falls a };
}

impl Model for Variable {
    ghost use Rattle.dart_tree.specs.Tree.{Tree};
    ghost use Rattle.dart_tree.specs.TreeCode.{tree_code};
    ghost use Rattle.dart_tree.specs.Numbers.{nodes_in};

    ghost Value = { Tree };

    ghost coded = { tree_code };

    ghost use Rattle.dart_tree.specs.Parts.{variable_of};

    ghost view = { λ a. variable_of a };

    ghost size = { nodes_in };

    ghost use Rattle.dart_tree.specs.Falls.{variable_falls};

    ghost size_decreases = { λ a h. variable_falls a };
}
