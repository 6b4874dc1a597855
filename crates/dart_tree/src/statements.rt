//! Statements and their parts.

use crate::expressions::Expr;
use crate::functions::{Function, VariableList};
use crate::names::{Identifier, ListedName, Name};
use crate::places::Place;
use crate::types::WrittenType;
use std::marker::Model;

/// A statement.
#[cycle(tree)]
pub struct Stmt {
    /// Its form, with its parts.
    pub node: Box<StmtNode>,
}

impl Drop for Stmt {
    #[cycle(release)]
    fn drop(self) {
        let Stmt { node } = self;
        drop(node);
    }
}

/// The forms of a statement.
#[cycle(tree)]
#[derive(Drop)]
pub enum StmtNode {
    /// `{ .. }`, as a statement or as a body.
    Block {
        at: Place,
        statements: Vec<Stmt>,
    },
    /// `int x = e;`.
    Variables {
        at: Place,
        variables: VariableList,
    },
    /// A function declared among statements.
    Function {
        at: Place,
        function: Function,
    },
    /// `e;`, or `;` alone.
    Expression {
        at: Place,
        value: Option<Expr>,
    },
    /// `if (c) s`, `if (c) s else t`.
    If {
        at: Place,
        condition: Expr,
        then_branch: Stmt,
        else_branch: Option<Stmt>,
    },
    /// `while (c) s`.
    While {
        at: Place,
        condition: Expr,
        body: Stmt,
    },
    /// `do s while (c);`.
    Do {
        at: Place,
        body: Stmt,
        condition: Expr,
    },
    /// `for (i; c; u, v) s`, where `i` declares variables or is an expression.
    For {
        at: Place,
        initializer: Box<ForInitializer>,
        condition: Option<Expr>,
        updates: Vec<Expr>,
        body: Stmt,
    },
    /// `for (final int x in e) s`: the variable is declared.
    ForIn {
        at: Place,
        is_final: bool,
        written: Option<WrittenType>,
        name: Name,
        iterable: Expr,
        body: Stmt,
    },
    /// `for (x in e) s`: a variable declared elsewhere.
    ForInAssignment {
        at: Place,
        name: Name,
        iterable: Expr,
        body: Stmt,
    },
    /// `switch (e) { .. }`.
    Switch {
        at: Place,
        value: Expr,
        cases: Vec<SwitchCase>,
    },
    /// `try { .. } on T catch (e) { .. } finally { .. }`.
    Try {
        at: Place,
        parts: Box<TryParts>,
    },
    /// `return e;`, `return;`.
    Return {
        at: Place,
        value: Option<Expr>,
    },
    /// `break l;`, `break;`.
    Break {
        at: Place,
        label: Option<Identifier>,
    },
    /// `continue l;`, `continue;`.
    Continue {
        at: Place,
        label: Option<Identifier>,
    },
    /// `rethrow;`.
    Rethrow {
        at: Place,
    },
    /// `l: s`.
    Labeled {
        at: Place,
        label: Name,
        body: Stmt,
    },
    /// What derives nothing.
    Error {
        at: Place,
    },
}

/// What a `for` begins with.
#[cycle(tree)]
#[derive(Drop)]
pub enum ForInitializer {
    /// Nothing.
    Absent,
    /// Variables that are declared, `int i = 0`.
    Variables(VariableList),
    /// An expression.
    Expression(Expr),
}

/// The parts of a `try`.
#[cycle(tree)]
#[derive(Drop)]
pub struct TryParts {
    /// What is run.
    pub body: Block,
    /// What is done with what is thrown.
    pub handlers: Vec<CatchClause>,
    /// What is run at last, where that is written.
    pub finally_block: Option<Block>,
}

/// Statements between braces, as the body of a `try`, a `catch` or a `finally`.
#[cycle(tree)]
pub struct Block {
    /// Its number and its range of text.
    pub at: Place,
    /// The statements, in their order.
    pub statements: Vec<Stmt>,
}

impl Drop for Block {
    #[cycle(release)]
    fn drop(self) {
        let Block {
            at: _,
            statements: _,
        } = self;
    }
}

/// A case of a switch, with all its labels.
#[cycle(tree)]
pub struct SwitchCase {
    /// Its number and its range of text.
    pub at: Place,
    /// The values behind `case`, in their order.
    pub labels: Vec<Expr>,
    /// Whether `default:` is written.
    pub is_default: bool,
    /// The statements, in their order.
    pub statements: Vec<Stmt>,
}

impl Drop for SwitchCase {
    #[cycle(release)]
    fn drop(self) {
        let SwitchCase {
            at: _,
            labels: _,
            is_default: _,
            statements: _,
        } = self;
    }
}

/// What a `try` does with some of what is thrown.
#[cycle(tree)]
pub struct CatchClause {
    /// Its number and its range of text.
    pub at: Place,
    /// The type behind `on`, where one is written.
    pub written: Option<WrittenType>,
    /// The name of what is caught, where one is written.
    pub exception: Option<ListedName>,
    /// The name of its stack trace, where one is written.
    pub stack_trace: Option<ListedName>,
    /// What is run then.
    pub body: Block,
}

impl Drop for CatchClause {
    #[cycle(release)]
    fn drop(self) {
        let CatchClause {
            at: _,
            written: _,
            exception: _,
            stack_trace: _,
            body: _,
        } = self;
    }
}

impl Model for Stmt {
    ghost use Rattle.dart_tree.specs.Tree.{Tree};
    ghost use Rattle.dart_tree.specs.TreeCode.{tree_code};
    ghost use Rattle.dart_tree.specs.Numbers.{nodes_in};

    ghost Value = { Tree };

    ghost coded = { tree_code };

    ghost use Rattle.dart_tree.specs.View.{stmt_of};

    ghost view = { λ a. stmt_of a.node.value };

    ghost size = { nodes_in };

    ghost use Rattle.dart_tree.specs.Falls.{stmt_falls};

    ghost size_decreases = { λ a h. stmt_falls a.node.value };
}

impl Model for Block {
    ghost use Rattle.dart_tree.specs.Tree.{Tree};
    ghost use Rattle.dart_tree.specs.TreeCode.{tree_code};
    ghost use Rattle.dart_tree.specs.Numbers.{nodes_in};

    ghost Value = { Tree };

    ghost coded = { tree_code };

    ghost use Rattle.dart_tree.specs.Parts.{block_of};

    ghost view = { λ a. block_of a };

    ghost size = { nodes_in };

    ghost use Rattle.dart_tree.specs.Falls.{block_falls};

    ghost size_decreases = { λ a h. block_falls a };
}

impl Model for SwitchCase {
    ghost use Rattle.dart_tree.specs.Tree.{Tree};
    ghost use Rattle.dart_tree.specs.TreeCode.{tree_code};
    ghost use Rattle.dart_tree.specs.Numbers.{nodes_in};

    ghost Value = { Tree };

    ghost coded = { tree_code };

    ghost use Rattle.dart_tree.specs.Parts.{switch_case_of};

    ghost view = { λ a. switch_case_of a };

    ghost size = { nodes_in };

    ghost use Rattle.dart_tree.specs.Falls.{switch_case_falls};

    ghost size_decreases = { λ a h. switch_case_falls a };
}

impl Model for CatchClause {
    ghost use Rattle.dart_tree.specs.Tree.{Tree};
    ghost use Rattle.dart_tree.specs.TreeCode.{tree_code};
    ghost use Rattle.dart_tree.specs.Numbers.{nodes_in};

    ghost Value = { Tree };

    ghost coded = { tree_code };

    ghost use Rattle.dart_tree.specs.Parts.{catch_clause_of};

    ghost view = { λ a. catch_clause_of a };

    ghost size = { nodes_in };

    ghost use Rattle.dart_tree.specs.Falls.{catch_clause_falls};

    ghost size_decreases = { λ a h. catch_clause_falls a };
}
