//! Code: steps one after another, choices and loops, without numbers of points.

ghost use Rattle.std.specs.Prelude.{◌≡◌, IfOk};
ghost use Rattle.core_emit.specs.Code.{nothing, leaf, sequence, in_order, choice, loop};

use crate::steps::{Step, Test};
use core_ir::{Facts, Span};
use std::alloc::{AllocError, Global};
use std::marker::Model;

/// Code, with what is known before each term. Contracts see it as its value, the `Code` of
/// `specs/Code.antt`, so that code with equal parts is equal.
#[cycle(code)]
#[derive(Drop)]
pub struct Code {
    pub(crate) node: CodeNode,
}

impl Model for Code {
    ghost use Rattle.core_emit.specs.Code as code;
    ghost use Rattle.core_emit.specs.StoredCode.{code_code};

    ghost Value = { code.Code };

    ghost coded = { code_code };

    ghost use Rattle.core_emit.specs.Node.{code_of};

    ghost view = { λ a. code_of a.node };

    ghost size = { code.height_of };

    ghost use Rattle.core_emit.specs.NodeFalls.{node_falls};

    ghost size_decreases = { λ a h. node_falls a.node };
}

/// The forms of code.
#[cycle(code)]
#[derive(Drop)]
pub(crate) enum CodeNode {
    /// What does nothing: it has no points.
    Nothing,
    /// A step.
    Leaf {
        site: Option<Span>,
        facts: Facts,
        step: Step,
    },
    /// Two parts, one after the other.
    Pair(Box<Pair>),
    /// Any number of parts, one after another.
    InOrder(Vec<Code>),
    /// One of two parts.
    Choice(Box<Choice>),
    /// A part that is done as long as a test holds.
    Loop(Box<Loop>),
}

/// Two parts, one after the other.
#[cycle(code)]
#[derive(Drop)]
pub(crate) struct Pair {
    pub(crate) first: Code,
    pub(crate) second: Code,
}

/// A test, and the part for each way on.
#[cycle(code)]
#[derive(Drop)]
pub(crate) struct Choice {
    pub(crate) site: Option<Span>,
    pub(crate) facts: Facts,
    pub(crate) test: Test,
    pub(crate) first: Code,
    pub(crate) second: Code,
}

/// A head, at which the condition is done, the test behind it, and the body, which goes back to the head.
#[cycle(code)]
#[derive(Drop)]
pub(crate) struct Loop {
    pub(crate) site: Option<Span>,
    pub(crate) head: Facts,
    pub(crate) facts: Facts,
    pub(crate) condition: Code,
    pub(crate) test: Test,
    pub(crate) body: Code,
}

impl Code {
    /// What does nothing. It takes no memory.
    pub fn nothing() -> Code
        ensures { result ≡ nothing }
    {
        Code {
            node: CodeNode::Nothing,
        }
    }

    /// A step that is done where this is known. It takes no memory.
    pub fn leaf(site: Option<Span>, facts: Facts, step: Step) -> Code
        ensures { result ≡ leaf site facts step }
    {
        Code {
            node: CodeNode::Leaf { site, facts, step },
        }
    }

    /// Two parts, one after the other.
    pub fn pair(alloc: Global, first: Code, second: Code) -> Result<Code, AllocError>
        ensures { IfOk result (λ code. code ≡ sequence first second) }
    {
        Ok(Code {
            node: CodeNode::Pair(Box::new(alloc, Pair { first, second })?),
        })
    }

    /// Any number of parts, one after another. It takes no memory.
    pub fn in_order(parts: Vec<Code>) -> Code
        ensures { result ≡ in_order parts.items }
    {
        Code {
            node: CodeNode::InOrder(parts),
        }
    }

    /// A test where this is known, with the part that is done where it holds, and the one where it doesn't.
    pub fn choice(
        alloc: Global,
        site: Option<Span>,
        facts: Facts,
        test: Test,
        first: Code,
        second: Code,
    ) -> Result<Code, AllocError>
        ensures { IfOk result (λ code. code ≡ choice site facts test first second) }
    {
        let choice = Choice {
            site,
            facts,
            test,
            first,
            second,
        };
        Ok(Code {
            node: CodeNode::Choice(Box::new(alloc, choice)?),
        })
    }

    /// A loop: `head` is known where its condition is done, and `facts` at the test behind it.
    pub fn repeat(
        alloc: Global,
        site: Option<Span>,
        head: Facts,
        facts: Facts,
        condition: Code,
        test: Test,
        body: Code,
    ) -> Result<Code, AllocError>
        ensures { IfOk result (λ code. code ≡ loop site head facts condition test body) }
    {
        let repeated = Loop {
            site,
            head,
            facts,
            condition,
            test,
            body,
        };
        Ok(Code {
            node: CodeNode::Loop(Box::new(alloc, repeated)?),
        })
    }
}
