//! The judge: what the rules say of a body, one function for each row.

mod core_types;
mod expressions;
mod models;
mod operators;
mod receivers;
mod statements;
mod types;
mod writes;
mod written;

ghost use Rattle.std.specs.Prelude.{◌≡◌, IfOk};
ghost use Rattle.judgement.specs.Given.{fault_over, of_type};
ghost use Rattle.resolve.specs.Bodies.{run_body};
ghost use Rattle.resolve.specs.Judged.{Adds, typed_of};
ghost use Rattle.resolve.specs.Said.{kept};

use crate::names::NamesInScope;
use crate::said::{Keep, Said};
use core_types::CoreTypes;
use dart_tree::{Place, Span, Stmt};
use dart_types::{DartType, Rows};
use flow_model::Flow;
use judgement::{DiagnosticCode, Fault, Meaning};
use plain_text::PlainText;
use statements::judge_block;
use std::alloc::{AllocError, Global};
use std::rc::Rc;

/// What the rules say of a body.
#[derive(Drop)]
pub struct Found {
    /// Its diagnostics, in the order in which its statements are judged.
    pub faults: Vec<Fault>,
    /// Its typed tree, if that is kept: what is said of its nodes, those in a node before it.
    pub nodes: Said,
}

/// What the rules say of the block that is the body of a function without parameters, in a library
/// with these classes, in which words mean this outside of functions. A name costs the logarithm of
/// the names and of the locals in scope. What changes what is known of the locals copies it, once;
/// what leaves it as it was shares it. A loop goes through its body once before it is judged, and each
/// write there costs these logarithms too. The error is want of memory.
#[tactic(auto, using(crate::proofs::Saying::said_first))]
pub fn judge_body(
    alloc: Global,
    rows: &Rows,
    words: &[PlainText],
    outside: &[Meaning],
    at: Place,
    statements: &[Stmt],
    keep: Keep,
) -> Result<Found, AllocError>
    ensures faults { IfOk result (λ found. found.faults.items ≡ (run_body rows.now.table words.now outside.now at statements.now).faults) }
    ensures nodes { IfOk result (λ found. found.nodes ≡ kept keep (run_body rows.now.table words.now outside.now at statements.now).nodes) }
{
    let core = CoreTypes::new(alloc)?;
    let context = Context {
        alloc,
        rows,
        words,
        outside,
        core: &core,
    };
    let mut names = NamesInScope::new(alloc);
    let flow = Flow::start(alloc, &[])?;
    let start = Rc::new(alloc, flow)?;
    let faults = Vec::new(alloc);
    let nodes = Said::new(alloc, keep);
    let mut found = Found { faults, nodes };
    judge_block(context, &mut names, at, statements, &start, &mut found)?;
    Ok(found)
}

/// What all of a body is judged with: the allocator, the classes, the words and what they mean outside
/// of the body, and the types that rows name.
#[derive(Clone, Copy)]
struct Context<'a> {
    alloc: Global,
    rows: &'a Rows,
    words: &'a [PlainText],
    outside: &'a [Meaning],
    core: &'a CoreTypes,
}

/// A point of a body: what is judged with, the names that are in scope there, and what is known before
/// it.
#[derive(Clone, Copy)]
struct Point<'a> {
    context: Context<'a>,
    names: &'a NamesInScope,
    before: &'a Rc<Flow>,
}

/// An expression that was judged: where it stands, its static type, and what is known after it, where
/// it is true and where it is false.
#[derive(Drop)]
struct Typed {
    at: Place,
    ty: DartType,
    after: Rc<Flow>,
    when_true: Rc<Flow>,
    when_false: Rc<Flow>,
}

// An expression of the type, which says no more where it is true or false.
fn of_type(at: Place, ty: DartType, after: Rc<Flow>) -> Result<Typed, AllocError>
    ensures row { IfOk result (λ typed. typed_of typed ≡ of_type ty after.value) }
    ensures place { IfOk result (λ typed. typed.at ≡ at) }
{
    let when_true = after.clone()?;
    let when_false = after.clone()?;
    Ok(Typed {
        at,
        ty,
        after,
        when_true,
        when_false,
    })
}

// Adds a diagnostic to those that were found.
fn report(span: Span, code: DiagnosticCode, faults: &mut Vec<Fault>) -> Result<(), AllocError>
    ensures { Adds faults.old faults.new result (fault_over span code) }
{
    faults.push(Fault { span, code })?;
    Ok(())
}
