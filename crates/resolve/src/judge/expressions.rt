//! What expressions give.

#![tactic(auto, using(std::proofs::lemmas::Grind::common_steps, crate::proofs::Saying::said_no_more, crate::proofs::Saying::said_twice))]

ghost use Rattle.std.specs.Prelude.{◌≡◌, ◌∷◌, [], is_some, None, IfOk, OnOk, if◌then◌else◌};
ghost use Rattle.std.specs.Option.{option_copied};
ghost use Rattle.dart_tree.specs.Tree.{Part, binary_expression, call, trees_of};
ghost use Rattle.flow_model.specs.Flow.{facts_of};
ghost use Rattle.dart_types.specs.Invalid.{holds_invalid};
ghost use Rattle.dart_types.specs.Ty.{invalid, null, void};
ghost use Rattle.judgement.specs.Given.{exits_if_never, faulty, of_type};
ghost use Rattle.judgement.specs.ExpressionRows as row;
ghost use Rattle.judgement.specs.Judgement as judgement;
ghost use Rattle.judgement.specs.Judgement.{printed, printed_value};
ghost use Rattle.judgement.specs.Literals.{integer_of};
ghost use Rattle.judgement.specs.Surroundings.{Names, lexeme_of, meaning_of};
ghost use Rattle.judgement.specs.Written.{named_by};
ghost use Rattle.resolve.specs.Around.{around};
ghost use Rattle.resolve.specs.Judged.{IfEvaluates, IfHas, IfJudges, IfRowEvaluates, Says, typed_of};
ghost use Rattle.resolve.specs.Points.{assigned, by_form, evaluated, known, named, printed_at, surroundings, tested};
ghost use Rattle.resolve.specs.Rows.{said_of};

use super::operators::{check_fit, differ, operate, parameter_of};
use super::types::{invalid_type, is_never, operation_of};
use super::writes::{assign, wanted_by};
use super::{Context, Found, Point, Typed, of_type, report};
use crate::names::NamesInScope;
use dart_tree::{
    Argument, ArgumentList, BinaryOperator, BinaryOperatorKind, Expr, ExprNode, Place,
};
use dart_types::{DartType, TypeNode};
use flow_model::{Flow, LocalId};
use judgement::{DiagnosticCode, Fault, Meaning, TypedNode, integer_of};
use std::alloc::AllocError;
use std::rc::Rc;

// What an expression gives, where a type is wanted of it or none, and what is said of its nodes.
#[cycle(expression)]
pub(super) fn judge_expression(
    point: Point,
    expression: &Expr,
    wanted: Option<&DartType>,
    found: &mut Found,
) -> Result<Typed, AllocError>
    ensures { IfJudges found.old found.new result expression.now (evaluated point.entry expression.now (option_copied wanted.entry)) }
{
    let row = judge_form(point, expression, wanted, found)?;
    let typed = exit_if_never(point.context, row)?;
    say(point, expression, &typed, found)?;
    Ok(typed)
}

// What its form gives.
#[cycle(expression)]
fn judge_form(
    point: Point,
    expression: &Expr,
    wanted: Option<&DartType>,
    found: &mut Found,
) -> Result<Typed, AllocError>
    ensures { IfJudges found.old found.new result expression.now (by_form point.entry expression.now (option_copied wanted.entry)) }
{
    match &*expression.node {
        ExprNode::Identifier { at, word } => read_name(point, *at, *word, &mut found.faults),
        ExprNode::Integer { at, word } => judge_integer(point, *at, *word, &mut found.faults),
        ExprNode::Boolean { at, value } => judge_boolean(point, *at, *value),
        ExprNode::Null { at } => judge_null(point, *at),
        ExprNode::Parenthesis { at, inner } => {
            let typed = judge_expression(point, inner, wanted, found)?;
            Ok(Typed { at: *at, ..typed })
        }
        ExprNode::Binary {
            at,
            operator,
            left,
            right,
        } => judge_operator(point, *at, *operator, left, right, found),
        ExprNode::Assignment {
            at,
            target,
            value,
            ..
        } => judge_assignment(point, *at, target, value, found),
        ExprNode::Call {
            at,
            callee,
            arguments,
            ..
        } => judge_call(point, *at, callee, arguments, found),
        _ => of_type(expression.place(), invalid_type(), point.before.clone()?),
    }
}

// An operator: the left side is judged before the right one, of which what the operator takes is
// wanted.
#[cycle(expression)]
fn judge_operator(
    point: Point,
    at: Place,
    operator: BinaryOperator,
    left: &Expr,
    right: &Expr,
    found: &mut Found,
) -> Result<Typed, AllocError>
    ensures { IfEvaluates found.old found.new result at (by_form point.entry (binary_expression at operator left.now right.now) None) }
{
    let context = point.context;
    let first = judge_expression(point, left, None, found)?;
    let behind = Point {
        before: &first.after,
        ..point
    };
    if operator.kind == BinaryOperatorKind::NotEqual {
        let compared = compared_local(context, point.names, left, right);
        let second = judge_expression(behind, right, None, found)?;
        return differ(context, at, compared, &second);
    }
    let operation = operation_of(context, &first.ty, operator.kind)?;
    let wanted = parameter_of(&operation);
    let second = judge_expression(behind, right, wanted, found)?;
    operate(
        context,
        at,
        operator,
        &operation,
        &first,
        &second,
        &mut found.faults,
    )
}

// An assignment: its value is judged, of which the local's type is wanted, before the local is
// written.
#[cycle(expression)]
fn judge_assignment(
    point: Point,
    at: Place,
    target: &Expr,
    value: &Expr,
    found: &mut Found,
) -> Result<Typed, AllocError>
    ensures { IfEvaluates found.old found.new result at (assigned point.entry target.now value.now) }
{
    let meaning = named_by(point.context, point.names, target);
    let wanted = wanted_by(meaning, point.before);
    let value = judge_expression(point, value, wanted, found)?;
    assign(
        point.context,
        at,
        meaning,
        target.place(),
        &value,
        &mut found.faults,
    )
}

// A call, of which only those of `print` are judged so far.
#[cycle(expression)]
fn judge_call(
    point: Point,
    at: Place,
    callee: &Expr,
    arguments: &ArgumentList,
    found: &mut Found,
) -> Result<Typed, AllocError>
    ensures { (types : Part) → IfEvaluates found.old found.new result at (by_form point.entry (call at callee.now types arguments.now) None) }
{
    let before = point.before;
    match named_by(point.context, point.names, callee) {
        Meaning::Print => judge_printed(point, at, &arguments.node.arguments, found),
        Meaning::Nothing => of_type(at, invalid_type(), before.clone()?),
        Meaning::Local(_) => of_type(at, invalid_type(), before.clone()?),
        Meaning::Class(_) => of_type(at, invalid_type(), before.clone()?),
        Meaning::Other => of_type(at, invalid_type(), before.clone()?),
    }
}

// A call of `print` with these arguments: one.
#[cycle(expression)]
fn judge_printed(
    point: Point,
    at: Place,
    arguments: &[Argument],
    found: &mut Found,
) -> Result<Typed, AllocError>
    ensures { IfEvaluates found.old found.new result at (printed (surroundings point.entry) (trees_of arguments.now) (known point.entry)) }
{
    if arguments.len() == 1 {
        return judge_argument(point, at, &arguments[0], found);
    }
    unjudged(at, point.before)
}

// What isn't judged yet says nothing.
fn unjudged(at: Place, before: &Rc<Flow>) -> Result<Typed, AllocError>
    ensures row { IfOk result (λ typed. typed_of typed ≡ of_type invalid before.now.value) }
    ensures place { IfOk result (λ typed. typed.at ≡ at) }
{
    of_type(at, invalid_type(), before.clone()?)
}

// A call of `print` with this argument.
#[cycle(expression)]
fn judge_argument(
    point: Point,
    at: Place,
    argument: &Argument,
    found: &mut Found,
) -> Result<Typed, AllocError>
    ensures { IfEvaluates found.old found.new result at (printed_value (surroundings point.entry) argument.now (known point.entry)) }
{
    judge_print(point, at, &argument.value, found)
}

// A call of `print`, which takes any value and gives none.
#[cycle(expression)]
fn judge_print(
    point: Point,
    at: Place,
    value: &Expr,
    found: &mut Found,
) -> Result<Typed, AllocError>
    ensures { IfEvaluates found.old found.new result at (printed_at point.entry value.now) }
{
    let printed = judge_expression(point, value, None, found)?;
    check_fit(
        point.context.rows,
        DiagnosticCode::ArgumentType,
        &printed,
        point.context.core.any(),
        &mut found.faults,
    )?;
    of_type(at, printed_type(&printed.ty), printed.after.clone()?)
}

// The type of a call of `print`: it gives no value; of an argument whose type holds Invalid no more is
// said.
fn printed_type(argument: &DartType) -> DartType
    ensures { result ≡ (if holds_invalid argument.now then invalid else void) }
{
    if argument.holds_invalid() {
        return invalid_type();
    }
    DartType {
        node: TypeNode::Void,
    }
}

// An expression of type Never exits: nothing is reached behind it.
fn exit_if_never(context: Context, typed: Typed) -> Result<Typed, AllocError>
    ensures place { IfOk result (λ exited. exited.at ≡ typed.at) }
    ensures row { IfOk result (λ exited. typed_of exited ≡ exits_if_never (typed_of typed)) }
{
    if !is_never(&typed.ty) {
        return Ok(typed);
    }
    let after = Flow::behind_exit(context.alloc, &typed.after)?;
    let when_true = Flow::behind_exit(context.alloc, &typed.when_true)?;
    let when_false = Flow::behind_exit(context.alloc, &typed.when_false)?;
    Ok(Typed {
        after,
        when_true,
        when_false,
        ..typed
    })
}

// Adds what is said of an expression that was judged there, if that is kept.
#[tactic(auto, using(crate::proofs::Saying::said_unkept))]
fn say(point: Point, expression: &Expr, typed: &Typed, found: &mut Found) -> Result<(), AllocError>
    ensures faults { OnOk result (found.new.faults.items ≡ found.old.faults.items) }
    ensures nodes { Says found.old.nodes found.new.nodes result (said_of typed.now (judgement.element_of (surroundings point.entry) expression.now) (known point.entry) ∷ []) }
{
    if !found.nodes.is_kept() {
        return Ok(());
    }
    found.nodes.add(TypedNode {
        node: typed.at.node,
        ty: Some(typed.ty.copy(point.context.alloc)?),
        element: element_of(point.context, point.names, expression),
        before: point.before.clone()?,
        after: typed.after.clone()?,
        when_true: typed.when_true.clone()?,
        when_false: typed.when_false.clone()?,
    })?;
    Ok(())
}

// What a word means: the local of that name, and else what it means outside of the body.
pub(super) fn meaning_of(context: Context, names: &NamesInScope, word: u32) -> Meaning
    ensures { result ≡ meaning_of (around context.entry names.now) word }
{
    match names.local(word) {
        Some(var) => Meaning::Local(var),
        None => match context.outside.get(word as usize) {
            Some(meaning) => *meaning,
            None => Meaning::Nothing,
        },
    }
}

// What an expression names, in parentheses too.
pub(super) fn named_by(context: Context, names: &NamesInScope, expression: &Expr) -> Meaning
    ensures { result ≡ named_by (around context.entry names.now) expression.now }
{
    match &*expression.node {
        ExprNode::Identifier { word, .. } => meaning_of(context, names, *word),
        ExprNode::Parenthesis { inner, .. } => named_by(context, names, inner),
        _ => Meaning::Nothing,
    }
}

// What the node of an expression names, or writes.
fn element_of(context: Context, names: &NamesInScope, expression: &Expr) -> Option<Meaning>
    ensures { result ≡ judgement.element_of (around context.entry names.now) expression.now }
{
    match &*expression.node {
        ExprNode::Identifier { word, .. } => Some(meaning_of(context, names, *word)),
        ExprNode::Parenthesis { inner, .. } => element_of(context, names, inner),
        ExprNode::Assignment { target, .. } => Some(named_by(context, names, target)),
        ExprNode::Call { callee, .. } => Some(named_by(context, names, callee)),
        _ => None,
    }
}

// The local that a comparison of these sides compares with the literal `null`.
fn compared_local(
    context: Context,
    names: &NamesInScope,
    left: &Expr,
    right: &Expr,
) -> Option<LocalId>
    ensures { result ≡ judgement.compared_local (around context.entry names.now) left.now right.now }
{
    if is_null_literal(right) {
        return as_local(named_by(context, names, left));
    }
    if is_null_literal(left) {
        return as_local(named_by(context, names, right));
    }
    None
}

// Whether an expression is the literal `null`.
fn is_null_literal(expression: &Expr) -> bool
    ensures { result ≡ judgement.is_null_literal expression.now }
{
    match &*expression.node {
        ExprNode::Null { .. } => true,
        _ => false,
    }
}

// The local that a name means, if it means one.
fn as_local(meaning: Meaning) -> Option<LocalId>
    ensures { result ≡ judgement.as_local meaning }
{
    match meaning {
        Meaning::Local(var) => Some(var),
        Meaning::Nothing => None,
        Meaning::Print => None,
        Meaning::Class(_) => None,
        Meaning::Other => None,
    }
}

// A condition must be a bool.
pub(super) fn judge_condition(
    point: Point,
    condition: &Expr,
    found: &mut Found,
) -> Result<Typed, AllocError>
    ensures { IfJudges found.old found.new result condition.now (tested point.entry condition.now) }
{
    let bool = point.context.core.bool();
    let typed = judge_expression(point, condition, Some(bool), found)?;
    check_fit(
        point.context.rows,
        DiagnosticCode::ConditionNotBool,
        &typed,
        bool,
        &mut found.faults,
    )?;
    Ok(typed)
}

// An integer literal is an int, if its value is in range.
fn judge_integer(
    point: Point,
    at: Place,
    word: u32,
    faults: &mut Vec<Fault>,
) -> Result<Typed, AllocError>
    ensures { IfRowEvaluates faults.old faults.new result at (row.integer_row (surroundings point.entry) at word (known point.entry)) }
{
    if has_value(point.context, word) {
        let ty = point.context.core.int().copy(point.context.alloc)?;
        return of_type(at, ty, point.before.clone()?);
    }
    faulty(
        at,
        DiagnosticCode::IntegerLiteralOutOfRange,
        point.before,
        faults,
    )
}

// Whether the lexeme of a word is that of an integer literal that is in range.
fn has_value(context: Context, word: u32) -> bool
    ensures { (names : Names) → result ≡ is_some (integer_of (lexeme_of (around context.entry names) word)) }
{
    match context.words.get(word as usize) {
        Some(lexeme) => integer_of(lexeme.as_str().as_bytes()).is_some(),
        None => integer_of(&[]).is_some(),
    }
}

// `true` and `false` are bools, and nothing is reached where one would be the other.
fn judge_boolean(point: Point, at: Place, value: bool) -> Result<Typed, AllocError>
    ensures { IfHas result at (row.boolean_row value (known point.entry)) }
{
    let before = point.before;
    let ty = point.context.core.bool().copy(point.context.alloc)?;
    let after = before.clone()?;
    let unreached = Flow::behind_exit(point.context.alloc, before)?;
    if value {
        return Ok(Typed {
            at,
            ty,
            after,
            when_true: before.clone()?,
            when_false: unreached,
        });
    }
    Ok(Typed {
        at,
        ty,
        after,
        when_true: unreached,
        when_false: before.clone()?,
    })
}

// `null` is of type Null.
fn judge_null(point: Point, at: Place) -> Result<Typed, AllocError>
    ensures { IfHas result at (of_type null (known point.entry)) }
{
    let ty = point.context.core.null().copy(point.context.alloc)?;
    of_type(at, ty, point.before.clone()?)
}

// A name is read as the local that it means.
fn read_name(
    point: Point,
    at: Place,
    word: u32,
    faults: &mut Vec<Fault>,
) -> Result<Typed, AllocError>
    ensures { IfRowEvaluates faults.old faults.new result at (named point.entry at word) }
{
    let before = point.before;
    match meaning_of(point.context, point.names, word) {
        Meaning::Local(var) => read_local(point.context, at, var, before, faults),
        Meaning::Nothing => faulty(at, DiagnosticCode::UndefinedName, before, faults),
        Meaning::Class(_) => faulty(at, DiagnosticCode::UndefinedName, before, faults),
        Meaning::Print => of_type(at, invalid_type(), before.clone()?),
        Meaning::Other => of_type(at, invalid_type(), before.clone()?),
    }
}

// A local is read with its current type, if it is declared before and assigned.
fn read_local(
    context: Context,
    at: Place,
    var: LocalId,
    before: &Rc<Flow>,
    faults: &mut Vec<Fault>,
) -> Result<Typed, AllocError>
    ensures { IfRowEvaluates faults.old faults.new result at (row.read_row at (facts_of before.now.value var) before.now.value) }
{
    match before.facts(var) {
        Some(facts) => {
            if facts.assigned {
                let ty = facts.current().copy(context.alloc)?;
                return of_type(at, ty, before.clone()?);
            }
            faulty(at, DiagnosticCode::UnassignedRead, before, faults)
        }
        None => faulty(
            at,
            DiagnosticCode::ReferencedBeforeDeclaration,
            before,
            faults,
        ),
    }
}

// What has a diagnostic has the type Invalid.
fn faulty(
    at: Place,
    code: DiagnosticCode,
    before: &Rc<Flow>,
    faults: &mut Vec<Fault>,
) -> Result<Typed, AllocError>
    ensures { IfRowEvaluates faults.old faults.new result at (faulty at.span code before.now.value) }
{
    report(at.span, code, faults)?;
    of_type(at, invalid_type(), before.clone()?)
}
