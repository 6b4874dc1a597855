//! Blocks, and what is declared in them.

ghost use Rattle.std.specs.Prelude.{◌≡◌, ◌≢◌, ◌+◌, ◌≤◌, length, None, Some, Err, IfOk};
ghost use Rattle.readings.specs.Readings.{made};
ghost use Rattle.readings.specs.Descent.{bind, take_token, take_given, take_maybe, take_before, take_inside, take_make, all_items, ◌▸◌};
ghost use Rattle.dart_tree.specs.Tree.{trees_of};
ghost use Rattle.dart_tree.specs.Heights.{higher, height, heights};
ghost use Rattle.grammar.specs.Tokens.{is, heads_name, width, past};
ghost use Rattle.grammar.specs.Statements.{error_of, variables_of, arrow_body_of};
ghost use Rattle.grammar.specs.Descents.{lower, take_separated, take_unread, take_block, take_declared, take_variable, take_variables, take_variable_statement, take_local_body, take_local_rest, take_local_function, take_function_statement};
ghost use Rattle.parse_leaves.specs.declared.miss.Miss.TheVariants.{NoReading};
ghost use Rattle.parse_leaves.specs.Answers.{Gives, IsDeep, AreDeep};
ghost use Rattle.parse_leaves.specs.Parts.{IsPartDeep};

use dart_tokens::Kind;
use dart_tree::{
    Block, Body, BodyNode, Function, FunctionNode, ParameterList, Stmt, StmtNode, Variable,
    VariableList, WrittenType,
};
use grammar::{Setting, Token};
use parse_leaves::{
    Below, Miss, block_body, group, heads, heads_closure, heads_name, heads_untyped, higher, name,
    name_at, place_over, token,
};
use parse_types::{listed_type_parameters, parameter_list, some_initializer, some_type_parameters};
use std::alloc::{AllocError, Global};

/// The error over tokens that are not read yet.
fn unread_error(alloc: Global, tokens: &[Token]) -> Result<Stmt, AllocError>
    ensures reading { IfOk result (λ x. x ≡ error_of tokens.now) }
    ensures deep { IfOk result (λ x. height x ≡ 0) }
{
    let node = Box::new(
        alloc,
        StmtNode::Error {
            at: place_over(tokens, &[]),
        },
    )?;
    Ok(Stmt { node })
}

/// A list of statements that is not read yet: an error over all its tokens, and none where there are
/// no tokens.
#[tactic(auto, using(crate::proofs::Unread::unread_empty, crate::proofs::Unread::unread_some))]
pub fn unread(alloc: Global, tokens: &[Token]) -> Result<Vec<Stmt>, Miss>
    ensures reading { IfOk result (λ x. x.items ≡ all_items (λ ts. None) length error_of tokens.now) }
    ensures deep { IfOk result (λ x. heights (trees_of x.items) ≡ 0) }
    ensures whole { result ≢ Err NoReading }
{
    if tokens.is_empty() {
        return Ok(Vec::new(alloc));
    }
    let mut list = Vec::with_capacity(alloc, 1)?;
    let error = unread_error(alloc, tokens)?;
    list.push(error)?;
    Ok(list)
}

/// The braces of a block.
#[tactic(auto, using(parse_leaves::specs::Groups::inside_outside, parse_leaves::specs::Groups::inside_items))]
pub fn block_group(alloc: Global, tokens: &[Token]) -> Result<(Token, Vec<Stmt>, &[Token]), Miss>
    ensures reading { Gives (λ x. ((x.0, x.1.items), x.2.now)) result (take_inside (is Kind.OpenBrace) width past take_unread tokens.now) }
    ensures deep { IfOk result (λ x. heights (trees_of x.1.items) ≡ 0) }
{
    let Some((opening, inside, rest)) = group(tokens, Kind::OpenBrace) else {
        return Err(Miss::NoReading);
    };
    let list = unread(alloc, inside)?;
    Ok((opening, list, rest))
}

/// A block, of which the statements are not read yet: so it has the height of a single node.
#[tactic(auto, unfolding(grammar::specs::Descents::take_block))]
pub fn block_within(alloc: Global, tokens: &[Token]) -> Result<(Block, u32, &[Token]), Miss>
    ensures reading { Gives (λ x. (x.0, x.2.now)) result (take_block tokens.now) }
    ensures deep { IfOk result (λ x. (x.1 ≡ height x.0) × (x.1 ≡ 1)) }
{
    let (_, statements, rest) = block_group(alloc, tokens)?;
    let at = place_over(tokens, rest);
    Ok((Block { at, statements }, 1, rest))
}

/// A type in front of a name.
#[tactic(auto, using(parse_types::specs::Untyped::untyped_name))]
fn name_type<'k, B: Below<'k>>(
    below: &B,
    alloc: Global,
    tokens: &'k [Token],
) -> Result<(WrittenType, u32, &'k [Token]), Miss>
    requires limit { B.room below.now ≤ 200 }
    requires sound { B.sound below.now }
    ensures reading { Gives (λ x. (x.0, x.2.now)) result (take_before heads_name (lower (B.room below.now)).named tokens.now) }
    ensures deep { IfOk result (λ x. IsDeep (B.room below.now) x.0 x.1) }
{
    if heads_untyped(tokens) {
        return Err(Miss::NoReading);
    }
    let (written, height, rest) = below.named(alloc, tokens)?;
    if !heads_name(rest) {
        return Err(Miss::NoReading);
    }
    Ok((written, height, rest))
}

/// A type in front of a name, if there is one.
pub fn some_name_type<'k, B: Below<'k>>(
    below: &B,
    alloc: Global,
    tokens: &'k [Token],
) -> Result<(Option<WrittenType>, u32, &'k [Token]), Miss>
    requires limit { B.room below.now ≤ 200 }
    requires sound { B.sound below.now }
    ensures reading { Gives (λ x. (x.0, x.2.now)) result (take_maybe (take_before heads_name (lower (B.room below.now)).named) tokens.now) }
    ensures deep { IfOk result (λ x. IsPartDeep (B.room below.now) x.0 x.1) }
{
    match name_type(below, alloc, tokens) {
        Ok((found, height, rest)) => Ok((Some(found), height, rest)),
        Err(Miss::NoReading) => Ok((None, 0, tokens)),
        Err(Miss::Memory) => Err(Miss::Memory),
    }
}

/// What stands before the names of variables: whether they are final, and their type.
#[tactic(auto, unfolding(grammar::specs::Descents::take_declared))]
pub fn declared<'k, B: Below<'k>>(
    below: &B,
    alloc: Global,
    tokens: &'k [Token],
) -> Result<((bool, Option<WrittenType>), u32, &'k [Token]), Miss>
    requires limit { B.room below.now ≤ 200 }
    requires sound { B.sound below.now }
    ensures reading { Gives (λ x. (x.0, x.2.now)) result (take_declared (lower (B.room below.now)) tokens.now) }
    ensures deep { IfOk result (λ x. IsPartDeep (B.room below.now) x.0.1 x.1) }
{
    if heads(tokens, Kind::Final) {
        let (_, rest) = token(tokens, Kind::Final).ok_or(Miss::NoReading)?;
        let (written, height, rest) = some_name_type(below, alloc, rest)?;
        return Ok(((true, written), height, rest));
    }
    if heads(tokens, Kind::Var) {
        let (_, rest) = token(tokens, Kind::Var).ok_or(Miss::NoReading)?;
        return Ok(((false, None), 0, rest));
    }
    let (written, height, rest) = name_type(below, alloc, tokens)?;
    Ok(((false, Some(written)), height, rest))
}

/// A variable and its value.
#[tactic(auto, unfolding(grammar::specs::Descents::take_variable))]
fn variable<'k, B: Below<'k>>(
    below: &B,
    alloc: Global,
    tokens: &'k [Token],
) -> Result<(Variable, u32, &'k [Token]), Miss>
    requires limit { B.room below.now ≤ 200 }
    requires sound { B.sound below.now }
    ensures reading { Gives (λ x. (x.0, x.2.now)) result (take_variable (lower (B.room below.now)) tokens.now) }
    ensures deep { IfOk result (λ x. IsDeep (B.room below.now) x.0 x.1) }
{
    let (word, rest) = name(tokens).ok_or(Miss::NoReading)?;
    let (found, height, rest) = some_initializer(below, alloc, Setting::Plain, rest)?;
    let at = place_over(tokens, rest);
    let name = name_at(word);
    let initializer = found.map(|(_, value)| value);
    Ok((
        Variable {
            at,
            name,
            initializer,
        },
        height,
        rest,
    ))
}

/// Variables with commas between them.
#[tactic(auto, using(parse_leaves::specs::Loops::list_out, parse_leaves::specs::Loops::list_stop, parse_leaves::specs::Commas::comma_goes, parse_leaves::specs::Commas::comma_stop, parse_leaves::specs::Loops::continued_first, parse_leaves::specs::Sizes::heights_behind, parse_leaves::specs::Sizes::higher_within))]
fn variable_names<'k, B: Below<'k>>(
    below: &B,
    alloc: Global,
    tokens: &'k [Token],
) -> Result<(Vec<Variable>, u32, &'k [Token]), Miss>
    requires limit { B.room below.now ≤ 200 }
    requires sound { B.sound below.now }
    ensures reading { Gives (λ x. (x.0.items, x.2.now)) result (take_separated (take_variable (lower (B.room below.now))) tokens.now) }
    ensures deep { IfOk result (λ x. AreDeep (B.room below.now) x.0.items x.1) }
{
    let (first, mut height, mut rest) = variable(below, alloc, tokens)?;
    let mut list = Vec::with_capacity(alloc, 1)?;
    list.push(first)?;
    let mut more = rest.len();
    while more > 0 {
        let Some((_, behind)) = token(rest, Kind::Comma) else {
            return Ok((list, height, rest));
        };
        match variable(below, alloc, behind) {
            Ok((next, tall, after)) => {
                list.push(next)?;
                height = higher(height, tall);
                rest = after;
                more -= 1;
            }
            Err(Miss::NoReading) => return Ok((list, height, rest)),
            Err(Miss::Memory) => return Err(Miss::Memory),
        }
    }
    Ok((list, height, rest))
}

/// Variables whose names come next, behind what stands before them, which begins at `start`.
#[tactic(auto, using(parse_leaves::specs::Sizes::higher_within))]
pub fn variables_behind<'k, B: Below<'k>>(
    below: &B,
    alloc: Global,
    start: &[Token],
    before: (bool, Option<WrittenType>),
    reach: u32,
    tokens: &'k [Token],
) -> Result<(VariableList, u32, &'k [Token]), Miss>
    requires limit { B.room below.now ≤ 200 }
    requires sound { B.sound below.now }
    requires known { IsPartDeep (B.room below.now) before.1 reach }
    ensures reading { Gives (λ x. (x.0, x.2.now)) result
        (bind ((take_given before ▸ take_separated (take_variable (lower (B.room below.now)))) tokens.now) (λ x. Some (made variables_of start.now x))) }
    ensures deep { IfOk result (λ x. IsDeep (B.room below.now) x.0 x.1) }
{
    let (is_final, written) = before;
    let (variables, height, rest) = variable_names(below, alloc, tokens)?;
    let list = VariableList {
        at: place_over(start, rest),
        is_final,
        written,
        variables,
    };
    Ok((list, higher(reach, height), rest))
}

/// Variables that are declared together, of which what stands before their names has been read:
/// `start` is where they begin.
#[tactic(auto, unfolding(grammar::specs::Descents::take_variables))]
pub fn declared_variables<'k, B: Below<'k>>(
    below: &B,
    alloc: Global,
    start: &[Token],
    before: (bool, Option<WrittenType>),
    reach: u32,
    tokens: &'k [Token],
) -> Result<(VariableList, u32, &'k [Token]), Miss>
    requires limit { B.room below.now ≤ 200 }
    requires sound { B.sound below.now }
    requires known { IsPartDeep (B.room below.now) before.1 reach }
    requires read { take_declared (lower (B.room below.now)) start.now ≡ Some (before, tokens.now) }
    ensures reading { Gives (λ x. (x.0, x.2.now)) result (take_variables (lower (B.room below.now)) start.now) }
    ensures deep { IfOk result (λ x. IsDeep (B.room below.now) x.0 x.1) }
{
    variables_behind(below, alloc, start, before, reach, tokens)
}

/// Variables that are declared together.
#[tactic(auto, unfolding(grammar::specs::Descents::take_variables))]
pub fn variables<'k, B: Below<'k>>(
    below: &B,
    alloc: Global,
    tokens: &'k [Token],
) -> Result<(VariableList, u32, &'k [Token]), Miss>
    requires limit { B.room below.now ≤ 200 }
    requires sound { B.sound below.now }
    ensures reading { Gives (λ x. (x.0, x.2.now)) result (take_variables (lower (B.room below.now)) tokens.now) }
    ensures deep { IfOk result (λ x. IsDeep (B.room below.now) x.0 x.1) }
{
    let (before, reach, rest) = declared(below, alloc, tokens)?;
    declared_variables(below, alloc, tokens, before, reach, rest)
}

/// A statement that declares variables, of which what stands before their names has been read:
/// `start` is where it begins.
#[tactic(auto, unfolding(grammar::specs::Descents::take_variable_statement))]
pub fn variable_statement_behind<'k, B: Below<'k>>(
    below: &B,
    alloc: Global,
    start: &[Token],
    before: (bool, Option<WrittenType>),
    reach: u32,
    tokens: &'k [Token],
) -> Result<(Stmt, u32, &'k [Token]), Miss>
    requires limit { B.room below.now ≤ 200 }
    requires sound { B.sound below.now }
    requires known { IsPartDeep (B.room below.now) before.1 reach }
    requires read { take_declared (lower (B.room below.now)) start.now ≡ Some (before, tokens.now) }
    ensures reading { Gives (λ x. (x.0, x.2.now)) result (take_variable_statement (lower (B.room below.now)) start.now) }
    ensures deep { IfOk result (λ x. IsDeep (B.room below.now + 1) x.0 x.1) }
{
    let (variables, height, rest) = declared_variables(below, alloc, start, before, reach, tokens)?;
    let (_, rest) = token(rest, Kind::Semicolon).ok_or(Miss::NoReading)?;
    let at = place_over(start, rest);
    let node = Box::new(alloc, StmtNode::Variables { at, variables })?;
    Ok((Stmt { node }, height + 1, rest))
}

/// A statement that declares variables.
#[tactic(auto, unfolding(grammar::specs::Descents::take_variable_statement, grammar::specs::Descents::take_variables))]
pub fn variable_statement<'k, B: Below<'k>>(
    below: &B,
    alloc: Global,
    tokens: &'k [Token],
) -> Result<(Stmt, u32, &'k [Token]), Miss>
    requires limit { B.room below.now ≤ 200 }
    requires sound { B.sound below.now }
    ensures reading { Gives (λ x. (x.0, x.2.now)) result (take_variable_statement (lower (B.room below.now)) tokens.now) }
    ensures deep { IfOk result (λ x. IsDeep (B.room below.now + 1) x.0 x.1) }
{
    let (before, reach, rest) = declared(below, alloc, tokens)?;
    variable_statement_behind(below, alloc, tokens, before, reach, rest)
}

/// `=>`, an expression and a `;` as a body.
fn arrow_statement_body<'k, B: Below<'k>>(
    below: &B,
    alloc: Global,
    tokens: &'k [Token],
) -> Result<(Body, u32, &'k [Token]), Miss>
    requires limit { B.room below.now ≤ 200 }
    requires sound { B.sound below.now }
    ensures reading { Gives (λ x. (x.0, x.2.now)) result
        (take_make arrow_body_of (take_token (is Kind.Arrow) ▸ (lower (B.room below.now)).expression Setting.Plain
        ▸ take_token (is Kind.Semicolon)) tokens.now) }
    ensures deep { IfOk result (λ x. IsDeep (B.room below.now) x.0 x.1) }
{
    let (_, rest) = token(tokens, Kind::Arrow).ok_or(Miss::NoReading)?;
    let (value, height, rest) = below.expression(alloc, Setting::Plain, rest)?;
    let (_, rest) = token(rest, Kind::Semicolon).ok_or(Miss::NoReading)?;
    let node = BodyNode::Expression {
        at: place_over(tokens, rest),
        value: value,
    };
    Ok((Body { node }, height, rest))
}

/// The body of a function among statements.
#[tactic(auto, unfolding(grammar::specs::Descents::take_local_body))]
pub fn local_body<'k, B: Below<'k>>(
    below: &B,
    alloc: Global,
    tokens: &'k [Token],
) -> Result<(Body, u32, &'k [Token]), Miss>
    requires limit { B.room below.now ≤ 200 }
    requires sound { B.sound below.now }
    ensures reading { Gives (λ x. (x.0, x.2.now)) result (take_local_body (lower (B.room below.now)) tokens.now) }
    ensures deep { IfOk result (λ x. IsDeep (B.room below.now) x.0 x.1) }
{
    if heads(tokens, Kind::OpenBrace) {
        block_body(below, alloc, tokens)
    } else {
        arrow_statement_body(below, alloc, tokens)
    }
}

/// The parameters and the body of a function among statements: there is a body behind the
/// parameters.
#[tactic(auto, unfolding(grammar::specs::Descents::take_local_rest))]
fn local_rest<'k, B: Below<'k>>(
    below: &B,
    alloc: Global,
    tokens: &'k [Token],
) -> Result<((ParameterList, Body), u32, &'k [Token]), Miss>
    requires limit { B.room below.now ≤ 200 }
    requires sound { B.sound below.now }
    ensures reading { Gives (λ x. ((x.0.0, x.0.1), x.2.now)) result (take_local_rest (lower (B.room below.now)) tokens.now) }
    ensures deep { IfOk result (λ x. (x.1 ≡ higher (height x.0.0) (height x.0.1)) × (x.1 ≤ B.room below.now)) }
{
    if !heads_closure(Setting::Plain, tokens) {
        return Err(Miss::NoReading);
    }
    let (parameters, tall, rest) = parameter_list(below, alloc, tokens)?;
    let (body, height, rest) = local_body(below, alloc, rest)?;
    Ok(((parameters, body), higher(tall, height), rest))
}

/// A function among statements, of which the type of the result has been read: `start` is where it
/// begins.
#[tactic(auto, unfolding(grammar::specs::Descents::take_local_function))]
fn function_behind<'k, B: Below<'k>>(
    below: &B,
    alloc: Global,
    start: &[Token],
    written: Option<WrittenType>,
    highest: u32,
    tokens: &'k [Token],
) -> Result<(Function, u32, &'k [Token]), Miss>
    requires limit { B.room below.now ≤ 200 }
    requires sound { B.sound below.now }
    requires known { IsPartDeep (B.room below.now) written highest }
    requires read { take_maybe (take_before heads_name (lower (B.room below.now)).named) start.now ≡ Some (written, tokens.now) }
    ensures reading { Gives (λ x. (x.0, x.2.now)) result (take_local_function (lower (B.room below.now)) start.now) }
    ensures deep { IfOk result (λ x. IsDeep (B.room below.now) x.0 x.1) }
{
    let (word, rest) = name(tokens).ok_or(Miss::NoReading)?;
    let (found, reach, rest) = some_type_parameters(below, alloc, rest)?;
    let ((parameters, body), height, rest) = local_rest(below, alloc, rest)?;
    let node = Box::new(
        alloc,
        FunctionNode::Plain {
            at: place_over(start, rest),
            result: written,
            name: name_at(word),
            type_parameters: listed_type_parameters(alloc, found),
            parameters,
            body,
        },
    )?;
    let height = higher(highest, higher(reach, height));
    Ok((Function { node }, height, rest))
}

/// A function among statements, as one of them, of which the type of the result has been read.
#[tactic(auto, unfolding(grammar::specs::Descents::take_function_statement))]
pub fn function_statement_behind<'k, B: Below<'k>>(
    below: &B,
    alloc: Global,
    start: &[Token],
    written: Option<WrittenType>,
    highest: u32,
    tokens: &'k [Token],
) -> Result<(Stmt, u32, &'k [Token]), Miss>
    requires limit { B.room below.now ≤ 200 }
    requires sound { B.sound below.now }
    requires known { IsPartDeep (B.room below.now) written highest }
    requires read { take_maybe (take_before heads_name (lower (B.room below.now)).named) start.now ≡ Some (written, tokens.now) }
    ensures reading { Gives (λ x. (x.0, x.2.now)) result (take_function_statement (lower (B.room below.now)) start.now) }
    ensures deep { IfOk result (λ x. IsDeep (B.room below.now + 1) x.0 x.1) }
{
    let (function, height, rest) = function_behind(below, alloc, start, written, highest, tokens)?;
    let at = place_over(start, rest);
    let node = Box::new(alloc, StmtNode::Function { at, function })?;
    Ok((Stmt { node }, height + 1, rest))
}
