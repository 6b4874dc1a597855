//! The levels of operators, assignments, cascades, and whole expressions.

ghost use Rattle.std.specs.Prelude.{◌≡◌, ◌≢◌, ℕ, ◌+◌, ◌≤◌, Some, Err, drop, length, IfOk};
ghost use Rattle.readings.specs.Readings.{tokens_read};
ghost use Rattle.readings.specs.Descent.{take_token, take_maybe, take_turn, take_where, take_onto, climb, ◌▸◌};
ghost use Rattle.dart_tree.specs.Heights.{higher, height};
ghost use Rattle.grammar.specs.Tokens.{is, heads};
ghost use Rattle.grammar.specs.Expressions.{choices_of, tested_of, cast_of, times, times_behind, side_with, assign_of, cascade_of, is_open};
ghost use Rattle.grammar.specs.Descents.{lower, take_operated, take_right, take_unary, take_operand, take_throw, take_cascade_section, take_cascade, take_expression};
ghost use Rattle.grammar.specs.Operators.{take_assignment};
ghost use Rattle.parse_leaves.specs.declared.miss.Miss.TheVariants.{NoReading};
ghost use Rattle.parse_leaves.specs.Answers.{Gives, IsDeep};
ghost use Rattle.parse_leaves.specs.LastLevels.{AreLastLevels};
ghost use Rattle.parse_leaves.specs.Parts.{side_of, side_height};

use dart_tokens::Kind;
use dart_tree::{AssignmentOperator, Expr, ExprNode};
use grammar::{Level, Setting, Token};
use parse_leaves::{
    Below, Miss, Side, assignment_operator, binary_operator, heads, heads_binary, heads_call,
    higher, is_incremented, is_level, is_open, next_level, place_over, token,
};
use parse_operands::unary_within;
use std::alloc::Global;

/// The levels of operators, from the one that binds least on.
pub const TABLE: [Level; 12] = [
    Level::Conditional,
    Level::IfNull,
    Level::Or,
    Level::And,
    Level::Equality,
    Level::Relation,
    Level::BitOr,
    Level::BitXor,
    Level::BitAnd,
    Level::Shift,
    Level::Sum,
    Level::Product,
];

/// An operator of a level and the operand behind it.
#[tactic(auto, unfolding(grammar::specs::Descents::take_operated))]
fn operated<'k, B: Below<'k>>(
    below: &B,
    alloc: Global,
    setting: Setting,
    level: Level,
    above: &[Level],
    tokens: &'k [Token],
) -> Result<(Side, u32, &'k [Token]), Miss>
    requires limit { B.room below.now ≤ 200 }
    requires sound { B.sound below.now }
    requires last { AreLastLevels above.now }
    ensures reading { Gives (λ x. (side_of x.0, x.2.now)) result (take_operated setting (lower (B.room below.now)) level above.now tokens.now) }
    ensures deep { IfOk result (λ x. (x.1 ≡ side_height (side_of x.0)) × (x.1 ≤ (B.room below.now))) }
{
    let (operator, rest) = binary_operator(tokens, level).ok_or(Miss::NoReading)?;
    let (right, height, rest) = below.operand(alloc, setting, above, rest)?;
    Ok((Side::Operated { operator, right }, height, rest))
}

/// The choices of a conditional.
fn choices<'k, B: Below<'k>>(
    below: &B,
    alloc: Global,
    setting: Setting,
    tokens: &'k [Token],
) -> Result<(Side, u32, &'k [Token]), Miss>
    requires limit { B.room below.now ≤ 200 }
    requires sound { B.sound below.now }
    ensures reading { Gives (λ x. (side_of x.0, x.2.now)) result (take_turn choices_of (take_token (is Kind.Question) ▸ (lower (B.room below.now)).expression setting ▸ take_token (is Kind.Colon) ▸ (lower (B.room below.now)).expression setting) tokens.now) }
    ensures deep { IfOk result (λ x. (x.1 ≡ side_height (side_of x.0)) × (x.1 ≤ (B.room below.now))) }
{
    let (_, rest) = token(tokens, Kind::Question).ok_or(Miss::NoReading)?;
    let (then_value, tall, rest) = below.expression(alloc, setting, rest)?;
    let (_, rest) = token(rest, Kind::Colon).ok_or(Miss::NoReading)?;
    let (else_value, height, rest) = below.expression(alloc, setting, rest)?;
    let side = Side::Choices {
        then_value,
        else_value,
    };
    Ok((side, higher(tall, height), rest))
}

/// `!` behind `is`, if it comes next.
fn some_bang(tokens: &[Token]) -> (Option<Token>, &[Token])
    ensures { take_maybe (take_token (is Kind.Bang)) tokens.now ≡ Some (result.0, result.1.now) }
{
    match token(tokens, Kind::Bang) {
        Some((mark, rest)) => (Some(mark), rest),
        None => (None, tokens),
    }
}

/// `is` and a type.
fn type_test<'k, B: Below<'k>>(
    below: &B,
    alloc: Global,
    setting: Setting,
    tokens: &'k [Token],
) -> Result<(Side, u32, &'k [Token]), Miss>
    requires limit { B.room below.now ≤ 200 }
    requires sound { B.sound below.now }
    ensures reading { Gives (λ x. (side_of x.0, x.2.now)) result (take_turn tested_of (take_token (is Kind.Is) ▸ take_maybe (take_token (is Kind.Bang)) ▸ (lower (B.room below.now)).tested setting) tokens.now) }
    ensures deep { IfOk result (λ x. (x.1 ≡ side_height (side_of x.0)) × (x.1 ≤ (B.room below.now))) }
{
    let (_, rest) = token(tokens, Kind::Is).ok_or(Miss::NoReading)?;
    let (mark, rest) = some_bang(rest);
    let (written, height, rest) = below.tested(alloc, setting, rest)?;
    let negated = mark.is_some();
    Ok((Side::Tested { negated, written }, height, rest))
}

/// `as` and a type.
fn type_cast<'k, B: Below<'k>>(
    below: &B,
    alloc: Global,
    setting: Setting,
    tokens: &'k [Token],
) -> Result<(Side, u32, &'k [Token]), Miss>
    requires limit { B.room below.now ≤ 200 }
    requires sound { B.sound below.now }
    ensures reading { Gives (λ x. (side_of x.0, x.2.now)) result (take_turn cast_of (take_token (is Kind.As) ▸ (lower (B.room below.now)).tested setting) tokens.now) }
    ensures deep { IfOk result (λ x. (x.1 ≡ side_height (side_of x.0)) × (x.1 ≤ (B.room below.now))) }
{
    let (_, rest) = token(tokens, Kind::As).ok_or(Miss::NoReading)?;
    let (written, height, rest) = below.tested(alloc, setting, rest)?;
    Ok((Side::Cast { written }, height, rest))
}

/// What an operator of the relations adds.
#[tactic(auto, unfolding(grammar::specs::Descents::take_right))]
fn relation<'k, B: Below<'k>>(
    below: &B,
    alloc: Global,
    setting: Setting,
    above: &[Level],
    tokens: &'k [Token],
) -> Result<(Side, u32, &'k [Token]), Miss>
    requires limit { B.room below.now ≤ 200 }
    requires sound { B.sound below.now }
    requires last { AreLastLevels above.now }
    ensures reading { Gives (λ x. (side_of x.0, x.2.now)) result (take_right setting (lower (B.room below.now)) Level.Relation above.now tokens.now) }
    ensures deep { IfOk result (λ x. (x.1 ≡ side_height (side_of x.0)) × (x.1 ≤ (B.room below.now))) }
{
    if heads_binary(tokens, Level::Relation) {
        return operated(below, alloc, setting, Level::Relation, above, tokens);
    }
    if heads(tokens, Kind::Is) {
        return type_test(below, alloc, setting, tokens);
    }
    type_cast(below, alloc, setting, tokens)
}

/// What an operator of a level adds.
#[tactic(auto, unfolding(grammar::specs::Descents::take_right))]
pub(crate) fn right_side<'k, B: Below<'k>>(
    below: &B,
    alloc: Global,
    setting: Setting,
    level: Level,
    above: &[Level],
    tokens: &'k [Token],
) -> Result<(Side, u32, &'k [Token]), Miss>
    requires limit { B.room below.now ≤ 200 }
    requires sound { B.sound below.now }
    requires last { AreLastLevels above.now }
    ensures reading { Gives (λ x. (side_of x.0, x.2.now)) result (take_right setting (lower (B.room below.now)) level above.now tokens.now) }
    ensures deep { IfOk result (λ x. (x.1 ≡ side_height (side_of x.0)) × (x.1 ≤ (B.room below.now))) }
{
    match level {
        Level::Conditional => choices(below, alloc, setting, tokens),
        Level::IfNull => operated(below, alloc, setting, level, above, tokens),
        Level::Or => operated(below, alloc, setting, level, above, tokens),
        Level::And => operated(below, alloc, setting, level, above, tokens),
        Level::Equality => operated(below, alloc, setting, level, above, tokens),
        Level::Relation => relation(below, alloc, setting, above, tokens),
        Level::BitOr => operated(below, alloc, setting, level, above, tokens),
        Level::BitXor => operated(below, alloc, setting, level, above, tokens),
        Level::BitAnd => operated(below, alloc, setting, level, above, tokens),
        Level::Shift => operated(below, alloc, setting, level, above, tokens),
        Level::Sum => operated(below, alloc, setting, level, above, tokens),
        Level::Product => operated(below, alloc, setting, level, above, tokens),
    }
}

/// What stands on the left with an operator's right side behind it.
fn operated_node(
    alloc: Global,
    start: &[Token],
    after: &[Token],
    left: Expr,
    side: Side,
) -> Result<Expr, Miss>
    ensures reading { IfOk result (λ x. x ≡ side_with (tokens_read start.now after.now) left (side_of side)) }
    ensures deep { IfOk result (λ x. height x ≡ higher (height left) (side_height (side_of side)) + 1) }
    ensures whole { result ≢ Err NoReading }
{
    let at = place_over(start, after);
    let left = left;
    let node = match side {
        Side::Operated { operator, right } => ExprNode::Binary {
            at,
            operator,
            left,
            right: right,
        },
        Side::Tested { negated, written } => ExprNode::TypeTest {
            at,
            operand: left,
            negated,
            written,
        },
        Side::Cast { written } => ExprNode::TypeCast {
            at,
            operand: left,
            written,
        },
        Side::Choices {
            then_value,
            else_value,
        } => ExprNode::Conditional {
            at,
            condition: left,
            then_value: then_value,
            else_value: else_value,
        },
    };
    let node = Box::new(alloc, node)?;
    Ok(Expr { node })
}

/// How often a comparison may stand behind an operand: a `<` that opens the type arguments of a call
/// is none where a call can stand.
fn comparisons(setting: Setting, incremented: bool, tokens: &[Token]) -> usize
    ensures { result ≡ times setting Level.Relation incremented tokens.now }
{
    if heads_call(setting, tokens) && !incremented {
        0
    } else {
        1
    }
}

/// How often a right side of a level may stand behind an operand.
pub(crate) fn times(setting: Setting, level: Level, incremented: bool, tokens: &[Token]) -> usize
    ensures { result ≡ times setting level incremented tokens.now }
{
    match level {
        Level::Conditional | Level::Equality => 1,
        Level::Relation => comparisons(setting, incremented, tokens),
        Level::IfNull | Level::Or | Level::And => tokens.len(),
        Level::BitOr | Level::BitXor | Level::BitAnd => tokens.len(),
        Level::Shift | Level::Sum | Level::Product => tokens.len(),
    }
}

/// The right sides of a level behind an operand.
#[tactic(auto, using(parse_leaves::specs::Loops::chain_out, parse_leaves::specs::Loops::chain_deep, parse_leaves::specs::Loops::chain_ends, parse_leaves::specs::Loops::chain_goes, parse_leaves::specs::Sizes::higher_within))]
fn repeat<'k, B: Below<'k>>(
    below: &B,
    alloc: Global,
    setting: Setting,
    level: Level,
    above: &[Level],
    start: &[Token],
    first: Expr,
    reach: u32,
    tokens: &'k [Token],
) -> Result<(Expr, u32, &'k [Token]), Miss>
    requires limit { B.room below.now ≤ 200 }
    requires sound { B.sound below.now }
    requires last { AreLastLevels above.now }
    requires known { IsDeep (B.room below.now + 1) first reach }
    ensures reading { Gives (λ x. (x.0, x.2.now)) result (take_onto start.now (times_behind setting level first tokens.now) (is_open (B.room below.now)) side_with (take_right setting (lower (B.room below.now)) level above.now) first tokens.now) }
    ensures deep { IfOk result (λ x. IsDeep (B.room below.now + 1) x.0 x.1) }
    ensures whole { result ≢ Err NoReading }
{
    let room = below.room();
    let mut left = first;
    let mut height = reach;
    let mut rest = tokens;
    let mut more = times(setting, level, is_incremented(&left), tokens);
    while more > 0 {
        if !is_open(room, height, &left) {
            return Ok((left, height, rest));
        }
        match right_side(below, alloc, setting, level, above, rest) {
            Ok((added, tall, after)) => {
                left = operated_node(alloc, start, after, left, added)?;
                height = higher(height, tall) + 1;
                rest = after;
                more -= 1;
            }
            Err(Miss::NoReading) => return Ok((left, height, rest)),
            Err(Miss::Memory) => return Err(Miss::Memory),
        }
    }
    Ok((left, height, rest))
}

/// The levels behind so many of them.
pub(crate) fn levels_behind(levels: &[Level], count: usize) -> &[Level]
    requires few { count ≤ length levels.now }
    ensures { result.now ≡ drop count levels.now }
{
    &levels[count..]
}

/// The levels of a table behind an operand, from the one that binds most on.
#[tactic(auto, using(crate::proofs::Climbing::climb_begins, crate::proofs::Climbing::climb_goes, crate::proofs::Climbing::climb_ends, crate::proofs::Climbing::climb_done, parse_leaves::specs::LastLevels::last_behind))]
fn climb<'k, B: Below<'k>>(
    below: &B,
    alloc: Global,
    setting: Setting,
    levels: &[Level],
    start: &[Token],
    first: Expr,
    reach: u32,
    tokens: &'k [Token],
) -> Result<(Expr, u32, &'k [Token]), Miss>
    requires limit { B.room below.now ≤ 200 }
    requires sound { B.sound below.now }
    requires last { AreLastLevels levels.now }
    requires known { IsDeep (B.room below.now + 1) first reach }
    ensures reading { Gives (λ x. (x.0, x.2.now)) result (climb (times_behind setting) (is_open (B.room below.now)) side_with (take_right setting (lower (B.room below.now))) start.now levels.now (first, tokens.now)) }
    ensures deep { IfOk result (λ x. IsDeep (B.room below.now + 1) x.0 x.1) }
    ensures whole { result ≢ Err NoReading }
{
    let mut left = first;
    let mut height = reach;
    let mut rest = tokens;
    let mut more = levels.len();
    let mut next = next_level(rest);
    while more > 0 {
        if next.is_none() {
            return Ok((left, height, rest));
        }
        let level = levels[more - 1];
        if !is_level(next, level) {
            more -= 1;
            continue;
        }
        let above = levels_behind(levels, more);
        let (found, tall, after) = repeat(
            below, alloc, setting, level, above, start, left, height, rest,
        )?;
        left = found;
        height = tall;
        rest = after;
        next = next_level(rest);
        more -= 1;
    }
    Ok((left, height, rest))
}

/// An operand of the levels of a table.
#[tactic(auto, using(parse_leaves::specs::Ways::operand_missing, crate::proofs::Behind::gives_operand_behind))]
pub fn operand_within<'k, B: Below<'k>>(
    below: &B,
    alloc: Global,
    setting: Setting,
    above: &[Level],
    tokens: &'k [Token],
) -> Result<(Expr, u32, &'k [Token]), Miss>
    requires limit { B.room below.now ≤ 200 }
    requires sound { B.sound below.now }
    requires last { AreLastLevels above.now }
    ensures reading { Gives (λ x. (x.0, x.2.now)) result (take_operand (B.room below.now) setting (lower (B.room below.now)) above.now tokens.now) }
    ensures deep { IfOk result (λ x. IsDeep (B.room below.now + 1) x.0 x.1) }
{
    let (first, height, rest) = unary_within(below, alloc, setting, tokens)?;
    climb(below, alloc, setting, above, tokens, first, height, rest)
}

/// An assignment operator and the value behind it.
pub(crate) fn assigned<'k, B: Below<'k>>(
    below: &B,
    alloc: Global,
    setting: Setting,
    tokens: &'k [Token],
) -> Result<(AssignmentOperator, Expr, u32, &'k [Token]), Miss>
    requires limit { B.room below.now ≤ 200 }
    requires sound { B.sound below.now }
    ensures reading { Gives (λ x. ((x.0, x.1), x.3.now)) result ((take_assignment ▸ (lower (B.room below.now)).expression setting) tokens.now) }
    ensures deep { IfOk result (λ x. IsDeep (B.room below.now) x.1 x.2) }
{
    let (operator, rest) = assignment_operator(tokens).ok_or(Miss::NoReading)?;
    let (value, height, rest) = below.expression(alloc, setting, rest)?;
    Ok((operator, value, height, rest))
}

/// An assignment to what has been read, of a value that has been read, with its height, and what is left behind it.
pub fn assignment<'k>(
    alloc: Global,
    start: &[Token],
    target: Expr,
    reach: u32,
    operator: AssignmentOperator,
    value: Expr,
    tall: u32,
    after: &'k [Token],
) -> Result<(Expr, u32, &'k [Token]), Miss>
    requires target_limit { reach ≤ 200 }
    requires value_limit { tall ≤ 200 }
    requires target_known { reach ≡ height target }
    requires value_known { tall ≡ height value }
    ensures reading { Gives (λ x. (x.0, x.2.now)) result (Some (assign_of (tokens_read start.now after.now) target (operator, value), after.now)) }
    ensures deep { (room : ℕ) → reach ≤ room → tall ≤ room → IfOk result (λ x. IsDeep (room + 1) x.0 x.1) }
{
    let node = Box::new(
        alloc,
        ExprNode::Assignment {
            at: place_over(start, after),
            operator,
            target: target,
            value: value,
        },
    )?;
    Ok((Expr { node }, higher(reach, tall) + 1, after))
}

/// `throw` and an expression.
#[tactic(auto, unfolding(grammar::specs::Descents::take_throw))]
fn throw<'k, B: Below<'k>>(
    below: &B,
    alloc: Global,
    setting: Setting,
    tokens: &'k [Token],
) -> Result<(Expr, u32, &'k [Token]), Miss>
    requires limit { B.room below.now ≤ 200 }
    requires sound { B.sound below.now }
    ensures reading { Gives (λ x. (x.0, x.2.now)) result (take_throw setting (lower (B.room below.now)) tokens.now) }
    ensures deep { IfOk result (λ x. IsDeep (B.room below.now + 1) x.0 x.1) }
{
    let (_, rest) = token(tokens, Kind::Throw).ok_or(Miss::NoReading)?;
    let (value, height, rest) = below.expression(alloc, setting, rest)?;
    let node = Box::new(
        alloc,
        ExprNode::Throw {
            at: place_over(tokens, rest),
            value: value,
        },
    )?;
    Ok((Expr { node }, height + 1, rest))
}

/// `..` or `?..`, and a section.
#[tactic(auto, unfolding(grammar::specs::Descents::take_cascade_section))]
pub(crate) fn cascade_section<'k, B: Below<'k>>(
    below: &B,
    alloc: Global,
    setting: Setting,
    tokens: &'k [Token],
) -> Result<(bool, Expr, u32, &'k [Token]), Miss>
    requires limit { B.room below.now ≤ 200 }
    requires sound { B.sound below.now }
    ensures reading { Gives (λ x. ((x.0, x.1), x.3.now)) result (take_cascade_section setting (lower (B.room below.now)) tokens.now) }
    ensures deep { IfOk result (λ x. IsDeep (B.room below.now) x.1 x.2) }
{
    if heads(tokens, Kind::PeriodPeriod) {
        let (_, rest) = token(tokens, Kind::PeriodPeriod).ok_or(Miss::NoReading)?;
        let (section, height, rest) = below.section(alloc, setting, rest)?;
        return Ok((false, section, height, rest));
    }
    let (_, rest) = token(tokens, Kind::QuestionPeriodPeriod).ok_or(Miss::NoReading)?;
    let (section, height, rest) = below.section(alloc, setting, rest)?;
    Ok((true, section, height, rest))
}

/// A cascade of what stands before a section.
fn cascade_node(
    alloc: Global,
    start: &[Token],
    after: &[Token],
    receiver: Expr,
    null_aware: bool,
    section: Expr,
) -> Result<Expr, Miss>
    ensures reading { IfOk result (λ x. x ≡ cascade_of (tokens_read start.now after.now) receiver (null_aware, section)) }
    ensures deep { IfOk result (λ x. height x ≡ higher (height receiver) (height section) + 1) }
    ensures whole { result ≢ Err NoReading }
{
    let node = Box::new(
        alloc,
        ExprNode::Cascade {
            at: place_over(start, after),
            receiver: receiver,
            null_aware,
            section: section,
        },
    )?;
    Ok(Expr { node })
}

/// The sections behind what a cascade is of.
#[tactic(auto, using(parse_leaves::specs::Loops::chain_out, parse_leaves::specs::Loops::chain_deep, parse_leaves::specs::Loops::chain_ends, parse_leaves::specs::Loops::chain_goes, parse_leaves::specs::Sizes::higher_within))]
fn cascades<'k, B: Below<'k>>(
    below: &B,
    alloc: Global,
    setting: Setting,
    start: &[Token],
    first: Expr,
    reach: u32,
    tokens: &'k [Token],
) -> Result<(Expr, u32, &'k [Token]), Miss>
    requires limit { B.room below.now ≤ 200 }
    requires sound { B.sound below.now }
    requires known { IsDeep (B.room below.now + 1) first reach }
    ensures reading { Gives (λ x. (x.0, x.2.now)) result (take_onto start.now (length tokens.now) (is_open (B.room below.now)) cascade_of (take_cascade_section setting (lower (B.room below.now))) first tokens.now) }
    ensures deep { IfOk result (λ x. IsDeep (B.room below.now + 1) x.0 x.1) }
{
    let room = below.room();
    let mut left = first;
    let mut height = reach;
    let mut rest = tokens;
    let mut more = tokens.len();
    while more > 0 {
        if !is_open(room, height, &left) {
            return Ok((left, height, rest));
        }
        match cascade_section(below, alloc, setting, rest) {
            Ok((null_aware, section, tall, after)) => {
                left = cascade_node(alloc, start, after, left, null_aware, section)?;
                height = higher(height, tall) + 1;
                rest = after;
                more -= 1;
            }
            Err(Miss::NoReading) => return Ok((left, height, rest)),
            Err(Miss::Memory) => return Err(Miss::Memory),
        }
    }
    Ok((left, height, rest))
}

/// A cascade whose first operand has been read.
#[tactic(auto, using(crate::proofs::Behind::gives_cascade_behind, parse_leaves::specs::LastLevels::last_all))]
fn cascade_behind<'k, B: Below<'k>>(
    below: &B,
    alloc: Global,
    setting: Setting,
    start: &'k [Token],
    first: Expr,
    reach: u32,
    tokens: &'k [Token],
) -> Result<(Expr, u32, &'k [Token]), Miss>
    requires limit { B.room below.now ≤ 200 }
    requires sound { B.sound below.now }
    requires known { IsDeep (B.room below.now + 1) first reach }
    requires read { take_unary (B.room below.now) setting (lower (B.room below.now)) start.now ≡ Some (first, tokens.now) }
    ensures reading { Gives (λ x. (x.0, x.2.now)) result (take_cascade (B.room below.now) setting (lower (B.room below.now)) start.now) }
    ensures deep { IfOk result (λ x. IsDeep (B.room below.now + 1) x.0 x.1) }
{
    let (left, height, rest) = climb(below, alloc, setting, &TABLE, start, first, reach, tokens)?;
    cascades(below, alloc, setting, start, left, height, rest)
}

/// An expression that is no assignment, whose first operand has been read.
fn unassigned_behind<'k, B: Below<'k>>(
    below: &B,
    alloc: Global,
    setting: Setting,
    start: &'k [Token],
    first: Expr,
    reach: u32,
    tokens: &'k [Token],
) -> Result<(Expr, u32, &'k [Token]), Miss>
    requires limit { B.room below.now ≤ 200 }
    requires sound { B.sound below.now }
    requires known { IsDeep (B.room below.now + 1) first reach }
    requires read { take_unary (B.room below.now) setting (lower (B.room below.now)) start.now ≡ Some (first, tokens.now) }
    ensures reading { Gives (λ x. (x.0, x.2.now)) result (take_where (heads Kind.Throw) (take_throw setting (lower (B.room below.now))) (take_cascade (B.room below.now) setting (lower (B.room below.now))) start.now) }
    ensures deep { IfOk result (λ x. IsDeep (B.room below.now + 1) x.0 x.1) }
{
    if heads(start, Kind::Throw) {
        throw(below, alloc, setting, start)
    } else {
        cascade_behind(below, alloc, setting, start, first, reach, tokens)
    }
}

/// An expression whose first operand has been read.
#[tactic(auto, using(crate::proofs::Behind::gives_deep, crate::proofs::Behind::gives_plain, crate::proofs::Behind::gives_assigned, parse_leaves::specs::Sizes::higher_within))]
fn expression_behind<'k, B: Below<'k>>(
    below: &B,
    alloc: Global,
    setting: Setting,
    start: &'k [Token],
    first: Expr,
    reach: u32,
    tokens: &'k [Token],
) -> Result<(Expr, u32, &'k [Token]), Miss>
    requires limit { B.room below.now ≤ 200 }
    requires sound { B.sound below.now }
    requires known { IsDeep (B.room below.now + 1) first reach }
    requires read { take_unary (B.room below.now) setting (lower (B.room below.now)) start.now ≡ Some (first, tokens.now) }
    ensures reading { Gives (λ x. (x.0, x.2.now)) result (take_expression (B.room below.now) setting (lower (B.room below.now)) start.now) }
    ensures deep { IfOk result (λ x. IsDeep (B.room below.now + 1) x.0 x.1) }
{
    if !is_open(below.room(), reach, &first) {
        return unassigned_behind(below, alloc, setting, start, first, reach, tokens);
    }
    match assigned(below, alloc, setting, tokens) {
        Ok((operator, value, tall, after)) => {
            assignment(alloc, start, first, reach, operator, value, tall, after)
        }
        Err(Miss::NoReading) => {
            unassigned_behind(below, alloc, setting, start, first, reach, tokens)
        }
        Err(Miss::Memory) => Err(Miss::Memory),
    }
}

/// An expression.
#[tactic(auto, using(parse_leaves::specs::Ways::expression_thrown, parse_leaves::specs::Ways::expression_missing))]
pub fn expression_within<'k, B: Below<'k>>(
    below: &B,
    alloc: Global,
    setting: Setting,
    tokens: &'k [Token],
) -> Result<(Expr, u32, &'k [Token]), Miss>
    requires limit { B.room below.now ≤ 200 }
    requires sound { B.sound below.now }
    ensures reading { Gives (λ x. (x.0, x.2.now)) result (take_expression (B.room below.now) setting (lower (B.room below.now)) tokens.now) }
    ensures deep { IfOk result (λ x. IsDeep (B.room below.now + 1) x.0 x.1) }
{
    match unary_within(below, alloc, setting, tokens) {
        Ok((first, height, rest)) => {
            expression_behind(below, alloc, setting, tokens, first, height, rest)
        }
        Err(Miss::NoReading) => {
            if heads(tokens, Kind::Throw) {
                throw(below, alloc, setting, tokens)
            } else {
                Err(Miss::NoReading)
            }
        }
        Err(Miss::Memory) => Err(Miss::Memory),
    }
}
