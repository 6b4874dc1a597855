//! A node and all that lies below it, lists of statements aside.

ghost use Rattle.std.specs.Prelude.{◌≡◌, ◌≤◌, ◌+◌, suc, None, IfOk};
ghost use Rattle.dart_tree.specs.Heights.{height};
ghost use Rattle.grammar.specs.Descents.{lower, take_section_head};
ghost use Rattle.parse_leaves.specs.Answers.{Gives, IsDeep};
ghost use Rattle.parse_expr.specs.Parts.{last_levels as levels_counted, type_at, tree_of, reads, IsFormOf};

use crate::part::{Node, Part};
use crate::reader::Reader;
use dart_tree::{Expr, WrittenType};
use grammar::{Level, Setting, Token};
use parse_leaves::{Below, Miss, TypePlace};
use parse_operands::{simple_within, unary_within};
use parse_operators::{TABLE, expression_within, operand_within, section_name, section_within};
use parse_statements::{block_within, statement_within};
use parse_types::{plain_type, type_within};
use std::alloc::Global;

/// The last so many levels of the table of operators.
fn last_levels(levels: usize) -> &'static [Level]
    ensures { result.now ≡ levels_counted levels }
{
    &TABLE[TABLE.len().saturating_sub(levels)..]
}

/// A section where no node may lie: a name alone.
#[tactic(auto, using(crate::proofs::Sections::gives_name))]
fn section_without_room(alloc: Global, tokens: &[Token]) -> Result<(Expr, u32, &[Token]), Miss>
    ensures reading { Gives (λ x. (x.0, x.2.now)) result (take_section_head (λ us. None) tokens.now) }
    ensures deep { IfOk result (λ x. (x.1 ≡ height x.0) × (x.1 ≡ 0)) }
{
    section_name(alloc, tokens)
}

/// A part where no node may lie: a section that is a name alone, or none.
#[tactic(auto, unfolding(grammar::specs::Descents::lower))]
fn part_without_room<'k>(
    alloc: Global,
    part: Part,
    tokens: &'k [Token],
) -> Result<(Node, u32, &'k [Token]), Miss>
    ensures reading { Gives (λ x. (tree_of x.0, x.2.now)) result (reads (lower 0) part tokens.now) }
    ensures form { IfOk result (λ x. IsFormOf part x.0) }
    ensures deep { IfOk result (λ x. IsDeep 0 (tree_of x.0) x.1) }
{
    match part {
        Part::Section(_) => {
            let (section, height, rest) = section_without_room(alloc, tokens)?;
            Ok((Node::Expr(section), height, rest))
        }
        Part::Written => Err(Miss::NoReading),
        Part::Tested(_) => Err(Miss::NoReading),
        Part::Constructed => Err(Miss::NoReading),
        Part::Named => Err(Miss::NoReading),
        Part::Expression(_) => Err(Miss::NoReading),
        Part::Operand(_, _) => Err(Miss::NoReading),
        Part::Unary(_) => Err(Miss::NoReading),
        Part::Simple => Err(Miss::NoReading),
        Part::Block => Err(Miss::NoReading),
        Part::Statement => Err(Miss::NoReading),
    }
}

/// A type where it stands.
#[tactic(auto, using(crate::proofs::Types::gives_type))]
fn type_of<'k, B: Below<'k>>(
    below: &B,
    alloc: Global,
    place: TypePlace,
    tokens: &'k [Token],
) -> Result<(WrittenType, u32, &'k [Token]), Miss>
    requires limit { B.room below.now ≤ 200 }
    requires sound { B.sound below.now }
    ensures reading { Gives (λ x. (x.0, x.2.now)) result (type_at (lower (suc (B.room below.now))) place tokens.now) }
    ensures deep { IfOk result (λ x. IsDeep (B.room below.now + 1) x.0 x.1) }
{
    type_within(below, alloc, place, tokens)
}

/// A type behind `is` or `as`.
#[tactic(auto, using(crate::proofs::Types::gives_tested))]
fn tested<'k, B: Below<'k>>(
    below: &B,
    alloc: Global,
    setting: Setting,
    tokens: &'k [Token],
) -> Result<(WrittenType, u32, &'k [Token]), Miss>
    requires limit { B.room below.now ≤ 200 }
    requires sound { B.sound below.now }
    ensures reading { Gives (λ x. (x.0, x.2.now)) result ((lower (suc (B.room below.now))).tested setting tokens.now) }
    ensures deep { IfOk result (λ x. IsDeep (B.room below.now + 1) x.0 x.1) }
{
    type_within(below, alloc, TypePlace::Tested(setting), tokens)
}

/// A type behind `is` or `as`, as a node.
fn tested_node<'k, B: Below<'k>>(
    below: &B,
    alloc: Global,
    setting: Setting,
    tokens: &'k [Token],
) -> Result<(Node, u32, &'k [Token]), Miss>
    requires limit { B.room below.now ≤ 200 }
    requires sound { B.sound below.now }
    ensures reading { Gives (λ x. (tree_of x.0, x.2.now)) result ((lower (suc (B.room below.now))).tested setting tokens.now) }
    ensures form { IfOk result (λ x. IsFormOf (Part.Tested setting) x.0) }
    ensures deep { IfOk result (λ x. IsDeep (B.room below.now + 1) (tree_of x.0) x.1) }
{
    let (found, height, rest) = tested(below, alloc, setting, tokens)?;
    Ok((Node::Type(found), height, rest))
}

/// A type behind `new`.
#[tactic(auto, using(crate::proofs::Types::gives_constructed))]
fn constructed<'k, B: Below<'k>>(
    below: &B,
    alloc: Global,
    tokens: &'k [Token],
) -> Result<(WrittenType, u32, &'k [Token]), Miss>
    requires limit { B.room below.now ≤ 200 }
    requires sound { B.sound below.now }
    ensures reading { Gives (λ x. (x.0, x.2.now)) result ((lower (suc (B.room below.now))).constructed tokens.now) }
    ensures deep { IfOk result (λ x. IsDeep (B.room below.now + 1) x.0 x.1) }
{
    plain_type(below, alloc, TypePlace::Anywhere, tokens)
}

/// A part, over what reads the parts of a node.
#[tactic(auto, unfolding(grammar::specs::Descents::lower), using(crate::proofs::Levels::last_counted))]
fn part_within<'k, B: Below<'k>>(
    below: &B,
    alloc: Global,
    part: Part,
    tokens: &'k [Token],
) -> Result<(Node, u32, &'k [Token]), Miss>
    requires limit { B.room below.now ≤ 200 }
    requires sound { B.sound below.now }
    ensures reading { Gives (λ x. (tree_of x.0, x.2.now)) result (reads (lower (suc (B.room below.now))) part tokens.now) }
    ensures form { IfOk result (λ x. IsFormOf part x.0) }
    ensures deep { IfOk result (λ x. IsDeep (B.room below.now + 1) (tree_of x.0) x.1) }
{
    match part {
        Part::Written => {
            let (found, height, rest) = type_of(below, alloc, TypePlace::Anywhere, tokens)?;
            Ok((Node::Type(found), height, rest))
        }
        Part::Tested(setting) => tested_node(below, alloc, setting, tokens),
        Part::Constructed => {
            let (found, height, rest) = constructed(below, alloc, tokens)?;
            Ok((Node::Type(found), height, rest))
        }
        Part::Named => {
            let (found, height, rest) = type_of(below, alloc, TypePlace::Named, tokens)?;
            Ok((Node::Type(found), height, rest))
        }
        Part::Expression(setting) => {
            let (found, height, rest) = expression_within(below, alloc, setting, tokens)?;
            Ok((Node::Expr(found), height, rest))
        }
        Part::Operand(setting, levels) => {
            let (found, height, rest) = operand_within(
                below,
                alloc,
                setting,
                last_levels(levels),
                tokens,
            )?;
            Ok((Node::Expr(found), height, rest))
        }
        Part::Unary(setting) => {
            let (found, height, rest) = unary_within(below, alloc, setting, tokens)?;
            Ok((Node::Expr(found), height, rest))
        }
        Part::Section(setting) => {
            let (found, height, rest) = section_within(below, alloc, setting, tokens)?;
            Ok((Node::Expr(found), height, rest))
        }
        Part::Simple => {
            let (found, height, rest) = simple_within(alloc, tokens)?;
            Ok((Node::Expr(found), height, rest))
        }
        Part::Block => {
            let (found, height, rest) = block_within(alloc, tokens)?;
            Ok((Node::Block(found), height, rest))
        }
        Part::Statement => {
            let (found, height, rest) = statement_within(below, alloc, tokens)?;
            Ok((Node::Stmt(found), height, rest))
        }
    }
}

/// A part with all that lies below it, lists of statements aside, where `room` nodes may lie on a way
/// down: the tree, its height, and the tokens that are left.
#[tactic(auto)]
pub fn part_at<'k>(
    alloc: Global,
    part: Part,
    room: u32,
    tokens: &'k [Token],
) -> Result<(Node, u32, &'k [Token]), Miss>
    requires limit { room ≤ 201 }
    ensures reading { Gives (λ x. (tree_of x.0, x.2.now)) result (reads (lower room) part tokens.now) }
    ensures form { IfOk result (λ x. IsFormOf part x.0) }
    ensures deep { IfOk result (λ x. IsDeep room (tree_of x.0) x.1) }
{
    if room == 0 {
        return part_without_room(alloc, part, tokens);
    }
    let less = room - 1;
    let below = Reader {
        read: |inner, rest|
            requires limit { less ≤ 200 }
            ensures reading { Gives (λ x. (tree_of x.0, x.2.now)) result (reads (lower less) inner rest.now) }
            ensures form { IfOk result (λ x. IsFormOf inner x.0) }
            ensures deep { IfOk result (λ x. IsDeep less (tree_of x.0) x.1) }
        { part_at(alloc, inner, less, rest) },
        room: less,
    };
    part_within(&below, alloc, part, tokens)
}
