//! Where an expression ends, over what is known of its text.

ghost use Rattle.std.specs.Prelude.{◌≡◌, ◌≤◌, false, [], Some, option_map, IfOk};
ghost use Rattle.dart_tree.specs.Heights.{height};
ghost use Rattle.readings.specs.Descent.{climb};
ghost use Rattle.grammar.specs.Tokens.{heads};
ghost use Rattle.grammar.specs.Operators.{table};
ghost use Rattle.last_parts.specs.LastParts.{IsLast};
ghost use Rattle.parse_operators.specs.Ends.{all_behind, assignment_behind, cascade_behind, end_of, extent_of, goes_on, joined, side_behind, times_seen};

use crate::expressions::{TABLE, assigned};
use crate::extents::{Extent, comes_next, extent_of, goes_on, joined, times_at};
use crate::known::Known;
use dart_tokens::Kind;
use dart_tree::Expr;
use grammar::{Level, Setting, Token};
use parse_leaves::{Below, Miss, is_open, next_level};
use parse_operands::unary_within;
use std::alloc::{AllocError, Global};

/// What a level adds behind an operand, or with no level the sections of a cascade, as often as they come.
#[tactic(auto, using(parse_leaves::specs::Loops::chain_out, parse_leaves::specs::Loops::chain_deep, parse_leaves::specs::Loops::chain_ends, crate::proofs::Steps::behind_none, crate::proofs::Steps::behind_next))]
fn repeat<'k, B: Below<'k>>(
    known: &mut Known<'k>,
    below: &B,
    alloc: Global,
    level: Option<Level>,
    left: Extent,
    tokens: &'k [Token],
) -> Result<(Extent, &'k [Token]), AllocError>
    requires limit { B.room below.now ≤ 200 }
    requires sound { B.sound below.now }
    requires room { known.old.room ≡ B.room below.now }
    requires last { IsLast tokens.now known.old.tokens }
    requires deep { left.height ≤ 201 }
    ensures same { known.new ≡ known.old }
    ensures found { IfOk result (λ x. all_behind (B.room below.now) level left tokens.now ≡ Some (x.0, x.1.now)) }
    ensures last { IfOk result (λ x. IsLast x.1.now known.old.tokens) }
    ensures deep { IfOk result (λ x. x.0.height ≤ 201) }
{
    let room = below.room();
    let mut extent = left;
    let mut rest = tokens;
    let mut more = times_at(level, left, tokens);
    while more > 0 {
        if !goes_on(room, extent) {
            return Ok((extent, rest));
        }
        if !comes_next(level, next_level(rest)) {
            return Ok((extent, rest));
        }
        let Some((side, after)) = known.behind(below, alloc, rest)? else {
            return Ok((extent, rest));
        };
        extent = joined(extent, side);
        rest = after;
        more -= 1;
    }
    Ok((extent, rest))
}

/// All levels behind an operand.
fn climb<'k, B: Below<'k>>(
    known: &mut Known<'k>,
    below: &B,
    alloc: Global,
    left: Extent,
    tokens: &'k [Token],
) -> Result<(Extent, &'k [Token]), AllocError>
    requires limit { B.room below.now ≤ 200 }
    requires sound { B.sound below.now }
    requires room { known.old.room ≡ B.room below.now }
    requires last { IsLast tokens.now known.old.tokens }
    requires deep { left.height ≤ 201 }
    ensures same { known.new ≡ known.old }
    ensures found { IfOk result (λ x. climb times_seen (goes_on (B.room below.now)) joined (side_behind (B.room below.now)) [] table (left, tokens.now) ≡ Some (x.0, x.1.now)) }
    ensures last { IfOk result (λ x. IsLast x.1.now known.old.tokens) }
    ensures deep { IfOk result (λ x. x.0.height ≤ 201) }
{
    let mut extent = left;
    let mut rest = tokens;
    let mut more = TABLE.len();
    while more > 0 {
        let level = TABLE[more - 1];
        let (found, after) = repeat(known, below, alloc, Some(level), extent, rest)?;
        extent = found;
        rest = after;
        more -= 1;
    }
    Ok((extent, rest))
}

/// Where an assignment ends to an expression that has been read, if one comes.
fn assignment_end<'k, B: Below<'k>>(
    below: &B,
    alloc: Global,
    first: &Expr,
    reach: u32,
    tokens: &'k [Token],
) -> Result<Option<&'k [Token]>, AllocError>
    requires limit { B.room below.now ≤ 200 }
    requires sound { B.sound below.now }
    requires known { reach ≡ height first.now }
    ensures { IfOk result (λ found. option_map (λ x. x.now) found ≡ assignment_behind (B.room below.now) (extent_of first.now) tokens.now) }
{
    if !is_open(below.room(), reach, first) {
        return Ok(None);
    }
    match assigned(below, alloc, Setting::Plain, tokens) {
        Ok((_, _, _, after)) => Ok(Some(after)),
        Err(Miss::NoReading) => Ok(None),
        Err(Miss::Memory) => Err(AllocError),
    }
}

/// Where an expression ends that assigns nothing, whose first operand has been read.
fn cascade_end<'k, B: Below<'k>>(
    known: &mut Known<'k>,
    below: &B,
    alloc: Global,
    first: Extent,
    tokens: &'k [Token],
) -> Result<&'k [Token], AllocError>
    requires limit { B.room below.now ≤ 200 }
    requires sound { B.sound below.now }
    requires room { known.old.room ≡ B.room below.now }
    requires last { IsLast tokens.now known.old.tokens }
    requires deep { first.height ≤ 201 }
    ensures same { known.new ≡ known.old }
    ensures end { IfOk result (λ end. cascade_behind (B.room below.now) first tokens.now ≡ Some end.now) }
{
    let (extent, rest) = climb(known, below, alloc, first, tokens)?;
    let (_, end) = repeat(known, below, alloc, None, extent, rest)?;
    Ok(end)
}

/// Where an expression ends that doesn't begin with `throw`, if one begins here. What stands behind
/// operands is read once for each place of the text of which `known` tells.
#[tactic(auto, using(crate::proofs::Shown::end_missing, crate::proofs::Shown::end_assigned, crate::proofs::Shown::end_plain))]
pub fn expression_end<'k, B: Below<'k>>(
    known: &mut Known<'k>,
    below: &B,
    alloc: Global,
    tokens: &'k [Token],
) -> Result<Option<&'k [Token]>, AllocError>
    requires limit { B.room below.now ≤ 200 }
    requires sound { B.sound below.now }
    requires room { known.old.room ≡ B.room below.now }
    requires last { IsLast tokens.now known.old.tokens }
    requires untold { heads Kind.Throw tokens.now ≡ false }
    ensures kept { known.new ≡ known.old }
    ensures end { IfOk result (λ found. option_map (λ x. x.now) found ≡ end_of (B.room below.now) tokens.now) }
{
    match unary_within(below, alloc, Setting::Plain, tokens) {
        Ok((first, height, rest)) => {
            if let Some(end) = assignment_end(below, alloc, &first, height, rest)? {
                return Ok(Some(end));
            }
            let end = cascade_end(known, below, alloc, extent_of(height, &first), rest)?;
            Ok(Some(end))
        }
        Err(Miss::NoReading) => Ok(None),
        Err(Miss::Memory) => Err(AllocError),
    }
}
