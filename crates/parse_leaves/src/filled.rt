//! What fills a group, and a block, over whatever reads them.

ghost use Rattle.std.specs.Prelude.{◌≤◌, IfOk};
ghost use Rattle.readings.specs.Descent.{take_inside};
ghost use Rattle.grammar.specs.Tokens.{is, width, past};
ghost use Rattle.grammar.specs.Descents.{lower};
ghost use Rattle.parse_leaves.specs.Answers.{Gives, IsDeep};

use crate::below::Below;
use crate::leaves::group;
use crate::miss::Miss;
use dart_tokens::Kind;
use dart_tree::{Body, BodyNode, Expr};
use grammar::{Setting, Token};
use std::alloc::Global;
use std::mem;

/// A bracket and the expression that fills its group.
#[tactic(auto, using(crate::specs::Groups::inside_outside, crate::specs::Groups::group_missing, crate::specs::Groups::group_cut, crate::specs::Groups::group_whole))]
fn filled_group<'k, B: Below<'k>>(
    below: &B,
    alloc: Global,
    bracket: Kind,
    tokens: &'k [Token],
) -> Result<(Token, Expr, u32, &'k [Token]), Miss>
    requires limit { B.room below.now ≤ 200 }
    requires sound { B.sound below.now }
    ensures reading { Gives (λ x. ((x.0, x.1), x.3.now)) result (take_inside (is bracket) width past ((lower (B.room below.now)).expression Setting.Plain) tokens.now) }
    ensures deep { IfOk result (λ x. IsDeep (B.room below.now) x.1 x.2) }
{
    let Some((opening, inside, rest)) = group(tokens, bracket) else {
        return Err(Miss::NoReading);
    };
    match below.expression(alloc, Setting::Plain, inside) {
        Ok((found, height, left)) => {
            if !left.is_empty() {
                return Err(Miss::NoReading);
            }
            Ok((opening, found, height, rest))
        }
        Err(Miss::NoReading) => Err(Miss::NoReading),
        Err(Miss::Memory) => Err(Miss::Memory),
    }
}

/// An expression that fills a group.
pub fn expression_group<'k, B: Below<'k>>(
    below: &B,
    alloc: Global,
    bracket: Kind,
    tokens: &'k [Token],
) -> Result<((Token, Expr), u32, &'k [Token]), Miss>
    requires limit { B.room below.now ≤ 200 }
    requires sound { B.sound below.now }
    ensures reading { Gives (λ x. ((x.0.0, x.0.1), x.2.now)) result (take_inside (is bracket) width past ((lower (B.room below.now)).expression Setting.Plain) tokens.now) }
    ensures deep { IfOk result (λ x. IsDeep (B.room below.now) x.0.1 x.1) }
{
    let (opening, found, height, rest) = filled_group(below, alloc, bracket, tokens)?;
    Ok(((opening, found), height, rest))
}

/// A block as a body.
pub fn block_body<'k, B: Below<'k>>(
    below: &B,
    alloc: Global,
    tokens: &'k [Token],
) -> Result<(Body, u32, &'k [Token]), Miss>
    requires limit { B.room below.now ≤ 200 }
    requires sound { B.sound below.now }
    ensures reading { Gives (λ x. (x.0, x.2.now)) result ((lower (B.room below.now)).block tokens.now) }
    ensures deep { IfOk result (λ x. IsDeep (B.room below.now) x.0 x.1) }
{
    let (mut block, height, rest) = below.block(alloc, tokens)?;
    let statements = mem::replace(&mut block.statements, Vec::new(alloc));
    let node = BodyNode::Block {
        at: block.at,
        statements,
    };
    Ok((Body { node }, height, rest))
}
