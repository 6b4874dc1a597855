//! The items of a text, with errors among them.

ghost use Rattle.std.specs.Prelude.{◌≡◌, ◌≤◌, IfOk};
ghost use Rattle.readings.specs.Readings.{tokens_read};
ghost use Rattle.readings.specs.Descent.{all_items};
ghost use Rattle.grammar.specs.Statements.{segment, error_of};
ghost use Rattle.grammar.specs.Descents.{lower};
ghost use Rattle.grammar.specs.DeclarationDescents.{take_item, lower_unit};
ghost use Rattle.parse_leaves.specs.Answers.{Gives};
ghost use Rattle.parse_expr.specs.Items.{item_of};

use crate::declarations::declaration;
use crate::directives::directive;
use dart_tree::{Item, ItemNode, UnitTree};
use grammar::Token;
use parse_expr::behind_segment;
use parse_leaves::{Below, Miss, place_over};
use std::alloc::{AllocError, Global};

/// A directive, or else a declaration.
#[tactic(auto, unfolding(grammar::specs::DeclarationDescents::take_item))]
fn some_item<'k, B: Below<'k>, C: Below<'k>>(
    below: &B,
    inner: &C,
    alloc: Global,
    in_core: bool,
    tokens: &'k [Token],
) -> Result<(Item, &'k [Token]), Miss>
    requires limit { B.room below.now ≤ 200 }
    requires sound { B.sound below.now }
    requires inner_limit { C.room inner.now ≤ 200 }
    requires inner_sound { C.sound inner.now }
    ensures { Gives (λ x. (x.0, x.1.now)) result (take_item in_core (lower (B.room below.now)) (lower (C.room inner.now)) tokens.now) }
{
    match directive(below, alloc, tokens) {
        Ok((found, rest)) => Ok((found, rest)),
        Err(Miss::NoReading) => declaration(below, inner, alloc, in_core, tokens),
        Err(Miss::Memory) => Err(Miss::Memory),
    }
}

/// An error over the tokens before others.
fn error(tokens: &[Token], after: &[Token]) -> Item
    ensures { result ≡ error_of (tokens_read tokens.now after.now) }
{
    let at = place_over(tokens, after);
    let node = ItemNode::Error { at };
    Item { node }
}

/// The item that comes next, or an error over the segment that does, and the tokens that are left.
#[tactic(auto, using(parse_expr::specs::ItemLaws::item_missing))]
fn item<'k, B: Below<'k>, C: Below<'k>>(
    below: &B,
    inner: &C,
    alloc: Global,
    in_core: bool,
    tokens: &'k [Token],
) -> Result<(Item, &'k [Token]), AllocError>
    requires limit { B.room below.now ≤ 200 }
    requires sound { B.sound below.now }
    requires inner_limit { C.room inner.now ≤ 200 }
    requires inner_sound { C.sound inner.now }
    ensures { IfOk result (λ x. item_of (take_item in_core (lower (B.room below.now)) (lower (C.room inner.now))) tokens.now ≡ (x.0, x.1.now)) }
{
    match some_item(below, inner, alloc, in_core, tokens) {
        Ok((found, rest)) => Ok((found, rest)),
        Err(Miss::NoReading) => {
            let after = behind_segment(tokens);
            Ok((error(tokens, after), after))
        }
        Err(Miss::Memory) => Err(AllocError),
    }
}

/// The items of these tokens, with an error wherever none can be read.
#[tactic(auto, using(parse_expr::specs::ItemLaws::list_out, parse_expr::specs::ItemLaws::list_end, parse_expr::specs::ItemLaws::list_goes))]
fn items<'k, B: Below<'k>, C: Below<'k>>(
    below: &B,
    inner: &C,
    alloc: Global,
    in_core: bool,
    tokens: &'k [Token],
) -> Result<Vec<Item>, AllocError>
    requires limit { B.room below.now ≤ 200 }
    requires sound { B.sound below.now }
    requires inner_limit { C.room inner.now ≤ 200 }
    requires inner_sound { C.sound inner.now }
    ensures { IfOk result (λ list. list.items ≡ all_items (take_item in_core (lower (B.room below.now)) (lower (C.room inner.now))) segment error_of tokens.now) }
{
    let mut list = Vec::new(alloc);
    let mut rest = tokens;
    let mut more = tokens.len();
    while more > 0 {
        let Some((_first, _behind)) = rest.split_first() else {
            return Ok(list);
        };
        let (next, after) = item(below, inner, alloc, in_core, rest)?;
        list.push(next)?;
        rest = after;
        more -= 1;
    }
    Ok(list)
}

/// The tree of a text, whose lists of statements aren't read yet: `below` reads the parts of its
/// items, and `inner` those of their members.
pub fn unit_within<'k, B: Below<'k>, C: Below<'k>>(
    below: &B,
    inner: &C,
    alloc: Global,
    in_core: bool,
    tokens: &'k [Token],
) -> Result<UnitTree, AllocError>
    requires limit { B.room below.now ≤ 200 }
    requires sound { B.sound below.now }
    requires inner_limit { C.room inner.now ≤ 200 }
    requires inner_sound { C.sound inner.now }
    ensures { IfOk result (λ unit. unit ≡ lower_unit in_core (lower (B.room below.now)) (lower (C.room inner.now)) tokens.now) }
{
    let mut items = items(below, inner, alloc, in_core, tokens)?;
    items.shrink_to_fit();
    let at = place_over(tokens, &[]);
    Ok(UnitTree { at, items })
}
