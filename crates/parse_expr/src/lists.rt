//! Lists of statements, with errors among them, read where they stand.

ghost use Rattle.std.specs.Prelude.{◌≡◌, ◌≤◌, suc, map, drop, IfOk};
ghost use Rattle.std.specs.List.Sorted.{IsNonDecreasingBy};
ghost use Rattle.readings.specs.Descent.{all_items};
ghost use Rattle.dart_tree.specs.Tree.{trees_of};
ghost use Rattle.dart_tokens.specs.declared.grouped_token.GroupedToken.{GroupedToken as Token};
ghost use Rattle.grammar.specs.Statements.{segment, error_of};
ghost use Rattle.grammar.specs.Descents.{lower};
ghost use Rattle.parse_leaves.specs.Answers.{Gives};
ghost use Rattle.grammar.specs.Whole.{tokens_over as tokens_at, statements_at, most_nodes};
ghost use Rattle.unread_lists.specs.WithLists.{with_lists, all_with_lists};

use crate::items::next_item;
use crate::node::part_at;
use crate::part::{Node, Part};
use crate::places::{starts_before, starts_before_near, tokens_from};
use dart_tokens::Kind;
use dart_tree::{Place, Stmt};
use grammar::{Token, list_laws};
use parse_leaves::{Miss, tokens_behind};
use read_lists::{ReadsLists, read_stmts};
use std::alloc::{AllocError, Global};

/// What comes behind the segment that begins the tokens: it ends behind its first `;` or group of
/// braces outside other groups.
#[tactic(auto, using(crate::proofs::Segments::ends_out, crate::proofs::Segments::ends_empty, crate::proofs::Segments::ends_semicolon, crate::proofs::Segments::ends_braces, crate::proofs::Segments::segment_goes))]
pub fn behind_segment(tokens: &[Token]) -> &[Token]
    ensures { result.now ≡ drop (suc (segment tokens.now)) tokens.now }
{
    let mut rest = tokens;
    let mut more = tokens.len();
    while more > 0 {
        let Some((first, behind)) = rest.split_first() else {
            return rest;
        };
        if first.kind == Kind::Semicolon {
            return behind;
        }
        let after = tokens_behind(behind, first.past());
        if first.kind == Kind::OpenBrace {
            return after;
        }
        rest = after;
        more -= 1;
    }
    rest
}

/// A statement, whose lists aren't read yet, and the tokens that are left.
pub(crate) fn statement_at<'k>(
    alloc: Global,
    room: u32,
    tokens: &'k [Token],
) -> Result<(Stmt, &'k [Token]), Miss>
    requires limit { room ≤ 201 }
    ensures { Gives (λ x. (x.0, x.1.now)) result ((lower room).statement tokens.now) }
{
    let (node, _, rest) = part_at(alloc, Part::Statement, room, tokens)?;
    match node {
        Node::Stmt(found) => Ok((found, rest)),
        _ => Err(Miss::NoReading),
    }
}

/// The statements of these tokens, where `room` nodes may lie on a way down from each, with an error
/// wherever none can be read. Lists in them aren't read yet.
#[tactic(auto, using(crate::specs::ItemLaws::list_out, crate::specs::ItemLaws::list_end, crate::specs::ItemLaws::list_goes))]
fn statements(alloc: Global, room: u32, tokens: &[Token]) -> Result<Vec<Stmt>, AllocError>
    requires limit { room ≤ 201 }
    ensures { IfOk result (λ list. list.items ≡ all_items ((lower room).statement) segment error_of tokens.now) }
{
    let mut list = Vec::new(alloc);
    let mut known = None;
    let mut rest = tokens;
    let mut more = tokens.len();
    while more > 0 {
        let Some((_first, _behind)) = rest.split_first() else {
            return Ok(list);
        };
        let (next, after) = next_item(&mut known, alloc, room, rest)?;
        list.push(next)?;
        rest = after;
        more -= 1;
    }
    Ok(list)
}

/// Reads lists of statements by a function, which lie at most so many deep in each other.
#[derive(Drop)]
struct ListReader<'k, F: Drop> {
    read: F,
    text: &'k [Token],
    lists: u32,
}

impl<'k, F: Fn(u32, Place) -> Result<Vec<Stmt>, AllocError> + Drop> ReadsLists
    for ListReader<'k, F> {
    ghost lists = { λ s. statements_at s.lists s.text.now };

    ghost sound = { λ s. ((room : _) (at : _) → room ≤ 201 → F.pre s.read room at) × ((room : _) (at : _) (r : _) → F.post s.read room at r → IfOk r (λ list. trees_of list.items ≡ statements_at s.lists s.text.now room at)) };

    fn read(
        &self,
        _alloc: Global,
        room: u32,
        at: &Place,
        statements: &mut Vec<Stmt>,
    ) -> Result<(), AllocError> {
        *statements = (self.read)(room, *at)?;
        Ok(())
    }
}

/// The statements of these tokens, as far as they are read without the lists in them, with those lists
/// read by a reader.
fn whole_statements<R: ReadsLists>(
    reader: &R,
    alloc: Global,
    room: u32,
    tokens: &[Token],
) -> Result<Vec<Stmt>, AllocError>
    requires limit { room ≤ 201 }
    requires sound { R.sound reader.now }
    ensures { IfOk result (λ list. trees_of list.items ≡ all_with_lists (R.lists reader.now) room (trees_of (all_items ((lower room).statement) segment error_of tokens.now))) }
{
    let mut list = statements(alloc, room, tokens)?;
    list.shrink_to_fit();
    read_stmts(reader, alloc, room, &mut list)?;
    Ok(list)
}

/// What the list at a place is, where lists lie at most one deeper in each other than `less`.
fn list_law(text: &[Token], less: u32, room: u32, at: Place)
    ensures { statements_at (suc less) text.now room at ≡ trees_of (map (with_lists (statements_at less text.now) room) (all_items ((lower room).statement) segment error_of (tokens_at text.now at))) }
{
    list_laws();
}

/// The statements of the list at a place, where `room` nodes may lie on a way down from each, with the
/// lists in them read: lists lie at most `depth` deep in each other. The list begins behind `near`
/// tokens of the text or a few more, or else its place is searched for in all of the text.
#[tactic(auto, using(crate::proofs::WholeLists::none_at, crate::proofs::WholeLists::some_at))]
fn list_at(
    alloc: Global,
    text: &[Token],
    near: usize,
    depth: u32,
    room: u32,
    at: Place,
) -> Result<Vec<Stmt>, AllocError>
    requires limit { room ≤ 201 }
    requires ordered { IsNonDecreasingBy (λ t. t.start) text.now }
    ensures { IfOk result (λ list. trees_of list.items ≡ statements_at depth text.now room at) }
{
    if depth == 0 {
        return Ok(Vec::new(alloc));
    }
    let less = depth - 1;
    list_law(text, less, room, at);
    let first = starts_before_near(text, near, at.span.start);
    let reader = ListReader {
        read: |inner, place|
            requires limit { inner ≤ 201 }
            requires ordered { IsNonDecreasingBy (λ t. t.start) text.now }
            ensures { IfOk result (λ list. trees_of list.items ≡ statements_at less text.entry.now inner place) }
        { list_at(alloc, text, first, less, inner, place) },
        text,
        lists: less,
    };
    whole_statements(&reader, alloc, room, tokens_from(text, first, &at))
}

/// Reads the lists of statements of a text, each where it stands.
#[derive(Drop)]
pub struct TextLists<'k> {
    text: &'k [Token],
}

impl<'k> TextLists<'k> {
    /// The lists of a text, whose tokens stand in the order of their starts.
    pub fn new(text: &'k [Token]) -> TextLists<'k>
        requires ordered { IsNonDecreasingBy (λ t. t.start) text.now }
        ensures { result.text.now ≡ text.now }
    {
        TextLists { text }
    }
}

impl<'k> ReadsLists for TextLists<'k> {
    ghost lists = { λ s. statements_at most_nodes s.text.now };

    ghost sound = { λ s. IsNonDecreasingBy (λ t. t.start) s.text.now };

    fn read(
        &self,
        alloc: Global,
        room: u32,
        at: &Place,
        statements: &mut Vec<Stmt>,
    ) -> Result<(), AllocError> {
        let first = starts_before(self.text, at.span.start);
        *statements = list_at(alloc, self.text, first, 201, room, *at)?;
        Ok(())
    }
}
