//! `switch`.

ghost use Rattle.std.specs.Prelude.{◌≡◌, ◌≢◌, ◌+◌, ◌≤◌, ◌∷◌, drop, map, Some, Err, IfOk};
ghost use Rattle.readings.specs.Descent.{take_token, take_maybe, take_many, take_inside, take_within, take_turn, ◌▸◌};
ghost use Rattle.dart_tree.specs.Tree.{trees_of};
ghost use Rattle.dart_tree.specs.Heights.{heights};
ghost use Rattle.grammar.specs.Tokens.{is, width, past};
ghost use Rattle.grammar.specs.Statements.{is_case, case_size, labels_of, ends_with_default};
ghost use Rattle.grammar.specs.Descents.{lower, take_unread, take_label, take_labels, take_case, take_cases, take_switch};
ghost use Rattle.parse_leaves.specs.declared.miss.Miss.TheVariants.{NoReading};
ghost use Rattle.parse_leaves.specs.Answers.{Finds, Gives, IsDeep, AreDeep};

use crate::blocks::unread;
use crate::statements::condition;
use dart_tokens::Kind;
use dart_tree::{Expr, Stmt, StmtNode, SwitchCase};
use grammar::{Setting, Token};
use parse_leaves::{Below, Miss, group, heads, higher, place_over, token, tokens_behind};
use std::alloc::Global;

/// The label of a case or of the default.
fn is_case(token: Token) -> bool
    ensures { result ≡ is_case token }
{
    token.kind == Kind::Case || token.kind == Kind::Default
}

/// What comes behind the statements of a case: from the next `case` or `default` outside groups on.
#[tactic(auto, using(crate::proofs::Cases::sized_out, crate::proofs::Cases::sized_end, crate::proofs::Cases::sized_stop))]
fn behind_case(tokens: &[Token]) -> &[Token]
    ensures { result.now ≡ drop (case_size tokens.now) tokens.now }
{
    let mut rest = tokens;
    let mut more = tokens.len();
    while more > 0 {
        let Some((first, behind)) = rest.split_first() else {
            return rest;
        };
        if is_case(*first) {
            return rest;
        }
        rest = tokens_behind(behind, first.past());
        more -= 1;
    }
    rest
}

/// `default` and a `:`.
fn default_label(tokens: &[Token]) -> Option<(Token, Token, &[Token])>
    ensures { Finds (λ x. ((x.0, x.1), x.2.now)) result ((take_token (is Kind.Default) ▸ take_token (is Kind.Colon)) tokens.now) }
{
    let (word, rest) = token(tokens, Kind::Default)?;
    let (colon, rest) = token(rest, Kind::Colon)?;
    Some((word, colon, rest))
}

/// `default` and a `:`, if they come next.
fn some_default_label(tokens: &[Token]) -> (Option<(Token, Token)>, &[Token])
    ensures { take_maybe (take_token (is Kind.Default) ▸ take_token (is Kind.Colon)) tokens.now ≡ Some (result.0, result.1.now) }
{
    match default_label(tokens) {
        Some((word, colon, rest)) => (Some((word, colon)), rest),
        None => (None, tokens),
    }
}

/// `case`, an expression and a `:`.
#[tactic(auto, unfolding(grammar::specs::Descents::take_label))]
fn label<'k, B: Below<'k>>(
    below: &B,
    alloc: Global,
    tokens: &'k [Token],
) -> Result<(Expr, u32, &'k [Token]), Miss>
    requires limit { B.room below.now ≤ 200 }
    requires sound { B.sound below.now }
    ensures reading { Gives (λ x. (x.0, x.2.now)) result (take_label (lower (B.room below.now)) tokens.now) }
    ensures deep { IfOk result (λ x. IsDeep (B.room below.now) x.0 x.1) }
{
    let (_, rest) = token(tokens, Kind::Case).ok_or(Miss::NoReading)?;
    let (value, height, rest) = below.expression(alloc, Setting::Plain, rest)?;
    let (_, rest) = token(rest, Kind::Colon).ok_or(Miss::NoReading)?;
    Ok((value, height, rest))
}

/// Further values of a case.
#[tactic(auto, using(parse_leaves::specs::Loops::row_out, parse_leaves::specs::Loops::row_stop, parse_leaves::specs::Loops::row_goes, readings::specs::Elements::begun, parse_leaves::specs::Sizes::heights_behind, parse_leaves::specs::Sizes::higher_within))]
fn more_labels<'k, B: Below<'k>>(
    below: &B,
    alloc: Global,
    tokens: &'k [Token],
) -> Result<(Vec<Expr>, u32, &'k [Token]), Miss>
    requires limit { B.room below.now ≤ 200 }
    requires sound { B.sound below.now }
    ensures reading { Gives (λ x. (x.0.items, x.2.now)) result (take_many (take_label (lower (B.room below.now))) tokens.now) }
    ensures deep { IfOk result (λ x. AreDeep (B.room below.now) x.0.items x.1) }
{
    let mut list = Vec::new(alloc);
    let mut height = 0;
    let mut rest = tokens;
    let mut more = tokens.len();
    while more > 0 {
        match label(below, alloc, rest) {
            Ok((next, tall, after)) => {
                list.push(next)?;
                height = higher(height, tall);
                rest = after;
                more -= 1;
            }
            Err(Miss::NoReading) => return Ok((list, height, rest)),
            Err(Miss::Memory) => return Err(Miss::Memory),
        }
    }
    Ok((list, height, rest))
}

/// A value with those behind it.
fn with_first(alloc: Global, first: Expr, rest: Vec<Expr>) -> Result<Vec<Expr>, Miss>
    ensures reading { IfOk result (λ x. x.items ≡ first ∷ rest.items) }
    ensures whole { result ≢ Err NoReading }
{
    let mut values = Vec::new(alloc);
    values.push(first)?;
    let mut behind = rest;
    values.append(&mut behind)?;
    Ok(values)
}

/// The values of a case, and maybe `default`.
fn case_labels<'k, B: Below<'k>>(
    below: &B,
    alloc: Global,
    tokens: &'k [Token],
) -> Result<((Vec<Expr>, bool), u32, &'k [Token]), Miss>
    requires limit { B.room below.now ≤ 200 }
    requires sound { B.sound below.now }
    ensures reading { Gives (λ x. ((x.0.0.items, x.0.1), x.2.now)) result
        (take_turn labels_of ((take_label (lower (B.room below.now)) ▸ take_many (take_label (lower (B.room below.now))))
        ▸ take_maybe (take_token (is Kind.Default) ▸ take_token (is Kind.Colon))) tokens.now) }
    ensures deep { IfOk result (λ x. AreDeep (B.room below.now) x.0.0.items x.1) }
{
    let (first, tall, rest) = label(below, alloc, tokens)?;
    let (others, height, rest) = more_labels(below, alloc, rest)?;
    let (found, rest) = some_default_label(rest);
    let values = with_first(alloc, first, others)?;
    Ok(((values, found.is_some()), higher(tall, height), rest))
}

/// The values of a case, and whether it is the default.
#[tactic(auto, unfolding(grammar::specs::Descents::take_labels))]
fn labels<'k, B: Below<'k>>(
    below: &B,
    alloc: Global,
    tokens: &'k [Token],
) -> Result<((Vec<Expr>, bool), u32, &'k [Token]), Miss>
    requires limit { B.room below.now ≤ 200 }
    requires sound { B.sound below.now }
    ensures reading { Gives (λ x. ((x.0.0.items, x.0.1), x.2.now)) result (take_labels (lower (B.room below.now)) tokens.now) }
    ensures deep { IfOk result (λ x. AreDeep (B.room below.now) x.0.0.items x.1) }
{
    if heads(tokens, Kind::Case) {
        return case_labels(below, alloc, tokens);
    }
    let (_, _, rest) = default_label(tokens).ok_or(Miss::NoReading)?;
    Ok(((Vec::new(alloc), true), 0, rest))
}

/// The statements of a case, which are not read yet.
#[tactic(auto, using(parse_leaves::specs::Groups::read_before))]
fn case_statements(alloc: Global, tokens: &[Token]) -> Result<(Vec<Stmt>, &[Token]), Miss>
    ensures reading { Gives (λ x. (x.0.items, x.1.now)) result (take_within case_size take_unread tokens.now) }
    ensures deep { IfOk result (λ x. heights (trees_of x.0.items) ≡ 0) }
{
    let rest = behind_case(tokens);
    let inside = readings::tokens_read(tokens, rest);
    let list = unread(alloc, inside)?;
    Ok((list, rest))
}

/// A case, and whether it is the default.
#[tactic(auto, unfolding(grammar::specs::Descents::take_case), using(parse_leaves::specs::Sizes::higher_zero))]
fn case<'k, B: Below<'k>>(
    below: &B,
    alloc: Global,
    tokens: &'k [Token],
) -> Result<((SwitchCase, bool), u32, &'k [Token]), Miss>
    requires limit { B.room below.now ≤ 200 }
    requires sound { B.sound below.now }
    ensures reading { Gives (λ x. (x.0, x.2.now)) result (take_case (lower (B.room below.now)) tokens.now) }
    ensures deep { IfOk result (λ x. IsDeep (B.room below.now) x.0.0 x.1) }
{
    let ((labels, is_default), height, rest) = labels(below, alloc, tokens)?;
    let (statements, rest) = case_statements(alloc, rest)?;
    let case = SwitchCase {
        at: place_over(tokens, rest),
        labels,
        is_default,
        statements,
    };
    Ok(((case, is_default), height, rest))
}

/// Cases.
#[tactic(auto, using(parse_leaves::specs::Loops::row_out, parse_leaves::specs::Loops::row_stop, parse_leaves::specs::Loops::row_goes, readings::specs::Elements::begun, crate::proofs::Cases::cases_behind, parse_leaves::specs::Sizes::higher_within))]
fn case_list<'k, B: Below<'k>>(
    below: &B,
    alloc: Global,
    tokens: &'k [Token],
) -> Result<(Vec<(SwitchCase, bool)>, u32, &'k [Token]), Miss>
    requires limit { B.room below.now ≤ 200 }
    requires sound { B.sound below.now }
    ensures reading { Gives (λ x. (x.0.items, x.2.now)) result (take_many (take_case (lower (B.room below.now))) tokens.now) }
    ensures deep { IfOk result (λ x. AreDeep (B.room below.now) (map (λ c. c.0) x.0.items) x.1) }
{
    let mut list = Vec::new(alloc);
    let mut height = 0;
    let mut rest = tokens;
    let mut more = tokens.len();
    while more > 0 {
        match case(below, alloc, rest) {
            Ok((next, tall, after)) => {
                list.push(next)?;
                height = higher(height, tall);
                rest = after;
                more -= 1;
            }
            Err(Miss::NoReading) => return Ok((list, height, rest)),
            Err(Miss::Memory) => return Err(Miss::Memory),
        }
    }
    Ok((list, height, rest))
}

/// No case but the last is the default.
#[tactic(auto, using(crate::proofs::Cases::default_few, crate::proofs::Cases::default_early, crate::proofs::Cases::default_goes))]
fn ends_with_default(cases: &[(SwitchCase, bool)]) -> bool
    ensures { result ≡ ends_with_default cases.now }
{
    let mut rest = cases;
    let mut more = cases.len();
    while more > 1 {
        let Some((first, behind)) = rest.split_first() else {
            return true;
        };
        if first.1 {
            return false;
        }
        rest = behind;
        more -= 1;
    }
    true
}

/// The cases alone.
fn cases_alone(alloc: Global, found: Vec<(SwitchCase, bool)>) -> Result<Vec<SwitchCase>, Miss>
    ensures reading { IfOk result (λ x. x.items ≡ map (λ c. c.0) found.items) }
    ensures whole { result ≢ Err NoReading }
{
    let mut cases = Vec::new(alloc);
    for (case, _) in found {
        cases.push(case)?;
    }
    Ok(cases)
}

/// The braces of cases.
#[tactic(auto, using(parse_leaves::specs::Groups::inside_outside, parse_leaves::specs::Groups::group_missing, parse_leaves::specs::Groups::group_cut, parse_leaves::specs::Groups::group_whole))]
fn case_group<'k, B: Below<'k>>(
    below: &B,
    alloc: Global,
    tokens: &'k [Token],
) -> Result<(Token, Vec<(SwitchCase, bool)>, u32, &'k [Token]), Miss>
    requires limit { B.room below.now ≤ 200 }
    requires sound { B.sound below.now }
    ensures reading { Gives (λ x. ((x.0, x.1.items), x.3.now)) result
        (take_inside (is Kind.OpenBrace) width past (take_many (take_case (lower (B.room below.now)))) tokens.now) }
    ensures deep { IfOk result (λ x. AreDeep (B.room below.now) (map (λ c. c.0) x.1.items) x.2) }
{
    let Some((opening, inside, rest)) = group(tokens, Kind::OpenBrace) else {
        return Err(Miss::NoReading);
    };
    match case_list(below, alloc, inside) {
        Ok((found, height, left)) => {
            if !left.is_empty() {
                return Err(Miss::NoReading);
            }
            Ok((opening, found, height, rest))
        }
        Err(Miss::NoReading) => Err(Miss::NoReading),
        Err(Miss::Memory) => Err(Miss::Memory),
    }
}

/// The cases of a switch.
#[tactic(auto, unfolding(grammar::specs::Descents::take_cases))]
fn cases<'k, B: Below<'k>>(
    below: &B,
    alloc: Global,
    tokens: &'k [Token],
) -> Result<(Token, Vec<(SwitchCase, bool)>, u32, &'k [Token]), Miss>
    requires limit { B.room below.now ≤ 200 }
    requires sound { B.sound below.now }
    ensures reading { Gives (λ x. ((x.0, x.1.items), x.3.now)) result (take_cases (lower (B.room below.now)) tokens.now) }
    ensures deep { IfOk result (λ x. AreDeep (B.room below.now) (map (λ c. c.0) x.1.items) x.2) }
{
    let (opening, found, height, rest) = case_group(below, alloc, tokens)?;
    if !ends_with_default(&found) {
        return Err(Miss::NoReading);
    }
    Ok((opening, found, height, rest))
}

/// `switch`.
#[tactic(auto, unfolding(grammar::specs::Descents::take_switch))]
pub fn switch_statement<'k, B: Below<'k>>(
    below: &B,
    alloc: Global,
    tokens: &'k [Token],
) -> Result<(Stmt, u32, &'k [Token]), Miss>
    requires limit { B.room below.now ≤ 200 }
    requires sound { B.sound below.now }
    ensures reading { Gives (λ x. (x.0, x.2.now)) result (take_switch (lower (B.room below.now)) tokens.now) }
    ensures deep { IfOk result (λ x. IsDeep (B.room below.now + 1) x.0 x.1) }
{
    let (_, rest) = token(tokens, Kind::Switch).ok_or(Miss::NoReading)?;
    let (value, tall, rest) = condition(below, alloc, rest)?;
    let (_, found, height, rest) = cases(below, alloc, rest)?;
    let cases = cases_alone(alloc, found)?;
    let at = place_over(tokens, rest);
    let node = Box::new(alloc, StmtNode::Switch { at, value, cases })?;
    Ok((Stmt { node }, higher(tall, height) + 1, rest))
}
