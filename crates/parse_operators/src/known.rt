//! What stands behind the operands of a text, kept for each place where it has been asked for.

ghost use Rattle.std.specs.Prelude.{◌≡◌, ◌≤◌, ◌-◌, Some, None, length, drop, option_map, IfOk, IfSome};
ghost use Rattle.readings.specs.Values.{Maybe};
ghost use Rattle.parse_leaves.specs.Answers.{Gives};
ghost use Rattle.last_parts.specs.LastParts.{IsLast};
ghost use Rattle.parse_operators.specs.Ends.{behind, behind_at, IsBehind};

use crate::expressions::{TABLE, cascade_section, levels_behind, right_side};
use crate::extents::{Extent, extent_of, rank, side_extent};
use grammar::{Level, Setting, Token};
use parse_leaves::{Below, Miss, next_level, tokens_behind};
use std::alloc::{AllocError, Global};
use std::collections::BTreeMap;
use std::marker::Model;

/// What stands behind operands of a text: each place is read once. A place is known by how many tokens
/// are left there. Contracts see the text, and how many nodes may lie on a way down.
#[derive(Drop)]
pub struct Known<'k> {
    tokens: &'k [Token],
    room: u32,
    places: BTreeMap<usize, Option<(Extent, usize)>>,
}

impl<'k> Model for Known<'k> {
    ghost use Rattle.parse_operators.specs.Ends.{Places, IsKnown};

    ghost Value = { Places };

    ghost view = { λ s. record { tokens = s.tokens.now; room = s.room } };

    ghost invariant = { λ s. IsKnown (record { tokens = s.tokens.now; room = s.room }) s.places };
}

/// Reads what an operator of a level adds.
#[tactic(auto, using(parse_leaves::specs::LastLevels::last_all, parse_leaves::specs::LastLevels::last_behind, crate::proofs::Sides::side_missed, crate::proofs::Sides::side_seen))]
fn read_side<'k, B: Below<'k>>(
    below: &B,
    alloc: Global,
    level: Level,
    tokens: &'k [Token],
) -> Result<(Extent, &'k [Token]), Miss>
    requires limit { B.room below.now ≤ 200 }
    requires sound { B.sound below.now }
    ensures reading { Gives (λ x. (x.0, x.1.now)) result (behind_at (B.room below.now) (Some level) tokens.now) }
    ensures deep { IfOk result (λ x. x.0.height ≤ 200) }
{
    let above = levels_behind(&TABLE, rank(level));
    match right_side(below, alloc, Setting::Plain, level, above, tokens) {
        Ok((side, height, rest)) => {
            let extent = side_extent(height, &side);
            Ok((extent, rest))
        }
        Err(miss) => Err(miss),
    }
}

/// Reads a section of a cascade.
#[tactic(auto, using(crate::proofs::Sides::section_missed, crate::proofs::Sides::section_seen))]
fn read_section<'k, B: Below<'k>>(
    below: &B,
    alloc: Global,
    tokens: &'k [Token],
) -> Result<(Extent, &'k [Token]), Miss>
    requires limit { B.room below.now ≤ 200 }
    requires sound { B.sound below.now }
    ensures reading { Gives (λ x. (x.0, x.1.now)) result (behind_at (B.room below.now) None tokens.now) }
    ensures deep { IfOk result (λ x. x.0.height ≤ 200) }
{
    match cascade_section(below, alloc, Setting::Plain, tokens) {
        Ok((_, section, height, rest)) => {
            let extent = extent_of(height, &section);
            Ok((extent, rest))
        }
        Err(miss) => Err(miss),
    }
}

/// Reads what stands behind an operand: what an operator adds, or a section of a cascade.
fn read_behind<'k, B: Below<'k>>(
    below: &B,
    alloc: Global,
    tokens: &'k [Token],
) -> Result<(Extent, &'k [Token]), Miss>
    requires limit { B.room below.now ≤ 200 }
    requires sound { B.sound below.now }
    ensures reading { Gives (λ x. (x.0, x.1.now)) result (behind (B.room below.now) tokens.now) }
    ensures deep { IfOk result (λ x. x.0.height ≤ 200) }
{
    match next_level(tokens) {
        Some(level) => read_side(below, alloc, level, tokens),
        None => read_section(below, alloc, tokens),
    }
}

impl<'k> Known<'k> {
    /// Nothing is known of a text yet, below whose expressions so many nodes may lie on a way down.
    pub fn new(alloc: Global, room: u32, tokens: &'k [Token]) -> Known<'k>
        ensures { result ≡ record { tokens = tokens.now; room = room } }
    {
        Known {
            tokens,
            room,
            places: BTreeMap::new(alloc),
        }
    }

    /// What is kept of a place.
    fn kept(&self, left: usize) -> Option<Option<(Extent, usize)>>
        ensures { IfSome result (λ kept. IsBehind self.now left kept) }
    {
        self.places.get(&left).copied()
    }

    /// Keeps what stands behind a place.
    fn keep(&mut self, left: usize, found: Option<(Extent, usize)>) -> Result<(), AllocError>
        requires { IsBehind self.old left found }
        ensures { self.new ≡ self.old }
    {
        self.places.insert(left, found)?;
        Ok(())
    }

    /// The tokens of the text of which so many are left.
    fn last_tokens(&self, left: usize) -> &'k [Token]
        ensures { result.now ≡ drop (length self.now.tokens - left) self.now.tokens }
    {
        tokens_behind(self.tokens, self.tokens.len().saturating_sub(left))
    }

    /// What stands behind the operand before these tokens, as it was read once.
    #[tactic(auto, using(crate::proofs::Kept::known_none, crate::proofs::Kept::known_some, crate::proofs::Kept::kept_none, crate::proofs::Kept::kept_some))]
    pub(crate) fn behind<B: Below<'k>>(
        &mut self,
        below: &B,
        alloc: Global,
        tokens: &'k [Token],
    ) -> Result<Option<(Extent, &'k [Token])>, AllocError>
        requires limit { B.room below.now ≤ 200 }
        requires sound { B.sound below.now }
        requires room { self.old.room ≡ B.room below.now }
        requires last { IsLast tokens.now self.old.tokens }
        ensures same { self.new ≡ self.old }
        ensures found { IfOk result (λ found. option_map (λ x. (x.0, x.1.now)) found ≡ behind (B.room below.now) tokens.now) }
        ensures deep { IfOk result (λ found. Maybe (λ x. x.0.height ≤ 200) found) }
    {
        let left = tokens.len();
        if let Some(kept) = self.kept(left) {
            let Some((extent, after)) = kept else {
                return Ok(None);
            };
            return Ok(Some((extent, self.last_tokens(after))));
        }
        match read_behind(below, alloc, tokens) {
            Ok((extent, rest)) => {
                self.keep(left, Some((extent, rest.len())))?;
                Ok(Some((extent, rest)))
            }
            Err(Miss::NoReading) => {
                self.keep(left, None)?;
                Ok(None)
            }
            Err(Miss::Memory) => Err(AllocError),
        }
    }
}
