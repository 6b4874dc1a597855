//! Partners of tokens, in one pass over them.

ghost use Rattle.std.specs.Prelude.{◌≡◌, ◌∷◌, ◌++◌, ◌^◌, ◌<◌, [], IfOk, OnOk, Some, length, vec_len};
ghost use Rattle.dart_tokens.specs.Groups.{after_closing, after_token, nearest, partners_of};
ghost use Rattle.dart_tokens.specs.Stack.{BeganBefore, bracket_of};
ghost use Rattle.dart_tokens.specs.Pairing.{EndsAt, Takes, partner_so_far};

use crate::bracket::{Bracket, closes, opens};
use crate::open_groups::{Open, OpenGroups};
use crate::token::{Kind, Token};
use std::alloc::{AllocError, Global};

/// The groups of the first of some tokens: those that are open behind them, and the partners of these
/// tokens. The partner of one that opens a group that is open is the place behind all tokens.
#[derive(Drop)]
pub struct Pairing {
    end: u32,
    pub around: OpenGroups,
    pub partner: Vec<Option<u32>>,
}

impl Pairing {
    /// None of the tokens, of which there are so many.
    pub fn new(alloc: Global, end: u32) -> Result<Pairing, AllocError>
        ensures end { IfOk result (λ pairing. pairing.end ≡ end) }
        ensures around { IfOk result (λ pairing. pairing.around ≡ []) }
        ensures partner { IfOk result (λ pairing. pairing.partner.items ≡ []) }
    {
        Ok(Pairing {
            end,
            around: OpenGroups::new(alloc),
            partner: Vec::with_capacity(alloc, end as usize)?,
        })
    }

    /// One token more, of this kind.
    pub fn take(&mut self, kind: Kind) -> Result<(), AllocError>
        requires few { vec_len self.old.partner < 2 ^ 32 }
        requires began { BeganBefore (vec_len self.old.partner) self.old.around }
        ensures end { OnOk result (self.new.end ≡ self.old.end) }
        ensures around { OnOk result (self.new.around ≡ after_token (vec_len self.old.partner) kind self.old.around) }
        ensures partner { OnOk result (Takes self.old.end kind self.old.around self.new.around self.old.partner.items self.new.partner.items) }
    {
        let partner = self.partner_of_next(kind)?;
        self.partner.push(partner)?;
        Ok(())
    }

    /// The next token opens a group, or ends groups, or does neither. The partner that it has for now.
    fn partner_of_next(&mut self, kind: Kind) -> Result<Option<u32>, AllocError>
        requires few { vec_len self.old.partner < 2 ^ 32 }
        requires began { BeganBefore (vec_len self.old.partner) self.old.around }
        ensures end { self.new.end ≡ self.old.end }
        ensures result { IfOk result (λ partner. partner ≡ partner_so_far self.old.end kind self.old.around) }
        ensures around { OnOk result (self.new.around ≡ after_token (vec_len self.old.partner) kind self.old.around) }
        ensures partner { OnOk result (EndsAt (vec_len self.old.partner) self.old.around self.new.around self.old.partner.items self.new.partner.items) }
    {
        let place = self.partner.len() as u32;
        if let Some(bracket) = opens(kind) {
            self.around.push(Open { bracket, place })?;
            return Ok(Some(self.end));
        }
        match closes(kind) {
            Some(bracket) => Ok(self.close(bracket, place)),
            None => Ok(None),
        }
    }

    /// A token at a place closes the nearest open group of a kind: that one, and those opened since,
    /// end before it. The place where that one began; none, if none of the kind is open.
    fn close(&mut self, bracket: Bracket, place: u32) -> Option<u32>
        requires { BeganBefore (vec_len self.old.partner) self.old.around }
        ensures end { self.new.end ≡ self.old.end }
        ensures began { result ≡ nearest (bracket_of bracket) self.old.around }
        ensures around { self.new.around ≡ after_closing (Some (bracket_of bracket)) self.old.around }
        ensures partner { EndsAt place self.old.around self.new.around self.old.partner.items self.new.partner.items }
    {
        if !self.around.can_close(bracket) {
            return None;
        }
        while let Some(group) = self.around.pop() {
            self.partner[group.place as usize] = Some(place);
            if group.bracket == bracket {
                return Some(group.place);
            }
        }
        None
    }
}

/// The partners of fewer than 2^32 tokens.
pub fn partners(alloc: Global, tokens: &[Token]) -> Result<Vec<Option<u32>>, AllocError>
    requires { length tokens.now < 2 ^ 32 }
    ensures { IfOk result (λ partner. partner.items ≡ partners_of tokens.now) }
{
    let mut pairing = Pairing::new(alloc, tokens.len() as u32)?;
    for token in tokens {
        pairing.take(token.kind)?;
    }
    Ok(pairing.partner)
}
