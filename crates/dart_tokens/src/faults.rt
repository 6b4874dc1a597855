//! What is wrong with brackets, by the partners of all tokens.

ghost use Rattle.std.specs.Prelude.{◌≡◌, ◌^◌, ◌<◌, IfOk, None, length, slice_index_or};
ghost use Rattle.dart_tokens.specs.Groups.{faults_of, partners_of};
ghost use Rattle.dart_tokens.specs.Faults.{fault_by, is_mutual};

use crate::bracket::{closes, opens};
use crate::groups::{GroupFault, GroupFaultKind};
use crate::token::{Kind, Token};
use std::alloc::{AllocError, Global};

/// The faults of fewer than 2^32 tokens, of which these are the partners.
pub fn faults(
    alloc: Global,
    tokens: &[Token],
    partner: &[Option<u32>],
) -> Result<Vec<GroupFault>, AllocError>
    requires few { length tokens.now < 2 ^ 32 }
    requires partner { partner.now ≡ partners_of tokens.now }
    ensures { IfOk result (λ faults. faults.items ≡ faults_of tokens.now) }
{
    let mut faults = Vec::new(alloc);
    for (index, token) in tokens.iter().enumerate() {
        let place = index as u32;
        if let Some(kind) = fault(token.kind, place, partner) {
            faults.push(GroupFault { kind, token: place })?;
        }
    }
    Ok(faults)
}

/// What is wrong with the token at a place.
fn fault(kind: Kind, place: u32, partner: &[Option<u32>]) -> Option<GroupFaultKind>
    ensures { result ≡ fault_by partner.now place kind }
{
    if opens(kind).is_some() {
        if is_mutual(partner, place) {
            None
        } else {
            Some(GroupFaultKind::UnclosedGroup)
        }
    } else if closes(kind).is_some() && partner_at(partner, place).is_none() {
        Some(GroupFaultKind::UnopenedGroup)
    } else {
        None
    }
}

/// Whether the token at a place is the partner of its partner.
fn is_mutual(partner: &[Option<u32>], place: u32) -> bool
    ensures { result ≡ is_mutual partner.now place }
{
    match partner_at(partner, place) {
        Some(other) => partner_at(partner, other) == Some(place),
        None => false,
    }
}

/// The partner of the token at a place; none, where there is no token.
fn partner_at(partner: &[Option<u32>], place: u32) -> Option<u32>
    ensures { result ≡ slice_index_or partner.now place None }
{
    match partner.get(place as usize) {
        Some(other) => *other,
        None => None,
    }
}
