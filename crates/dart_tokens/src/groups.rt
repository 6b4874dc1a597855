//! Groups: which brackets belong together.

ghost use Rattle.std.specs.Prelude.{◌≡◌, ◌<◌, ◌^◌, IfOk, length};
ghost use Rattle.dart_tokens.specs.Groups.{partners_of, faults_of};

use crate::faults::faults;
use crate::pairing::partners;
use crate::token::Token;
use std::alloc::{AllocError, Global};
use std::marker::Model;

/// What is wrong with a bracket.
#[derive(Clone, Copy, Debug, PartialEq, Eq)]
pub enum GroupFaultKind {
    /// It opens a group that no bracket closes.
    UnclosedGroup,
    /// It closes no group.
    UnopenedGroup,
}

/// A bracket with which something is wrong.
#[derive(Clone, Copy, Debug, PartialEq, Eq)]
pub struct GroupFault {
    pub kind: GroupFaultKind,
    /// The place of the bracket among the tokens, from 0.
    pub token: u32,
}

/// Faults of brackets, in the order of their tokens.
#[derive(Debug, Drop)]
pub struct GroupFaults {
    faults: Vec<GroupFault>,
}

impl Model for GroupFaults {
    ghost use Rattle.std.specs.Prelude.{List};
    ghost use Rattle.dart_tokens.specs.declared.groups.GroupFault.{GroupFault};

    ghost Value = { List GroupFault };

    ghost view = { λ a. a.faults.items };
}

impl GroupFaults {
    /// Those that the vector holds, which takes no memory.
    pub fn from_vec(faults: Vec<GroupFault>) -> GroupFaults
        ensures { result ≡ faults.items }
    {
        GroupFaults { faults }
    }

    /// These themselves.
    pub fn as_slice(&self) -> &[GroupFault]
        ensures { result.now ≡ self.now }
    {
        self.faults.as_slice()
    }
}

/// A partner or none for each token, in their order.
#[derive(Debug, Drop)]
pub struct Partners {
    partners: Vec<Option<u32>>,
}

impl Model for Partners {
    ghost use Rattle.std.specs.Prelude.{ℕ, List, Option};

    ghost Value = { List (Option ℕ) };

    ghost view = { λ a. a.partners.items };
}

impl Partners {
    /// Those that the vector holds, which takes no memory.
    pub fn from_vec(partners: Vec<Option<u32>>) -> Partners
        ensures { result ≡ partners.items }
    {
        Partners { partners }
    }

    /// These themselves.
    pub fn as_slice(&self) -> &[Option<u32>]
        ensures { result.now ≡ self.now }
    {
        self.partners.as_slice()
    }
}

/// The groups of tokens.
#[derive(Debug, Drop)]
pub struct Groups {
    /// The partner of each token. That of a bracket that opens a group is the place, among the tokens,
    /// of the one that closes it or, where none does, the place before which the group ends. That of
    /// a bracket that closes a group is the place of the one that opens it. All else has none.
    pub partner: Partners,
    pub faults: GroupFaults,
}

/// The groups of fewer than 2^32 tokens, in time that is linear in their number.
pub fn group(alloc: Global, tokens: &[Token]) -> Result<Groups, AllocError>
    requires { length tokens.now < 2 ^ 32 }
    ensures partner { IfOk result (λ groups. groups.partner ≡ partners_of tokens.now) }
    ensures faults { IfOk result (λ groups. groups.faults ≡ faults_of tokens.now) }
{
    let partner = partners(alloc, tokens)?;
    let faults = faults(alloc, tokens, &partner)?;
    Ok(Groups {
        partner: Partners::from_vec(partner),
        faults: GroupFaults::from_vec(faults),
    })
}
