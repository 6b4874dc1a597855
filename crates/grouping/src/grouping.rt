//! Tokens with their groups, as they come.

ghost use Rattle.std.specs.Prelude.{◌≡◌, ◌<◌, ◌^◌, ◌++◌, ◌∷◌, [], IfOk, OnErr, OnOk, Some, None, length, option_map};
ghost use Rattle.dart_tokens.specs.Groups.{faults_of};
ghost use Rattle.dart_tokens.specs.Kinds.{closes, opens};
ghost use Rattle.dart_tokens.specs.Read.{ungrouped};
ghost use Rattle.dart_tokens.specs.Stack.{bracket_of};

use crate::faults::faults;
use crate::sizes::{close_groups, end_groups};
use dart_tokens::{
    Bracket, GroupFaults, GroupedToken, Open, OpenGroups, Token, Tokens, UnopenedBracket, closes,
    opens,
};
use std::alloc::{AllocError, Global};
use std::marker::Model;

/// The tokens of a text, and what is wrong with their groups.
#[derive(Debug, Drop)]
pub struct Grouped {
    pub tokens: Tokens,
    pub faults: GroupFaults,
}

/// The first tokens of a text, each with the group that it opens, so far as that has ended.
#[derive(Debug, Drop)]
pub struct Grouping {
    read: Vec<GroupedToken>,
    unopened: Vec<UnopenedBracket>,
    around: OpenGroups,
}

impl Model for Grouping {
    ghost use Rattle.std.specs.Prelude.{List};
    ghost use Rattle.dart_tokens.specs.declared.token.Token.{Token};
    ghost use Rattle.dart_tokens.specs.Read.{all_tokens};
    ghost use Rattle.grouping.specs.SoFar.{IsSoFar};

    ghost Value = { List Token };

    ghost view = { λ a. all_tokens a.read.items a.unopened.items };

    ghost invariant = { λ a. IsSoFar (all_tokens a.read.items a.unopened.items) a.read.items a.unopened.items a.around };
}

/// Adds a token, without its group.
fn add(read: &mut Vec<GroupedToken>, token: Token) -> Result<(), AllocError>
    ensures added { OnOk result (read.new.items ≡ read.old.items ++ ungrouped token ∷ []) }
    ensures failed { OnErr result (read.new.items ≡ read.old.items) }
{
    read.push(GroupedToken {
        kind: token.kind,
        is_closed: false,
        start: token.start,
        end: token.end,
        word: token.word,
        width: 0,
    })?;
    Ok(())
}

impl Grouping {
    /// No token, which takes no memory.
    pub fn new(alloc: Global) -> Grouping
        ensures { result ≡ [] }
    {
        Grouping {
            read: Vec::new(alloc),
            unopened: Vec::new(alloc),
            around: OpenGroups::new(alloc),
        }
    }

    /// No token, with room for so many that the grammar reads.
    pub fn with_room(alloc: Global, count: usize) -> Result<Grouping, AllocError>
        ensures { IfOk result (λ grouping. grouping ≡ []) }
    {
        Ok(Grouping {
            read: Vec::with_capacity(alloc, count)?,
            unopened: Vec::new(alloc),
            around: OpenGroups::new(alloc),
        })
    }

    /// One token more.
    pub fn push(&mut self, token: Token) -> Result<(), AllocError>
        requires { length self.old < 2 ^ 32 }
        ensures added { OnOk result (self.new ≡ self.old ++ token ∷ []) }
        ensures failed { OnErr result (self.new ≡ self.old) }
    {
        if let Some(bracket) = opens(token.kind) {
            return self.open(bracket, token);
        }
        match closes(token.kind) {
            Some(bracket) => self.close(bracket, token),
            None => self.take(token),
        }
    }

    /// A token that opens a group.
    fn open(&mut self, bracket: Bracket, token: Token) -> Result<(), AllocError>
        requires few { length self.old < 2 ^ 32 }
        requires opens { opens token.kind ≡ Some (bracket_of bracket) }
        ensures added { OnOk result (self.new ≡ self.old ++ token ∷ []) }
        ensures failed { OnErr result (self.new ≡ self.old) }
    {
        let place = self.read.len() as u32;
        self.around.push(Open { bracket, place })?;
        match add(&mut self.read, token) {
            Ok(()) => Ok(()),
            Err(error) => {
                self.around.pop();
                Err(error)
            }
        }
    }

    /// A token that closes a group, or none.
    fn close(&mut self, bracket: Bracket, token: Token) -> Result<(), AllocError>
        requires few { length self.old < 2 ^ 32 }
        requires opens { opens token.kind ≡ None }
        requires closes { closes token.kind ≡ Some (bracket_of bracket) }
        ensures added { OnOk result (self.new ≡ self.old ++ token ∷ []) }
        ensures failed { OnErr result (self.new ≡ self.old) }
    {
        let end = self.read.len() as u32;
        if !self.around.can_close(bracket) {
            self.unopened.push(UnopenedBracket { before: end, token })?;
            return Ok(());
        }
        add(&mut self.read, token)?;
        close_groups(&mut self.read, &mut self.around, bracket, end);
        Ok(())
    }

    /// A token that is no bracket.
    fn take(&mut self, token: Token) -> Result<(), AllocError>
        requires opens { opens token.kind ≡ None }
        requires closes { closes token.kind ≡ None }
        ensures added { OnOk result (self.new ≡ self.old ++ token ∷ []) }
        ensures failed { OnErr result (self.new ≡ self.old) }
    {
        add(&mut self.read, token)?;
        Ok(())
    }

    /// All tokens have come: groups that are still open end behind them. They take no more memory than they
    /// need.
    pub fn finish(self, alloc: Global) -> Result<Grouped, AllocError>
        requires { length self < 2 ^ 32 }
        ensures tokens { IfOk result (λ grouped. grouped.tokens ≡ self) }
        ensures faults { IfOk result (λ grouped. grouped.faults ≡ faults_of self) }
    {
        let Grouping {
            mut read,
            unopened,
            mut around,
        } = self;
        end_groups(&mut read, &mut around);
        drop(around);
        read.shrink_to_fit();
        let faults = faults(alloc, &read, &unopened)?;
        Ok(Grouped {
            tokens: Tokens::from_parts(read, unopened),
            faults: GroupFaults::from_vec(faults),
        })
    }
}
