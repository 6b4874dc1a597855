//! Which tokens of a text lie in too many groups.

ghost use Rattle.std.specs.Prelude.{◌≡◌, ◌<◌, ◌^◌, ◌∷◌, [], IfOk, MatchOption, OnOk, length};
ghost use Rattle.segment_faults.specs.Ends.{ahead, farthest, inserted, nearest};
ghost use Rattle.segment_faults.specs.Nesting.{AreDeep};

use grammar::Token;
use std::alloc::{AllocError, Global};
use std::marker::Model;

/// A token that lies in more groups than these lies in too many.
const MOST: usize = 100;

/// The places of the last tokens of groups: of those that reach farthest, one more than `MOST`.
#[derive(Debug, Drop)]
struct FarEnds {
    /// The nearest is the last.
    ends: Vec<usize>,
}

impl Model for FarEnds {
    ghost use Rattle.std.specs.Prelude.{ℕ, List, reverse};

    ghost Value = { List ℕ };

    ghost view = { λ a. reverse a.ends.items };
}

impl FarEnds {
    fn new(alloc: Global) -> FarEnds
        ensures { result ≡ [] }
    {
        FarEnds {
            ends: Vec::new(alloc),
        }
    }

    fn len(&self) -> usize
        ensures { result ≡ length self.now }
    {
        self.ends.len()
    }

    fn nearest(&self) -> Option<usize>
        ensures { result ≡ nearest self.now }
    {
        self.ends.last().copied()
    }

    fn push(&mut self, end: usize) -> Result<(), AllocError>
        ensures { OnOk result (self.new ≡ end ∷ self.old) }
    {
        self.ends.push(end)?;
        Ok(())
    }

    fn pop(&mut self) -> Option<usize>
        ensures { MatchOption result ((self.old ≡ []) × (self.new ≡ [])) (λ end. self.old ≡ end ∷ self.new) }
    {
        self.ends.pop()
    }

    /// The groups that end before a place are behind.
    fn pass(&mut self, place: usize)
        ensures { self.new ≡ ahead place self.old }
    {
        while let Some(end) = self.nearest() {
            if end >= place {
                return;
            }
            self.pop();
        }
    }

    /// One end more, in its order.
    fn insert(&mut self, end: usize) -> Result<(), AllocError>
        ensures { OnOk result (self.new ≡ inserted end self.old) }
    {
        let Some(nearest) = self.pop() else {
            return self.push(end);
        };
        if nearest < end {
            self.insert(end)?;
            return self.push(nearest);
        }
        self.push(nearest)?;
        self.push(end)
    }

    /// A group more. The one that ends first goes where there are too many.
    fn add(&mut self, end: usize) -> Result<(), AllocError>
        ensures { OnOk result (self.new ≡ farthest (inserted end self.old)) }
    {
        self.insert(end)?;
        if self.len() > MOST + 1 {
            self.pop();
        }
        Ok(())
    }
}

/// For each token of a text whether it lies in more than 100 of its groups.
pub fn deep_tokens(alloc: Global, tokens: &[Token]) -> Result<Vec<bool>, AllocError>
    requires few { length tokens.now < 2 ^ 32 }
    ensures { IfOk result (λ deep. AreDeep tokens.now deep.items) }
{
    let mut deep = Vec::with_capacity(alloc, tokens.len())?;
    let mut around = FarEnds::new(alloc);
    for (place, token) in tokens.iter().enumerate() {
        around.pass(place);
        deep.push(around.len() > MOST)?;
        if token.width > 0 {
            around.add(place + token.width as usize)?;
        }
    }
    Ok(deep)
}
