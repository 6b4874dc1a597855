//! Readers: what reads the parts of a node is what reads a whole node, with room for one node less.

ghost use Rattle.std.specs.Prelude.{◌≡◌, ◌≤◌, IfOk};
ghost use Rattle.grammar.specs.Descents.{lower};
ghost use Rattle.parse_leaves.specs.Answers.{Gives, IsDeep};
ghost use Rattle.parse_expr.specs.Parts.{last_levels, tree_of, reads, IsFormOf};

use crate::part::{Node, Part};
use dart_tree::{Block, Expr, Stmt, WrittenType};
use grammar::{Level, Setting, Token};
use parse_leaves::{Below, Miss};
use std::alloc::Global;

/// Reads by a function, where so many nodes may lie on a way down.
#[derive(Drop)]
pub struct Reader<F: Drop> {
    /// Reads a part.
    pub read: F,
    /// How many nodes may lie on a way down.
    pub room: u32,
}

/// An operand of the last so many levels of operators.
fn counted_operand<'k, F: Fn(Part, &'k [Token]) -> Result<(Node, u32, &'k [Token]), Miss> + Drop>(
    reader: &Reader<F>,
    setting: Setting,
    levels: usize,
    tokens: &'k [Token],
) -> Result<(Expr, u32, &'k [Token]), Miss>
    requires sound { ((p ts : _) → F.pre reader.now.read p ts) × ((p ts r : _) → F.post reader.now.read p ts r → Gives (λ x. (tree_of x.0, x.2.now)) r (reads (lower reader.now.room) p ts.now) × (IfOk r (λ x. IsFormOf p x.0) × IfOk r (λ x. IsDeep reader.now.room (tree_of x.0) x.1))) }
    ensures reading { Gives (λ x. (x.0, x.2.now)) result ((lower reader.now.room).operand setting (last_levels levels) tokens.now) }
    ensures deep { IfOk result (λ x. IsDeep reader.now.room x.0 x.1) }
{
    let (node, height, rest) = (reader.read)(Part::Operand(setting, levels), tokens)?;
    match node {
        Node::Expr(found) => Ok((found, height, rest)),
        _ => Err(Miss::NoReading),
    }
}

impl<'k, F: Fn(Part, &'k [Token]) -> Result<(Node, u32, &'k [Token]), Miss> + Drop> Below<'k>
    for Reader<F> {
    ghost room = { λ s. s.room };

    ghost sound = { λ s. ((p ts : _) → F.pre s.read p ts) × ((p ts r : _) → F.post s.read p ts r → Gives (λ x. (tree_of x.0, x.2.now)) r (reads (lower s.room) p ts.now) × (IfOk r (λ x. IsFormOf p x.0) × IfOk r (λ x. IsDeep s.room (tree_of x.0) x.1))) };

    fn room(&self) -> u32 {
        self.room
    }

    fn written(
        &self,
        _alloc: Global,
        tokens: &'k [Token],
    ) -> Result<(WrittenType, u32, &'k [Token]), Miss> {
        let (node, height, rest) = (self.read)(Part::Written, tokens)?;
        match node {
            Node::Type(found) => Ok((found, height, rest)),
            _ => Err(Miss::NoReading),
        }
    }

    fn tested(
        &self,
        _alloc: Global,
        setting: Setting,
        tokens: &'k [Token],
    ) -> Result<(WrittenType, u32, &'k [Token]), Miss> {
        let (node, height, rest) = (self.read)(Part::Tested(setting), tokens)?;
        match node {
            Node::Type(found) => Ok((found, height, rest)),
            _ => Err(Miss::NoReading),
        }
    }

    fn constructed(
        &self,
        _alloc: Global,
        tokens: &'k [Token],
    ) -> Result<(WrittenType, u32, &'k [Token]), Miss> {
        let (node, height, rest) = (self.read)(Part::Constructed, tokens)?;
        match node {
            Node::Type(found) => Ok((found, height, rest)),
            _ => Err(Miss::NoReading),
        }
    }

    fn named(
        &self,
        _alloc: Global,
        tokens: &'k [Token],
    ) -> Result<(WrittenType, u32, &'k [Token]), Miss> {
        let (node, height, rest) = (self.read)(Part::Named, tokens)?;
        match node {
            Node::Type(found) => Ok((found, height, rest)),
            _ => Err(Miss::NoReading),
        }
    }

    fn expression(
        &self,
        _alloc: Global,
        setting: Setting,
        tokens: &'k [Token],
    ) -> Result<(Expr, u32, &'k [Token]), Miss> {
        let (node, height, rest) = (self.read)(Part::Expression(setting), tokens)?;
        match node {
            Node::Expr(found) => Ok((found, height, rest)),
            _ => Err(Miss::NoReading),
        }
    }

    #[tactic(auto, using(crate::proofs::Levels::gives_counted))]
    fn operand(
        &self,
        _alloc: Global,
        setting: Setting,
        above: &[Level],
        tokens: &'k [Token],
    ) -> Result<(Expr, u32, &'k [Token]), Miss> {
        counted_operand(self, setting, above.len(), tokens)
    }

    fn unary(
        &self,
        _alloc: Global,
        setting: Setting,
        tokens: &'k [Token],
    ) -> Result<(Expr, u32, &'k [Token]), Miss> {
        let (node, height, rest) = (self.read)(Part::Unary(setting), tokens)?;
        match node {
            Node::Expr(found) => Ok((found, height, rest)),
            _ => Err(Miss::NoReading),
        }
    }

    fn section(
        &self,
        _alloc: Global,
        setting: Setting,
        tokens: &'k [Token],
    ) -> Result<(Expr, u32, &'k [Token]), Miss> {
        let (node, height, rest) = (self.read)(Part::Section(setting), tokens)?;
        match node {
            Node::Expr(found) => Ok((found, height, rest)),
            _ => Err(Miss::NoReading),
        }
    }

    fn simple(
        &self,
        _alloc: Global,
        tokens: &'k [Token],
    ) -> Result<(Expr, u32, &'k [Token]), Miss> {
        let (node, height, rest) = (self.read)(Part::Simple, tokens)?;
        match node {
            Node::Expr(found) => Ok((found, height, rest)),
            _ => Err(Miss::NoReading),
        }
    }

    fn block(
        &self,
        _alloc: Global,
        tokens: &'k [Token],
    ) -> Result<(Block, u32, &'k [Token]), Miss> {
        let (node, height, rest) = (self.read)(Part::Block, tokens)?;
        match node {
            Node::Block(found) => Ok((found, height, rest)),
            _ => Err(Miss::NoReading),
        }
    }

    fn statement(
        &self,
        _alloc: Global,
        tokens: &'k [Token],
    ) -> Result<(Stmt, u32, &'k [Token]), Miss> {
        let (node, height, rest) = (self.read)(Part::Statement, tokens)?;
        match node {
            Node::Stmt(found) => Ok((found, height, rest)),
            _ => Err(Miss::NoReading),
        }
    }
}
