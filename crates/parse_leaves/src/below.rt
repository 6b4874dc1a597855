//! What is read where fewer nodes may lie on a way down.

ghost use Rattle.std.specs.Prelude.{◌≡◌, ◌≤◌, ℕ, IfOk};
ghost use Rattle.grammar.specs.Descents.{lower};
ghost use Rattle.parse_leaves.specs.Answers.{Gives, IsDeep};
ghost use Rattle.parse_leaves.specs.LastLevels.{AreLastLevels};

use crate::miss::Miss;
use dart_tree::{Block, Expr, Stmt, WrittenType};
use grammar::{Level, Setting, Token};
use std::alloc::Global;

/// What reads the parts of a node: so many nodes may lie on a way down from there as its room says.
///
/// Each method answers the tree that it reads, the height of the tree, and the tokens that are left.
pub trait Below<'k> {
    ghost room: { Self → ℕ };

    ghost sound: { Self → Type 0 };

    /// How many nodes may lie on a way down.
    fn room(&self) -> u32
        requires limit { room self.now ≤ 201 }
        requires sound { sound self.now }
        ensures { result ≡ room self.now };

    /// A type.
    fn written(
        &self,
        alloc: Global,
        tokens: &'k [Token],
    ) -> Result<(WrittenType, u32, &'k [Token]), Miss>
        requires limit { room self.now ≤ 201 }
        requires sound { sound self.now }
        ensures reading { Gives (λ x. (x.0, x.2.now)) result ((lower (room self.now)).written tokens.now) }
        ensures deep { IfOk result (λ x. IsDeep (room self.now) x.0 x.1) };

    /// A type behind `is` or `as`.
    fn tested(
        &self,
        alloc: Global,
        setting: Setting,
        tokens: &'k [Token],
    ) -> Result<(WrittenType, u32, &'k [Token]), Miss>
        requires limit { room self.now ≤ 201 }
        requires sound { sound self.now }
        ensures reading { Gives (λ x. (x.0, x.2.now)) result ((lower (room self.now)).tested setting tokens.now) }
        ensures deep { IfOk result (λ x. IsDeep (room self.now) x.0 x.1) };

    /// A type behind `new`.
    fn constructed(
        &self,
        alloc: Global,
        tokens: &'k [Token],
    ) -> Result<(WrittenType, u32, &'k [Token]), Miss>
        requires limit { room self.now ≤ 201 }
        requires sound { sound self.now }
        ensures reading { Gives (λ x. (x.0, x.2.now)) result ((lower (room self.now)).constructed tokens.now) }
        ensures deep { IfOk result (λ x. IsDeep (room self.now) x.0 x.1) };

    /// A type in front of a name.
    fn named(
        &self,
        alloc: Global,
        tokens: &'k [Token],
    ) -> Result<(WrittenType, u32, &'k [Token]), Miss>
        requires limit { room self.now ≤ 201 }
        requires sound { sound self.now }
        ensures reading { Gives (λ x. (x.0, x.2.now)) result ((lower (room self.now)).named tokens.now) }
        ensures deep { IfOk result (λ x. IsDeep (room self.now) x.0 x.1) };

    /// An expression.
    fn expression(
        &self,
        alloc: Global,
        setting: Setting,
        tokens: &'k [Token],
    ) -> Result<(Expr, u32, &'k [Token]), Miss>
        requires limit { room self.now ≤ 201 }
        requires sound { sound self.now }
        ensures reading { Gives (λ x. (x.0, x.2.now)) result ((lower (room self.now)).expression setting tokens.now) }
        ensures deep { IfOk result (λ x. IsDeep (room self.now) x.0 x.1) };

    /// An operand of the last levels of the table.
    fn operand(
        &self,
        alloc: Global,
        setting: Setting,
        above: &[Level],
        tokens: &'k [Token],
    ) -> Result<(Expr, u32, &'k [Token]), Miss>
        requires limit { room self.now ≤ 201 }
        requires sound { sound self.now }
        requires last { AreLastLevels above.now }
        ensures reading { Gives (λ x. (x.0, x.2.now)) result ((lower (room self.now)).operand setting above.now tokens.now) }
        ensures deep { IfOk result (λ x. IsDeep (room self.now) x.0 x.1) };

    /// An operand of all levels.
    fn unary(
        &self,
        alloc: Global,
        setting: Setting,
        tokens: &'k [Token],
    ) -> Result<(Expr, u32, &'k [Token]), Miss>
        requires limit { room self.now ≤ 201 }
        requires sound { sound self.now }
        ensures reading { Gives (λ x. (x.0, x.2.now)) result ((lower (room self.now)).unary setting tokens.now) }
        ensures deep { IfOk result (λ x. IsDeep (room self.now) x.0 x.1) };

    /// What stands behind `..`.
    fn section(
        &self,
        alloc: Global,
        setting: Setting,
        tokens: &'k [Token],
    ) -> Result<(Expr, u32, &'k [Token]), Miss>
        requires limit { room self.now ≤ 201 }
        requires sound { sound self.now }
        ensures reading { Gives (λ x. (x.0, x.2.now)) result ((lower (room self.now)).section setting tokens.now) }
        ensures deep { IfOk result (λ x. IsDeep (room self.now) x.0 x.1) };

    /// What stands behind the `$` of a string.
    fn simple(&self, alloc: Global, tokens: &'k [Token]) -> Result<(Expr, u32, &'k [Token]), Miss>
        requires limit { room self.now ≤ 201 }
        requires sound { sound self.now }
        ensures reading { Gives (λ x. (x.0, x.2.now)) result ((lower (room self.now)).simple tokens.now) }
        ensures deep { IfOk result (λ x. IsDeep (room self.now) x.0 x.1) };

    /// A block.
    fn block(&self, alloc: Global, tokens: &'k [Token]) -> Result<(Block, u32, &'k [Token]), Miss>
        requires limit { room self.now ≤ 201 }
        requires sound { sound self.now }
        ensures reading { Gives (λ x. (x.0, x.2.now)) result ((lower (room self.now)).block tokens.now) }
        ensures deep { IfOk result (λ x. IsDeep (room self.now) x.0 x.1) };

    /// A statement.
    fn statement(
        &self,
        alloc: Global,
        tokens: &'k [Token],
    ) -> Result<(Stmt, u32, &'k [Token]), Miss>
        requires limit { room self.now ≤ 201 }
        requires sound { sound self.now }
        ensures reading { Gives (λ x. (x.0, x.2.now)) result ((lower (room self.now)).statement tokens.now) }
        ensures deep { IfOk result (λ x. IsDeep (room self.now) x.0 x.1) };
}
