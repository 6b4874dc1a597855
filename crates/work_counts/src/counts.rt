//! Counts of work.

ghost use Rattle.std.specs.Prelude.{◌≡◌};
ghost use Rattle.work_counts.specs.Counts.{NoLess, none_done, raised};

use crate::kind::WorkKind;
use std::marker::Model;

/// How much was done. Each count goes from 0 to 2^64 - 1, where it stays.
#[derive(Drop)]
pub struct Work {
    parses: u64,
    links: u64,
    checks: u64,
}

impl Model for Work {
    ghost use Rattle.work_counts.specs.Counts.{Counts};

    ghost Value = { Counts };

    ghost view = { λ w. record { parses = w.parses; links = w.links; checks = w.checks } };
}

impl Work {
    /// Nothing was done yet.
    pub fn new() -> Work
        ensures { result ≡ none_done }
    {
        Work {
            parses: 0,
            links: 0,
            checks: 0,
        }
    }

    /// How many texts were parsed.
    pub fn parses(&self) -> u64
        ensures { result ≡ self.now.parses }
    {
        self.parses
    }

    /// How many cycles of libraries were linked.
    pub fn links(&self) -> u64
        ensures { result ≡ self.now.links }
    {
        self.links
    }

    /// How many libraries were checked.
    pub fn checks(&self) -> u64
        ensures { result ≡ self.now.checks }
    {
        self.checks
    }

    /// One piece of work more.
    pub fn raise(&mut self, kind: WorkKind)
        ensures raised { self.new ≡ raised kind self.old }
        ensures no_less { NoLess self.old self.new }
    {
        match kind {
            WorkKind::Parse => self.parses = self.parses.saturating_add(1),
            WorkKind::Link => self.links = self.links.saturating_add(1),
            WorkKind::Check => self.checks = self.checks.saturating_add(1),
        }
    }
}
