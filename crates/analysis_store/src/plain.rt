//! The checker that keeps nothing.

ghost use Rattle.std.specs.Prelude.{◌≡◌, [], None};
ghost use Rattle.protocol_rules.specs.Files.{analyzed_count};
ghost use Rattle.protocol_rules.specs.State.{at_start};

use crate::linked::{faults_of, link_contents};
use load_files::Packages;
use protocol_rules::{Contents, analyzed_count};
use request_core::{Checker, Faults};
use std::alloc::{AllocError, Global};
use work_counts::{Work, WorkKind};

/// The checker that keeps nothing but the contents: it reads and links all files anew whenever it is
/// asked.
#[derive(Drop)]
pub struct Plain {
    contents: Contents,
}

impl Plain {
    /// A checker that holds no file.
    pub fn new(alloc: Global) -> Plain
        ensures { result.contents ≡ at_start [] }
    {
        let packages = Packages::from_vec(Vec::new(alloc));
        Plain {
            contents: Contents::new(alloc, packages),
        }
    }
}

impl Checker for Plain {
    ghost holds = { λ p. p.contents };

    ghost kept = { λ p. None };

    // all of them: it doesn't keep for which it has answered
    ghost due = { λ p. analyzed_count p.contents };

    fn set_contents(&mut self, _alloc: Global, contents: &Contents) -> Result<(), AllocError> {
        self.contents = contents.copy()?;
        Ok(())
    }

    #[tactic(auto, using(work_counts::specs::Counts::no_less_same, work_counts::specs::Counts::no_less_after))]
    fn errors_of(
        &mut self,
        alloc: Global,
        path: &str,
        work: &mut Work,
    ) -> Result<Faults, AllocError> {
        let linked = link_contents(alloc, &self.contents)?;
        let faults = faults_of(alloc, &self.contents, &linked, path)?;
        work.raise(WorkKind::Parse);
        work.raise(WorkKind::Link);
        work.raise(WorkKind::Check);
        Ok(faults)
    }

    fn work(&self) -> u64 {
        analyzed_count(&self.contents) as u64
    }
}
