//! The roots of a session.

ghost use Rattle.std.specs.Prelude.{◌≡◌, IfOk};
ghost use Rattle.std.specs.List.{list_any};
ghost use Rattle.load_files.specs.Paths.{lies_in, is_excluded};

use crate::packages::Packages;
use fault_io::is_under;
use plain_text::PlainText;
use std::alloc::AllocError;
use std::marker::Model;

/// Paths, in the order in which they are listed.
#[derive(Debug, Drop)]
pub struct Paths {
    paths: Vec<PlainText>,
}

impl Model for Paths {
    ghost use Rattle.std.specs.Prelude.{ℕ, List};

    ghost Value = { List (List ℕ) };

    ghost view = { λ p. p.paths.items };
}

impl Paths {
    /// The paths that the vector holds, which takes no memory.
    pub fn from_vec(paths: Vec<PlainText>) -> Paths
        ensures { result ≡ paths.items }
    {
        Paths { paths }
    }

    /// The paths themselves.
    pub fn as_slice(&self) -> &[PlainText]
        ensures { result.now ≡ self.now }
    {
        self.paths.as_slice()
    }

    /// Equal paths with memory of their own.
    pub fn copy(&self) -> Result<Paths, AllocError>
        ensures { IfOk result (λ copied. copied ≡ self.now) }
    {
        let mut paths = Vec::new(*self.paths.allocator());
        for path in &self.paths {
            paths.push(path.copy()?)?;
        }
        Ok(Paths { paths })
    }
}

/// Where the files of a session stand, as absolute and normalized paths. Files are read of the
/// included paths and of the folders of the packages, and none that is or lies under an excluded path.
#[derive(Debug, Drop)]
pub struct Roots {
    /// Folders, and files, of which errors may be asked.
    pub included: Paths,
    /// What is left out, of the packages too.
    pub excluded: Paths,
    /// The packages, with their folders.
    pub packages: Packages,
}

impl Roots {
    /// Equal roots with memory of their own.
    pub fn copy(&self) -> Result<Roots, AllocError>
        ensures { IfOk result (λ copied. copied ≡ self.now) }
    {
        let included = self.included.copy()?;
        let excluded = self.excluded.copy()?;
        let packages = self.packages.copy()?;
        Ok(Roots {
            included,
            excluded,
            packages,
        })
    }
}

/// Whether a path is a root or lies under it.
fn lies_in(root: &str, path: &str) -> bool
    ensures { result ≡ lies_in root.now path.now }
{
    path == root || is_under(root, path)
}

/// Whether a path is or lies under one of these.
pub(crate) fn is_excluded(excluded: &[PlainText], path: &str) -> bool
    ensures { result ≡ is_excluded excluded.now path.now }
{
    excluded.iter().any(|root| lies_in(root.as_str(), path))
}
