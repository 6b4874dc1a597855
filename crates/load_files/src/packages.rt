//! Packages and their folders.

ghost use Rattle.std.specs.Prelude.{◌≡◌, IfOk};

use plain_text::PlainText;
use std::alloc::{AllocError, Global};
use std::marker::Model;

/// A package.
#[derive(Debug, Drop)]
pub struct Package {
    /// The name that stands in `package:` URIs.
    pub name: PlainText,
    /// The folder in which its libraries stand, as an absolute and normalized path.
    pub folder: PlainText,
}

impl Package {
    /// An equal package with memory of its own.
    pub fn copy(&self) -> Result<Package, AllocError>
        ensures { IfOk result (λ copied. copied ≡ self.now) }
    {
        let name = self.name.copy()?;
        let folder = self.folder.copy()?;
        Ok(Package { name, folder })
    }
}

/// Packages, in the order in which they are listed.
#[derive(Debug, Drop)]
pub struct Packages {
    packages: Vec<Package>,
}

impl Model for Packages {
    ghost use Rattle.std.specs.Prelude.{List};
    ghost use Rattle.load_files.specs.declared.packages.Package.{Package};

    ghost Value = { List Package };

    ghost view = { λ p. p.packages.items };
}

impl Packages {
    /// The packages that the vector holds, which takes no memory.
    pub fn from_vec(packages: Vec<Package>) -> Packages
        ensures { result ≡ packages.items }
    {
        Packages { packages }
    }

    /// The packages themselves.
    pub fn as_slice(&self) -> &[Package]
        ensures { result.now ≡ self.now }
    {
        self.packages.as_slice()
    }

    /// Equal packages with memory of their own.
    pub fn copy(&self) -> Result<Packages, AllocError>
        ensures { IfOk result (λ copied. copied ≡ self.now) }
    {
        let mut packages = Vec::new(*self.packages.allocator());
        for package in &self.packages {
            packages.push(package.copy()?)?;
        }
        Ok(Packages { packages })
    }
}
