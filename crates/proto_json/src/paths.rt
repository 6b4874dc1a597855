//! Lists of paths.

ghost use Rattle.std.specs.Prelude.{◌≡◌};

use plain_text::PlainText;
use std::marker::Model;

/// Paths in the order in which a request lists them.
#[derive(Debug, Drop)]
pub struct Paths {
    paths: Vec<PlainText>,
}

impl Model for Paths {
    ghost use Rattle.std.specs.Prelude.{ℕ, List};

    ghost Value = { List (List ℕ) };

    ghost view = { λ paths. paths.paths.items };
}

impl Paths {
    /// The paths that the vector holds, which takes no memory.
    pub fn from_vec(paths: Vec<PlainText>) -> Paths
        ensures { result ≡ paths.items }
    {
        Paths { paths }
    }

    /// The paths themselves.
    pub fn as_slice(&self) -> &[PlainText]
        ensures { result.now ≡ self.now }
    {
        self.paths.as_slice()
    }
}
