//! The paths of libraries.

ghost use Rattle.std.specs.Prelude.{◌≡◌};
ghost use Rattle.load_files.specs.Paths.{is_library};

/// Whether a path is that of a library: it ends in `.dart`.
pub fn is_library(path: &str) -> bool
    ensures { result ≡ is_library path.now }
{
    path.ends_with(".dart")
}
