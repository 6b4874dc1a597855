//! Laws of references, over their definitions alone.

ghost use Rattle.std.specs.Prelude.{IfSome, IsTrue};
ghost use Rattle.fault_io.specs.Paths.{is_path};
ghost use Rattle.dart_uri.specs.References.{resolved};

/// What a reference names is an absolute and normalized path.
pub fn resolved_is_a_path(_folder: &str, _reference: &str)
    ensures { IfSome (resolved _folder.now _reference.now) (λ path. IsTrue (is_path path)) }
{}
