//! Laws of what is built.

ghost use Rattle.built_forms.specs.Laws.{BodiesAreBuilt, BodiesAreBlocks};

/// The body of a function `main` that is built is a block, and all that it holds is built.
pub fn built_bodies_are_blocks()
    ensures built { BodiesAreBuilt }
    ensures blocks { BodiesAreBlocks }
{}
