//! Laws of ambiguous exports, over their definitions alone. `specs/AmbiguityLemmas.antt` has them for
//! proofs.

ghost use Rattle.namespaces.specs.Laws.{AmbiguousExportsAreTold, FirstIsNotAmbiguous, OrderIsNoMatter};

/// Where pairs are what libraries export, an export is told to be ambiguous exactly where it brings an
/// element under a name under which an export before it brings another.
pub fn ambiguous_exports_are_told()
    ensures { AmbiguousExportsAreTold }
{}

/// Any two lists of pairs that are what libraries export tell the same of each export.
pub fn the_order_of_pairs_is_no_matter()
    ensures { OrderIsNoMatter }
{}

/// The first export of a library isn't ambiguous, whatever libraries export.
pub fn the_first_export_is_not_ambiguous()
    ensures { FirstIsNotAmbiguous }
{}
