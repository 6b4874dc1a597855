//! Laws of what is wrong with libraries, over their definitions alone. `specs/AmbiguousLemmas.antt` has
//! those of ambiguous exports for proofs.

ghost use Rattle.libraries.specs.Laws.{DuplicatesAreSecond, FewAreNotAmbiguous, OrderIsNoMatter, PathsAreThoseOfFiles};

/// A declaration takes a name that is taken exactly where an import has a prefix of its name, or where a
/// declaration before it takes one of its names.
pub fn duplicates_are_second_declarations()
    ensures { DuplicatesAreSecond }
{}

/// Where no two files have one path, the place of a path is that of its file.
pub fn paths_are_those_of_files()
    ensures { PathsAreThoseOfFiles }
{}

/// Any two lists of pairs that are what the libraries export give the same ambiguous exports.
pub fn the_order_of_names_is_no_matter()
    ensures { OrderIsNoMatter }
{}

/// A library with fewer than two exports has none that is ambiguous, whatever libraries export.
pub fn few_exports_are_not_ambiguous()
    ensures { FewAreNotAmbiguous }
{}
