//! Laws of snapshots, over their definitions alone.

ghost use Rattle.std.specs.Prelude.{◌≡◌, length, IsTrue, List, IfOk};
ghost use Rattle.fault_io.specs.Stored.{Stored, are_files};
ghost use Rattle.load_files.specs.Belonging.{are_paths, HasTheFiles};
ghost use Rattle.load_files.specs.Contents.{contents_of, size_of};
ghost use Rattle.load_files.specs.Loads.{loaded};
ghost use Rattle.load_files.specs.declared.kept.KeptFile.{KeptFile};

use crate::roots::Roots;

/// Where no limit is passed, a snapshot has exactly the files of the store whose paths end in
/// `.dart`, are or lie under an included path or the folder of a package, and neither are nor lie
/// under an excluded path: each with its bytes.
pub fn snapshot_has_the_files_of_the_roots(_roots: &Roots)
    ensures { (stored : Stored) (kept : List KeptFile) → IsTrue (are_files stored) → IsTrue (are_paths _roots.now)
        → IfOk (loaded stored _roots.now kept) (HasTheFiles stored _roots.now) }
{}

/// What bytes are has the count of the bytes.
pub fn bytes_keep_their_count(_bytes: &[u8])
    ensures { size_of (contents_of _bytes.now) ≡ length _bytes.now }
{}
