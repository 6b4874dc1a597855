//! What the files of a session's roots contain, read from a store of files.
//!
//! `snapshot` reads the included paths and the package folders, folder by folder, and gives the
//! files whose names end in `.dart`. `all_visits` in `specs/Visits.antt` states what a walk meets, in
//! order, and `loaded` in `specs/Loads.antt` what the files come to: the first limit that is passed
//! refuses them. Above both a law says in its own words which files a snapshot has. A `Snapshot` is
//! sorted by path; its copies share the files. The crate stands on `fault_io` and `dart_text`, and
//! knows no requests.
#![tactic(auto)]

mod contents;
mod file;
mod kept;
mod laws;
mod loading;
mod packages;
mod refusal;
mod roots;
mod table;
mod walk;

pub use contents::FileContents;
pub use file::SnapshotFile;
pub use kept::{KeptFile, are_kept};
pub use laws::{bytes_keep_their_count, snapshot_has_the_files_of_the_roots};
pub use loading::{MAX_BYTES, MAX_PATHS};
pub use packages::{Package, Packages};
pub use refusal::LoadRefusal;
pub use roots::{Paths, Roots};
pub use table::Snapshot;
pub use walk::{MAX_DEPTH, snapshot};
