//! The packages file: which packages there are, and where their libraries stand.
//!
//! `packages_in` in `specs/PackagesFile.antt` states the packages that the bytes of such a file list,
//! and `read_packages` gives exactly these or refuses; `packages_at` reads the file from a store and
//! gives those of `specs/Stored.antt`. The crate stands on `serde_json`, on the words of `proto_json`
//! for members of JSON objects, and on `dart_uri` for the paths.
#![tactic(auto)]

mod members;
mod read;
mod refusal;
mod stored;

pub use read::read_packages;
pub use refusal::PackagesRefusal;
pub use stored::packages_at;
