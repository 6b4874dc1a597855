//! The packages file of a store.

ghost use Rattle.std.specs.Prelude.{◌≡◌, ℕ, List, Option, Err, IfOk, OnOk, option_map};
ghost use Rattle.std.specs.Option.{ForSome};
ghost use Rattle.fault_io.specs.Faults.{Rose, one_more};
ghost use Rattle.fault_io.specs.Stored.{bytes_at};
ghost use Rattle.packages_file.specs.Stored.{limited_in, listed_at, packages_at};

use crate::read::read_packages;
use crate::refusal::PackagesRefusal;
use dart_uri::resolved;
use fault_io::{Files, FilesRefusal};
use load_files::{MAX_BYTES, Packages};
use std::alloc::{AllocError, Global};

/// The packages that bytes in a folder list; nothing where they are refused, or more than all texts
/// may have together.
fn limited_in(alloc: Global, folder: &str, bytes: &[u8]) -> Result<Option<Packages>, AllocError>
    ensures { IfOk result (λ listed. listed ≡ limited_in folder.now bytes.now) }
{
    if bytes.len() as u64 > MAX_BYTES {
        return Ok(None);
    }
    match read_packages(alloc, folder, bytes) {
        Ok(packages) => Ok(Some(packages)),
        Err(PackagesRefusal::Refused) => Ok(None),
        Err(PackagesRefusal::Memory) => Err(AllocError),
    }
}

/// The packages that the bytes of the file at this path list.
fn listed_at(alloc: Global, file: &str, bytes: &[u8]) -> Result<Option<Packages>, AllocError>
    ensures { IfOk result (λ listed. listed ≡ listed_at file.now bytes.now) }
{
    let Some(folder) = resolved(alloc, file, "..")? else {
        return Ok(None);
    };
    limited_in(alloc, folder.as_str(), bytes)
}

/// The packages of the packages file at this path, for which the store is asked once; nothing where
/// the file is refused, as one that is absent is.
pub fn packages_at<F: Files>(
    alloc: Global,
    files: &mut F,
    file: &str,
) -> Result<Option<Packages>, FilesRefusal>
    ensures listed { IfOk result (λ listed. (bytes : Option (List ℕ))
        × ForSome (F.told files.old) (λ stored. bytes ≡ bytes_at stored file.now) × (listed ≡ packages_at file.now bytes)) }
    ensures told { F.told files.new ≡ F.told files.old }
    ensures ok { OnOk result (F.faults files.new ≡ F.faults files.old) }
    ensures failed { result ≡ Err FilesRefusal.Failed → Rose (F.faults files.old) (F.faults files.new) }
    ensures memory { result ≡ Err FilesRefusal.Memory → F.faults files.new ≡ F.faults files.old }
    ensures read_once { F.reads files.new ≡ one_more (F.reads files.old) }
    ensures not_listed { F.lists files.new ≡ F.lists files.old }
{
    let Some(bytes) = files.read(alloc, file)? else {
        return Ok(None);
    };
    let listed = listed_at(alloc, file, bytes.as_slice())?;
    Ok(listed)
}
