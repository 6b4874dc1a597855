//! The diagnostics of one file among linked files.

ghost use Rattle.std.specs.Prelude.{◌≡◌, IfOk};
ghost use Rattle.check_files.specs.Links.{AreLinked};
ghost use Rattle.protocol_rules.specs.Files.{AreDiagnosticsOf, files_of};

use check_files::{Linked, faults_at, link, place_in};
use protocol_rules::Contents;
use request_core::Faults;
use std::alloc::{AllocError, Global};

/// The files of contents, linked.
pub fn link_contents(alloc: Global, contents: &Contents) -> Result<Linked, AllocError>
    ensures { IfOk result (AreLinked contents.now.roots.packages (files_of contents.now)) }
{
    let files = contents.files(alloc)?;
    link(alloc, &contents.roots().packages, files.as_slice())
}

/// The diagnostics of a path, over linked files of the contents.
pub fn faults_of(
    alloc: Global,
    contents: &Contents,
    linked: &Linked,
    path: &str,
) -> Result<Faults, AllocError>
    requires { AreLinked contents.now.roots.packages (files_of contents.now) linked.now }
    ensures { IfOk result (λ faults. AreDiagnosticsOf contents.now path.now faults) }
{
    let Some(lent) = contents.current(path) else {
        return Ok(Faults::from_vec(Vec::new(alloc)));
    };
    let files = contents.files(alloc)?;
    let faults = match place_in(files.as_slice(), path) {
        Some(place) => faults_at(alloc, linked, lent, place)?,
        None => Vec::new(alloc),
    };
    Ok(Faults::from_vec(faults))
}
