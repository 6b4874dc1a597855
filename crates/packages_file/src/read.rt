//! Reads a packages file.

ghost use Rattle.std.specs.Prelude.{◌≡◌, IfOk, option_map};
ghost use Rattle.serde_json.specs.View.{view, items_view};
ghost use Rattle.proto_json.specs.Requests.{line_data};
ghost use Rattle.proto_json.specs.Parameters.{read_all};
ghost use Rattle.packages_file.specs.PackagesFile.{are_distinct, distinct_packages, folder_of, package_of, members_in, has_version, listed_in, packages_in, Reads};

use crate::members::{integer_of, list_of, optional_text_of, text_of};
use crate::refusal::PackagesRefusal;
use dart_uri::resolved;
use load_files::{Package, Packages};
use plain_text::PlainText;
use serde_json::Value;
use std::alloc::{AllocError, Global};
use std::collections::BTreeSet;

/// The folder of a package.
fn read_folder(
    alloc: Global,
    folder: &str,
    root_uri: &str,
    package_uri: Option<&str>,
) -> Result<Option<PlainText>, AllocError>
    ensures { IfOk result (λ read. read ≡ folder_of folder.now root_uri.now (option_map (λ uri. uri.now) package_uri.entry)) }
{
    let Some(root) = resolved(alloc, folder, root_uri)? else {
        return Ok(None);
    };
    let Some(package_uri) = package_uri else {
        return Ok(Some(root));
    };
    resolved(alloc, root.as_str(), package_uri)
}

/// A package of the list.
#[tactic(auto, unfolding(crate::specs::PackagesFile::package_of))]
fn read_package(alloc: Global, folder: &str, value: &Value) -> Result<Option<Package>, AllocError>
    ensures { IfOk result (λ read. read ≡ package_of folder.now (view value.now)) }
{
    let Some(name) = text_of(value, "name") else {
        return Ok(None);
    };
    let Some(root_uri) = text_of(value, "rootUri") else {
        return Ok(None);
    };
    let Some(package_uri) = optional_text_of(value, "packageUri") else {
        return Ok(None);
    };
    let Some(folder) = read_folder(alloc, folder, root_uri, package_uri)? else {
        return Ok(None);
    };
    let name = PlainText::new(alloc, name)?;
    Ok(Some(Package { name, folder }))
}

/// The packages of a list.
fn read_list(
    alloc: Global,
    folder: &str,
    list: &[Value],
) -> Result<Option<Vec<Package>>, AllocError>
    ensures { IfOk result (λ read. option_map (λ v. v.items) read ≡ read_all (package_of folder.now) (items_view list.now)) }
{
    let mut read = Vec::new(alloc);
    for value in list {
        let Some(package) = read_package(alloc, folder, value)? else {
            return Ok(None);
        };
        read.push(package)?;
    }
    Ok(Some(read))
}

/// Whether no two packages have the same name. It takes n log n steps for n of them.
fn are_distinct(alloc: Global, packages: &[Package]) -> Result<bool, AllocError>
    ensures { IfOk result (λ distinct. distinct ≡ are_distinct packages.now) }
{
    let mut names = BTreeSet::new(alloc);
    for index in (0..packages.len()).rev() {
        let name = packages[index].name.as_str();
        if !names.insert(name)? {
            return Ok(false);
        }
    }
    Ok(true)
}

/// Packages, if no two of them have the same name.
fn distinct_packages(alloc: Global, packages: Vec<Package>) -> Result<Option<Packages>, AllocError>
    ensures { IfOk result (λ distinct. distinct ≡ distinct_packages packages.items) }
{
    if !are_distinct(alloc, &packages)? {
        return Ok(None);
    }
    Ok(Some(Packages::from_vec(packages)))
}

/// The packages of the list of a JSON value.
fn read_members(
    alloc: Global,
    folder: &str,
    value: &Value,
) -> Result<Option<Vec<Package>>, AllocError>
    ensures { IfOk result (λ read. option_map (λ v. v.items) read ≡ members_in folder.now (view value.now)) }
{
    let Some(list) = list_of(value, "packages") else {
        return Ok(None);
    };
    read_list(alloc, folder, list)
}

/// Whether a JSON value says that it has the version of this format.
fn has_version(value: &Value) -> bool
    ensures { result ≡ has_version (view value.now) }
{
    match integer_of(value, "configVersion") {
        Some(version) => version == 2,
        None => false,
    }
}

/// The packages that a JSON value lists.
#[tactic(auto, unfolding(crate::specs::PackagesFile::listed_in))]
fn read_value(alloc: Global, folder: &str, value: &Value) -> Result<Option<Packages>, AllocError>
    ensures { IfOk result (λ read. read ≡ listed_in folder.now (view value.now)) }
{
    if !has_version(value) {
        return Ok(None);
    }
    match read_members(alloc, folder, value)? {
        Some(packages) => distinct_packages(alloc, packages),
        None => Ok(None),
    }
}

/// The JSON value that bytes are.
fn parse(alloc: Global, bytes: &[u8]) -> Result<Option<Value>, AllocError>
    ensures { IfOk result (λ value. option_map view value ≡ line_data bytes.now) }
{
    match Value::from_slice(alloc, bytes) {
        Ok(value) => Ok(Some(value)),
        Err(error) if error.is_memory() => Err(AllocError),
        Err(_) => Ok(None),
    }
}

/// The packages that the bytes of a packages file in this folder list, in its order; or a refusal
/// exactly where the bytes are no such file, name a package twice or give one no absolute path; or want
/// of memory.
pub fn read_packages(alloc: Global, folder: &str, bytes: &[u8]) -> Result<Packages, PackagesRefusal>
    ensures { Reads result (packages_in folder.now bytes.now) }
{
    let Some(value) = parse(alloc, bytes)? else {
        return Err(PackagesRefusal::Refused);
    };
    match read_value(alloc, folder, &value)? {
        Some(packages) => Ok(packages),
        None => Err(PackagesRefusal::Refused),
    }
}
