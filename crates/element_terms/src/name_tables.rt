//! Tables of the names that declarations have.

ghost use Rattle.std.specs.Prelude.{IfOk, OnOk, string_bytes};
ghost use Rattle.element_terms.specs.NameTables.{IsNameTable, PutsPlace, PutsPlaces};

use crate::declarations::Declared;
use crate::names::setter_of;
use std::alloc::{AllocError, Global};
use std::collections::BTreeMap;

/// The place of the first declaration that has each name.
pub(crate) fn name_table(
    alloc: Global,
    declared: &[Declared],
) -> Result<BTreeMap<String, usize>, AllocError>
    ensures { IfOk result (λ table. IsNameTable declared.now table) }
{
    let mut table = BTreeMap::new(alloc);
    for place in (0..declared.len()).rev() {
        put_declared(alloc, &declared[place], place, &mut table)?;
    }
    Ok(table)
}

/// Puts the place of a declaration under its names, where the table has those of the ones behind it.
fn put_declared(
    alloc: Global,
    declared: &Declared,
    place: usize,
    table: &mut BTreeMap<String, usize>,
) -> Result<(), AllocError>
    ensures { OnOk result (PutsPlaces declared.now place table.old table.new) }
{
    let name = declared.name.as_str();
    let own = String::from_str(alloc, name)?;
    put(own, place, table)?;
    if !declared.kind.has_setter() {
        return Ok(());
    }
    let setter = setter_of(alloc, name)?;
    put(setter, place, table)?;
    Ok(())
}

/// Puts a place under a name.
fn put(name: String, place: usize, table: &mut BTreeMap<String, usize>) -> Result<(), AllocError>
    ensures { OnOk result (PutsPlace (string_bytes name) place table.old table.new) }
{
    table.insert(name, place)?;
    Ok(())
}
