//! The rows of classes and type variables.

ghost use Rattle.std.specs.Prelude.{◌≡◌, ◌↔◌, [], None, map, filter, IfOk, IsTrue, MatchOption};
ghost use Rattle.std.specs.Option.{option_copied};
ghost use Rattle.dart_types.specs.Tables.{Table, class_of, bound_of};
ghost use Rattle.dart_types.specs.Kept.{forms_too_large};
ghost use Rattle.dart_types.specs.Entries.{IsEntry};
ghost use Rattle.dart_types.specs.Libraries.{table_in};
ghost use Rattle.dart_types.specs.Others.{AreOthers};
ghost use Rattle.dart_types.specs.WellFormed.{IsWellFormed};
ghost use Rattle.dart_types.specs.Superinterfaces.{AreSuperinterfaces};
ghost use Rattle.dart_types.specs.FormedProp.{IsWellFormed-prop};
ghost use Rattle.dart_types.specs.Unions.{IsFormedOver, IsUnion, IsView, AreViewsOfOne, HasClassOf, HasVarOf};

use crate::class_libraries::{
    SharedClasses, classes_by_library, copy_classes, find_classes, put_all_classes,
};
use crate::class_rows::{ClassRow, VarRow};
use crate::entries::{ClassEntry, entries_of, find_bound, find_entry};
use crate::filling::fill_all;
use crate::ids::{ClassId, LibId, VarId};
use crate::superinterfaces::Superinterface;
use crate::too_large::{ids_of, too_large_among};
use crate::types::DartType;
use crate::var_libraries::{SharedVars, copy_vars, find_vars, put_all_vars, vars_by_library};
use std::alloc::{AllocError, Global};
use std::marker::Model;

/// Well-formed rows of classes and type variables, in the order of their ids. Those of each library are
/// shared, so a copy or a union costs two pointers a library. One is found by a binary search of its
/// library and then at the place that its index names there; only where other rows of the library are left
/// out, so that it doesn't stand there, by a binary search in the library too. Beside its row a class keeps
/// its superinterfaces, so that they aren't looked for along the ways that lead up to them.
///
/// Contracts see the rows together with the proof that they are well formed.
#[derive(Drop)]
pub struct Rows {
    classes: Vec<SharedClasses>,
    vars: Vec<SharedVars>,
    ghost formed: { IsWellFormed (table_in classes.items vars.items) } by { IsWellFormed-prop (table_in classes.items vars.items) },
}

/// Rows with own ones put over them.
#[derive(Drop)]
pub struct ExtendedRows {
    /// All rows.
    pub rows: Rows,
    /// The own classes that form a superinterface that is too large, in the order of their ids: one that
    /// they have as direct supertype, or that the class of one keeps, with the arguments put in. It is left
    /// out.
    pub too_large: Vec<ClassId>,
}

impl Model for Rows {
    ghost use Rattle.dart_types.specs.FormedTable.{FormedTable, formed_table_code};

    ghost Value = { FormedTable };

    ghost coded = { formed_table_code };

    ghost use Rattle.dart_types.specs.Libraries.{table_in, AreKept};

    ghost view = { λ r. record { table = table_in r.classes.items r.vars.items; formed = r.formed } };

    ghost invariant = { λ r. AreKept r.classes.items r.vars.items };
}

impl Rows {
    /// No rows. It takes no memory.
    pub fn none(alloc: Global) -> Rows
        ensures { result.table ≡ record { classes = []; vars = [] } }
    {
        Rows {
            classes: Vec::new(alloc),
            vars: Vec::new(alloc),
        }
    }

    /// The rows below with own ones of other libraries, and the superinterfaces of each own class; and the
    /// own classes that form a superinterface that is too large. Both lists are in the order of their ids.
    /// The rows below are a view of the result, as `union` wants it.
    pub fn extend(
        alloc: Global,
        below: &Rows,
        classes: Vec<ClassRow>,
        vars: Vec<VarRow>,
    ) -> Result<ExtendedRows, AllocError>
        requires { IsFormedOver below.now.table (record { classes = classes.items; vars = vars.items }) }
        ensures ok { IfOk result (λ e. IsUnion below.now.table (record { classes = classes.items; vars = vars.items }) e.rows.table) }
        ensures view { IfOk result (λ e. IsView below.now.table e.rows.table) }
        ensures too_large { IfOk result (λ e. e.too_large.items ≡ filter (forms_too_large e.rows.table) (map (λ row. row.id) classes.items)) }
    {
        let ids = ids_of(alloc, &classes)?;
        let rows = Rows::over(alloc, below, classes, vars)?;
        let too_large = too_large_among(alloc, &rows, &ids)?;
        Ok(ExtendedRows { rows, too_large })
    }

    // The rows below with own ones of other libraries.
    fn over(
        alloc: Global,
        below: &Rows,
        classes: Vec<ClassRow>,
        vars: Vec<VarRow>,
    ) -> Result<Rows, AllocError>
        requires { IsFormedOver below.now.table (record { classes = classes.items; vars = vars.items }) }
        ensures ok { IfOk result (λ rows. IsUnion below.now.table (record { classes = classes.items; vars = vars.items }) rows.table) }
        ensures view { IfOk result (λ rows. IsView below.now.table rows.table) }
    {
        let mut entries = entries_of(alloc, classes)?;
        fill_all(alloc, below, &mut entries, &vars)?;
        let own_classes = classes_by_library(alloc, entries)?;
        let own_vars = vars_by_library(alloc, vars)?;
        let rows = below.with_libraries(alloc, &own_classes, &own_vars)?;
        Ok(rows)
    }

    /// The rows of both. Each library that both have has the same rows in both.
    pub fn union(&self, alloc: Global, other: &Rows) -> Result<Rows, AllocError>
        requires { AreViewsOfOne self.now.table other.now.table }
        ensures { IfOk result (λ rows. IsUnion self.now.table other.now.table rows.table) }
    {
        self.with_libraries(alloc, &other.classes, &other.vars)
    }

    // The rows with those of other libraries.
    fn with_libraries(
        &self,
        alloc: Global,
        classes: &[SharedClasses],
        vars: &[SharedVars],
    ) -> Result<Rows, AllocError>
        requires { AreOthers self.now.table classes.now vars.now }
        ensures { IfOk result (λ rows. IsUnion self.now.table (table_in classes.now vars.now) rows.table) }
    {
        let mut all_classes = copy_classes(alloc, &self.classes)?;
        put_all_classes(&mut all_classes, classes)?;
        let mut all_vars = copy_vars(alloc, &self.vars)?;
        put_all_vars(&mut all_vars, vars)?;
        Ok(Rows {
            classes: all_classes,
            vars: all_vars,
        })
    }

    /// A second value of the same rows, which shares them.
    pub fn copy(&self, alloc: Global) -> Result<Rows, AllocError>
        ensures { IfOk result (λ copied. copied ≡ self.now) }
    {
        let classes = copy_classes(alloc, &self.classes)?;
        let vars = copy_vars(alloc, &self.vars)?;
        Ok(Rows { classes, vars })
    }

    /// The row of a class, if it has one. It takes no memory.
    pub fn class(&self, class: ClassId) -> Option<&ClassRow>
        ensures { option_copied result ≡ class_of self.now.table class }
    {
        match self.entry(class) {
            None => None,
            Some(entry) => Some(&entry.row),
        }
    }

    // The row of a class with its superinterfaces, if it has one.
    fn entry(&self, class: ClassId) -> Option<&ClassEntry>
        ensures { MatchOption result (class_of self.now.table class ≡ None) (λ entry. IsEntry self.now.table class entry.now) }
    {
        match find_classes(&self.classes, class.lib) {
            None => None,
            Some(library) => find_entry(&library.entries, class),
        }
    }

    /// The bound of a type variable, if it has one. It takes no memory.
    pub fn bound(&self, var: VarId) -> Option<&DartType>
        ensures { option_copied result ≡ bound_of self.now.table var }
    {
        match find_vars(&self.vars, var.lib) {
            None => None,
            Some(library) => find_bound(&library.rows, var),
        }
    }

    /// The superinterfaces that a class keeps, in the order of their classes. It takes no memory.
    pub fn superinterfaces(&self, class: ClassId) -> &[Superinterface]
        ensures { AreSuperinterfaces self.now.table class result.now }
    {
        match self.entry(class) {
            None => &[],
            Some(entry) => &entry.superinterfaces,
        }
    }

    /// Whether a library has classes here. It takes no memory.
    pub(crate) fn has_classes_of(&self, lib: LibId) -> bool
        ensures { IsTrue result ↔ HasClassOf self.now.table lib }
    {
        match find_classes(&self.classes, lib) {
            None => false,
            Some(_) => true,
        }
    }

    /// Whether a library has type variables here. It takes no memory.
    pub(crate) fn has_vars_of(&self, lib: LibId) -> bool
        ensures { IsTrue result ↔ HasVarOf self.now.table lib }
    {
        match find_vars(&self.vars, lib) {
            None => false,
            Some(_) => true,
        }
    }
}
