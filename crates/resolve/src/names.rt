//! The locals in scope.

ghost use Rattle.std.specs.Prelude.{◌≡◌, ◌++◌, IfOk, OnOk};
ghost use Rattle.std.specs.FinMap.{empty, get, insert, remove};
ghost use Rattle.dart_tree.specs.Tree.{trees_of};
ghost use Rattle.judgement.specs.DeclaredNames.{local_of, locals_of, name_of_variable, names_declared, names_in};
ghost use Rattle.judgement.specs.DeclaredNames.{names_of_list, names_of_variables, names_within};
ghost use Rattle.resolve.specs.Shadows.{restored, undone};

use dart_tree::{Name, Stmt, StmtNode, Variable};
use flow_model::LocalId;
use std::alloc::{AllocError, Global};
use std::collections::BTreeMap;
use std::marker::Model;

/// The locals in scope at a point of a body: one for each word that means one.
///
/// A body has one table of them. A scope puts the names that it declares in where it begins, and
/// takes them out again where it ends, so no table is copied however deep scopes nest.
#[derive(Drop)]
pub struct NamesInScope {
    locals: BTreeMap<u32, LocalId>,
}

/// What a declaration hides: the word that it declares, and the local that it meant before, if any.
#[derive(Clone, Copy)]
pub struct Shadowed {
    word: u32,
    before: Option<LocalId>,
}

impl Model for NamesInScope {
    ghost use Rattle.judgement.specs.Surroundings.{Names};
    ghost use Rattle.std.specs.Coded.{coded_ℕ};
    ghost use Rattle.std.specs.FinMap as map;
    ghost use Rattle.flow_model.specs.contracts.locals.LocalId as local;

    ghost Value = { Names };

    ghost coded = { map.code coded_ℕ local.the_row.coded };

    ghost view = { λ a. map.from_entries a.locals.entries };
}

impl NamesInScope {
    /// No local is in scope.
    pub fn new(alloc: Global) -> NamesInScope
        ensures { result ≡ empty }
    {
        NamesInScope {
            locals: BTreeMap::new(alloc),
        }
    }

    /// The local that a word means, if it means one. It costs the logarithm of the number of words.
    pub fn local(&self, word: u32) -> Option<LocalId>
        ensures { result ≡ get self.now word }
    {
        self.locals.get(&word).copied()
    }

    /// A scope begins that declares these names: they mean their locals from its beginning on, and of
    /// a word that is declared twice the first. The answer is what `leave` wants where the scope ends.
    /// Each name costs the logarithm of the number of words. After an `Err` some of them may be in.
    pub fn enter(&mut self, alloc: Global, declared: &[Name]) -> Result<Vec<Shadowed>, AllocError>
        ensures names { OnOk result (self.new ≡ names_within self.old declared.now) }
        ensures undone { IfOk result (λ shadowed. undone self.new shadowed.items ≡ self.old) }
    {
        let mut shadowed = Vec::new(alloc);
        for i in (0..declared.len()).rev() {
            self.declare(declared[i], &mut shadowed)?;
        }
        Ok(shadowed)
    }

    /// A scope ends, which hid these meanings: they are put back, those that were hidden last first.
    /// Each costs the logarithm of the number of words. After an `Err` some may not be back.
    pub fn leave(&mut self, mut shadowed: Vec<Shadowed>) -> Result<(), AllocError>
        ensures { OnOk result (self.new ≡ undone self.old shadowed.items) }
    {
        while let Some(hidden) = shadowed.pop() {
            self.restore(hidden)?;
        }
        Ok(())
    }

    // A name means its local; what it meant before is put with what is hidden.
    fn declare(&mut self, name: Name, shadowed: &mut Vec<Shadowed>) -> Result<(), AllocError>
        ensures names { OnOk result (self.new ≡ insert self.old name.word (local_of name)) }
        ensures undone { OnOk result (undone self.new shadowed.new.items ≡ undone self.old shadowed.old.items) }
    {
        let before = self.insert(name.word, declared_local(name))?;
        shadowed.push(Shadowed {
            word: name.word,
            before,
        })?;
        Ok(())
    }

    // A word means this local; the answer is what it meant before.
    fn insert(&mut self, word: u32, local: LocalId) -> Result<Option<LocalId>, AllocError>
        ensures names { OnOk result (self.new ≡ insert self.old word local) }
        ensures before { IfOk result (λ before. before ≡ get self.old word) }
    {
        let before = self.locals.insert(word, local)?;
        Ok(before)
    }

    // A word means again what it meant before.
    fn restore(&mut self, hidden: Shadowed) -> Result<(), AllocError>
        ensures { OnOk result (self.new ≡ restored self.old hidden) }
    {
        match hidden.before {
            Some(local) => {
                let _hiding = self.insert(hidden.word, local)?;
                Ok(())
            }
            None => {
                self.remove(hidden.word);
                Ok(())
            }
        }
    }

    // A word means no local.
    fn remove(&mut self, word: u32)
        ensures { self.new ≡ remove self.old word }
    {
        let _before = self.locals.remove(&word);
    }
}

/// The local that a name declares: it has the number of that name.
pub(crate) fn declared_local(name: Name) -> LocalId
    ensures { result ≡ local_of name }
{
    LocalId(name.at.node.0)
}

/// The locals of these names.
pub(crate) fn locals_of(alloc: Global, names: &[Name]) -> Result<Vec<LocalId>, AllocError>
    ensures { IfOk result (λ locals. locals.items ≡ locals_of names.now) }
{
    let mut locals = Vec::new(alloc);
    for name in names {
        locals.push(declared_local(*name))?;
    }
    Ok(locals)
}

/// The names that a statement itself declares.
pub(crate) fn names_declared(alloc: Global, statement: &Stmt) -> Result<Vec<Name>, AllocError>
    ensures { IfOk result (λ names. names.items ≡ names_declared statement.now) }
{
    let mut names = Vec::new(alloc);
    add_names_declared(statement, &mut names)?;
    Ok(names)
}

/// The names that the statements of a block declare, in their order.
pub(crate) fn names_in(alloc: Global, statements: &[Stmt]) -> Result<Vec<Name>, AllocError>
    ensures { IfOk result (λ names. names.items ≡ names_in (trees_of statements.now)) }
{
    let mut names = Vec::new(alloc);
    for statement in statements {
        add_names_declared(statement, &mut names)?;
    }
    Ok(names)
}

// Puts the names that a statement itself declares behind others.
fn add_names_declared(statement: &Stmt, names: &mut Vec<Name>) -> Result<(), AllocError>
    ensures { OnOk result (names.new.items ≡ names.old.items ++ names_declared statement.now) }
{
    match &*statement.node {
        StmtNode::Variables { variables, .. } => {
            add_names_of_variables(&variables.variables, names)
        }
        _ => Ok(()),
    }
}

// Puts the names of variables behind others.
fn add_names_of_variables(variables: &[Variable], names: &mut Vec<Name>) -> Result<(), AllocError>
    ensures { OnOk result (names.new.items ≡ names.old.items ++ names_of_variables (trees_of variables.now)) }
{
    for variable in variables {
        names.push(variable.name)?;
    }
    Ok(())
}
