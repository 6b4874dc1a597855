//! The names that a unit declares.

ghost use Rattle.std.specs.Prelude.{◌≡◌, [], ◌∷◌, ◌++◌, IfOk, OnOk};
ghost use Rattle.dart_tree.specs.Tree.{trees_of, part_of};
ghost use Rattle.built_forms.specs.DeclaredNames.{declared_by_function, declared_by_all, declared_by_prefix, declared_by, declared_in, brings, brings_names};

use dart_tree::{Function, FunctionNode, Item, ItemNode, ListedName, ReadItem, Variable};
use std::alloc::{AllocError, Global};

/// The word of a function's name.
fn function_word(function: &Function) -> u32
    ensures { declared_by_function function.now ≡ result ∷ [] }
{
    match &*function.node {
        FunctionNode::Getter { name, .. } => name.word,
        FunctionNode::Setter { name, .. } => name.word,
        FunctionNode::Plain { name, .. } => name.word,
    }
}

/// Adds the names of variables that are declared together.
fn add_variables(variables: &[Variable], words: &mut Vec<u32>) -> Result<(), AllocError>
    ensures { OnOk result (words.new.items ≡ words.old.items ++ declared_by_all (trees_of variables.now)) }
{
    for variable in variables {
        words.push(variable.name.word)?;
    }
    Ok(())
}

/// Adds a prefix, where one is written.
fn add_prefix(prefix: &Option<ListedName>, words: &mut Vec<u32>) -> Result<(), AllocError>
    ensures { OnOk result (words.new.items ≡ words.old.items ++ declared_by_prefix (part_of prefix.now)) }
{
    if let Some(name) = prefix {
        words.push(name.word)?;
    }
    Ok(())
}

/// Adds the names that a directive or a declaration declares.
fn add_item(item: &Item, words: &mut Vec<u32>) -> Result<(), AllocError>
    ensures { OnOk result (words.new.items ≡ words.old.items ++ declared_by item.now) }
{
    let ItemNode::Read(node) = &item.node else {
        return Ok(());
    };
    match &**node {
        ReadItem::Class { name, .. } => words.push(name.word)?,
        ReadItem::Mixin { name, .. } => words.push(name.word)?,
        ReadItem::TypeAlias { name, .. } => words.push(name.word)?,
        ReadItem::Function { function, .. } => words.push(function_word(function))?,
        ReadItem::Variables { variables, .. } => return add_variables(&variables.variables, words),
        ReadItem::Import { prefix, .. } => return add_prefix(prefix, words),
        ReadItem::Library { .. } => {}
        ReadItem::Export { .. } => {}
        ReadItem::Part { .. } => {}
        ReadItem::PartOf { .. } => {}
        ReadItem::PartOfLibrary { .. } => {}
    }
    Ok(())
}

/// The names that the items of a unit declare, by their words.
pub(crate) fn declared_in(alloc: Global, items: &[Item]) -> Result<Vec<u32>, AllocError>
    ensures { IfOk result (λ words. words.items ≡ declared_in (trees_of items.now)) }
{
    let mut words = Vec::new(alloc);
    for item in items {
        add_item(item, &mut words)?;
    }
    Ok(words)
}

/// Whether an item is a directive that may bring names that others declare.
fn brings(item: &Item) -> bool
    ensures { result ≡ brings item.now }
{
    let ItemNode::Read(node) = &item.node else {
        return false;
    };
    match &**node {
        ReadItem::Import { .. } => true,
        ReadItem::Part { .. } => true,
        ReadItem::PartOf { .. } => true,
        ReadItem::PartOfLibrary { .. } => true,
        ReadItem::Class { .. } => false,
        ReadItem::Mixin { .. } => false,
        ReadItem::TypeAlias { .. } => false,
        ReadItem::Function { .. } => false,
        ReadItem::Variables { .. } => false,
        ReadItem::Library { .. } => false,
        ReadItem::Export { .. } => false,
    }
}

/// Whether one of these is such a directive.
pub(crate) fn brings_names(items: &[Item]) -> bool
    ensures { result ≡ brings_names (trees_of items.now) }
{
    for item in items {
        if brings(item) {
            return true;
        }
    }
    false
}
