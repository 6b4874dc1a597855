//! The names that the top level of a unit declares.

ghost use Rattle.std.specs.Prelude.{◌≡◌, [], ◌∷◌, ◌++◌, IfOk, OnOk};
ghost use Rattle.dart_tree.specs.Tree.{trees_of};
ghost use Rattle.directives.specs.DeclaredNames.{declared_by, declared_by_all, declared_by_function, declared_in, named, variable_kind};

use crate::uri::word_at;
use dart_tree::{Function, FunctionNode, Item, ItemNode, Name, ReadItem, Span, Variable};
use element_terms::DeclaredKind;
use plain_text::PlainText;
use std::alloc::{AllocError, Global};
use std::marker::Model;

/// A declaration at the top level of a unit, with the place of its name.
#[derive(Drop)]
pub struct DeclaredName {
    /// Where its name stands.
    pub span: Span,
    /// Its name, as it is written.
    pub name: PlainText,
    /// Its kind.
    pub kind: DeclaredKind,
}

/// Declared names in the order of the text.
#[derive(Drop)]
pub struct DeclaredNames {
    names: Vec<DeclaredName>,
}

impl Model for DeclaredNames {
    ghost use Rattle.std.specs.Prelude.{List};
    ghost use Rattle.directives.specs.declared.declared.DeclaredName.{DeclaredName};

    ghost Value = { List DeclaredName };

    ghost view = { λ d. d.names.items };
}

impl DeclaredNames {
    /// The names that the vector holds, which takes no memory.
    pub fn from_vec(names: Vec<DeclaredName>) -> DeclaredNames
        ensures { result ≡ names.items }
    {
        DeclaredNames { names }
    }

    /// The names.
    pub fn as_slice(&self) -> &[DeclaredName]
        ensures { result.now ≡ self.now }
    {
        self.names.as_slice()
    }
}

/// A declaration of this kind with this name.
fn named(
    alloc: Global,
    words: &[PlainText],
    name: Name,
    kind: DeclaredKind,
) -> Result<DeclaredName, AllocError>
    ensures { IfOk result (λ declared. declared ≡ named words.now name kind) }
{
    Ok(DeclaredName {
        span: name.at.span,
        name: PlainText::new(alloc, word_at(words, name.word))?,
        kind,
    })
}

/// What a function declares.
fn declared_by_function(
    alloc: Global,
    words: &[PlainText],
    function: &Function,
) -> Result<DeclaredName, AllocError>
    ensures { IfOk result (λ declared. declared_by_function words.now function.now ≡ declared ∷ []) }
{
    match &*function.node {
        FunctionNode::Getter { name, .. } => named(alloc, words, *name, DeclaredKind::Getter),
        FunctionNode::Setter { name, .. } => named(alloc, words, *name, DeclaredKind::Setter),
        FunctionNode::Plain { name, .. } => named(alloc, words, *name, DeclaredKind::Function),
    }
}

/// The kind of variables.
fn variable_kind(is_final: bool) -> DeclaredKind
    ensures { result ≡ variable_kind is_final }
{
    if is_final {
        DeclaredKind::FinalVariable
    } else {
        DeclaredKind::Variable
    }
}

/// Adds what variables declare that are declared together.
fn add_variables(
    alloc: Global,
    words: &[PlainText],
    kind: DeclaredKind,
    variables: &[Variable],
    all: &mut Vec<DeclaredName>,
) -> Result<(), AllocError>
    ensures { OnOk result (all.new.items ≡ all.old.items ++ declared_by_all words.now kind (trees_of variables.now)) }
{
    for variable in variables {
        all.push(named(alloc, words, variable.name, kind)?)?;
    }
    Ok(())
}

/// Adds what an item declares.
fn add_item(
    alloc: Global,
    words: &[PlainText],
    item: &Item,
    all: &mut Vec<DeclaredName>,
) -> Result<(), AllocError>
    ensures { OnOk result (all.new.items ≡ all.old.items ++ declared_by words.now item.now) }
{
    let ItemNode::Read(node) = &item.node else {
        return Ok(());
    };
    match &**node {
        ReadItem::Class { name, .. } => all.push(named(alloc, words, *name, DeclaredKind::Class)?)?,
        ReadItem::Mixin { name, .. } => all.push(named(alloc, words, *name, DeclaredKind::Mixin)?)?,
        ReadItem::TypeAlias { name, .. } => {
            all.push(named(alloc, words, *name, DeclaredKind::Typedef)?)?
        }
        ReadItem::Function { function, .. } => {
            all.push(declared_by_function(alloc, words, function)?)?
        }
        ReadItem::Variables { variables, .. } => {
            let kind = variable_kind(variables.is_final);
            return add_variables(alloc, words, kind, &variables.variables, all);
        }
        ReadItem::Library { .. } => {}
        ReadItem::Import { .. } => {}
        ReadItem::Export { .. } => {}
        ReadItem::Part { .. } => {}
        ReadItem::PartOf { .. } => {}
        ReadItem::PartOfLibrary { .. } => {}
    }
    Ok(())
}

/// What the items of a unit declare.
pub(crate) fn declared_in(
    alloc: Global,
    words: &[PlainText],
    items: &[Item],
) -> Result<DeclaredNames, AllocError>
    ensures { IfOk result (λ names. names ≡ declared_in words.now (trees_of items.now)) }
{
    let mut all = Vec::new(alloc);
    for item in items {
        add_item(alloc, words, item, &mut all)?;
    }
    Ok(DeclaredNames::from_vec(all))
}
