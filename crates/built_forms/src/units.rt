//! Which declarations of a unit are built.

ghost use Rattle.std.specs.Prelude.{◌≡◌, ◌++◌, option_map, IfOk, OnOk};
ghost use Rattle.std.specs.Option.{option_copied};
ghost use Rattle.dart_tree.specs.Tree.{trees_of, part_of};
ghost use Rattle.built_forms.specs.Forms.{is_block, is_error};
ghost use Rattle.built_forms.specs.Units.{is_main, has_one_main, is_void, are_none, takes_nothing, main_of, function_of, function_in, unbuilt_item, unbuilt_in, items_of, meanings_in, has_main, unbuilt, has_other_names};

use crate::core_imports::narrows_core;
use crate::declared::{brings_names, declared_in};
use crate::meaning::meanings_of;
use crate::statements::are_statements;
use dart_tree::{
    Annotation, Body, BodyNode, Function, FunctionNode, Item, ItemNode, Parameter, ParameterList,
    ReadItem, Span, TypeParameter, UnitTree, WrittenType, WrittenTypeNode,
};
use judgement::Meaning;
use plain_text::PlainText;
use std::alloc::{AllocError, Global};

/// What of a unit is built, and what isn't.
#[derive(Drop)]
pub struct Forms {
    /// Where its directives and declarations stand that aren't built, in their order.
    pub unbuilt: Vec<Span>,
    /// What each of its words means outside of its functions.
    pub outside: Vec<Meaning>,
    /// Whether just one of the names that it declares is `main`.
    pub has_main: bool,
    /// Whether a directive may bring names that others declare.
    pub has_other_names: bool,
}

/// Whether a word is `main`.
fn is_main(words: &[PlainText], word: u32) -> bool
    ensures { result ≡ is_main words.now word }
{
    match words.get(word as usize) {
        Some(text) => text.as_str().as_bytes() == b"main".as_slice(),
        None => false,
    }
}

/// Whether just one of the names that are declared is `main`.
fn has_one_main(words: &[PlainText], declared: &[u32]) -> bool
    ensures { result ≡ has_one_main words.now declared.now }
{
    let mut count: usize = 0;
    for word in declared {
        if is_main(words, *word) {
            count += 1;
        }
    }
    count == 1
}

/// Whether `void` is written.
fn is_void(written: &Option<WrittenType>) -> bool
    ensures { result ≡ is_void (part_of written.now) }
{
    match written {
        None => false,
        Some(written) => match &*written.node {
            WrittenTypeNode::Void { .. } => true,
            WrittenTypeNode::Named { .. } => false,
            WrittenTypeNode::Function { .. } => false,
        },
    }
}

/// Whether there are no annotations.
fn no_annotations(annotations: &[Annotation]) -> bool
    ensures { result ≡ are_none (trees_of annotations.now) }
{
    annotations.is_empty()
}

/// Whether there are no type parameters.
fn no_type_parameters(parameters: &[TypeParameter]) -> bool
    ensures { result ≡ are_none (trees_of parameters.now) }
{
    parameters.is_empty()
}

/// Whether there are no parameters.
fn no_parameters(parameters: &[Parameter]) -> bool
    ensures { result ≡ are_none (trees_of parameters.now) }
{
    parameters.is_empty()
}

/// Whether there is nothing between the parentheses of a function.
fn takes_nothing(list: &ParameterList) -> bool
    ensures { result ≡ takes_nothing list.now }
{
    no_parameters(&list.parameters)
}

/// Whether a body is a block that is built.
fn is_block(outside: &[Meaning], body: &Body) -> bool
    ensures { result ≡ is_block outside.now body.now }
{
    match &body.node {
        BodyNode::Block { statements, .. } => are_statements(outside, statements),
        _ => false,
    }
}

/// The body of `void main() { .. }`, if it is built.
fn main_of<'a>(
    outside: &[Meaning],
    words: &[PlainText],
    one: bool,
    function: &'a Function,
) -> Option<&'a Body>
    ensures { option_copied result ≡ main_of outside.now words.now one function.now }
{
    match &*function.node {
        FunctionNode::Plain {
            result,
            name,
            type_parameters,
            parameters,
            body,
            ..
        } => {
            if is_void(result)
                && no_type_parameters(type_parameters)
                && takes_nothing(parameters)
                && one
                && is_main(words, name.word)
                && is_block(outside, body)
            {
                return Some(body);
            }
            None
        }
        _ => None,
    }
}

/// Where the function stands that an item is, and its body, if it is built: it has no annotations.
fn function_of<'a>(
    outside: &[Meaning],
    words: &[PlainText],
    one: bool,
    item: &'a Item,
) -> Option<(Span, &'a Body)>
    ensures { option_map (λ found. (found.0, found.1.now)) result ≡ function_of outside.now words.now one item.now }
{
    let ItemNode::Read(node) = &item.node else {
        return None;
    };
    match &**node {
        ReadItem::Function {
            at,
            metadata,
            function,
        } => {
            if !no_annotations(metadata) {
                return None;
            }
            let body = main_of(outside, words, one, function)?;
            Some((at.span, body))
        }
        _ => None,
    }
}

/// Whether an item is an error: it derives nothing.
fn is_error(item: &Item) -> bool
    ensures { result ≡ is_error item.now }
{
    match &item.node {
        ItemNode::Read(_) => false,
        ItemNode::Error { .. } => true,
    }
}

/// Adds an item to what isn't built, unless it is built or an error.
fn add_item(
    outside: &[Meaning],
    words: &[PlainText],
    one: bool,
    item: &Item,
    unbuilt: &mut Vec<Span>,
) -> Result<(), AllocError>
    ensures { OnOk result (unbuilt.new.items ≡ unbuilt.old.items ++ unbuilt_item outside.now words.now one item.now) }
{
    if !is_error(item) && function_of(outside, words, one, item).is_none() {
        unbuilt.push(item.place().span)?;
    }
    Ok(())
}

/// Where those of these items stand that aren't built.
fn unbuilt_in(
    alloc: Global,
    outside: &[Meaning],
    words: &[PlainText],
    one: bool,
    items: &[Item],
) -> Result<Vec<Span>, AllocError>
    ensures { IfOk result (λ unbuilt. unbuilt.items ≡ unbuilt_in outside.now words.now one (trees_of items.now)) }
{
    let mut unbuilt = Vec::new(alloc);
    for item in items {
        add_item(outside, words, one, item, &mut unbuilt)?;
    }
    Ok(unbuilt)
}

/// What the words of a unit mean outside of its functions, and whether just one of the names that it
/// declares is `main`.
fn names_in(
    alloc: Global,
    words: &[PlainText],
    unit: &UnitTree,
) -> Result<(Vec<Meaning>, bool), AllocError>
    ensures outside { IfOk result (λ names. names.0.items ≡ meanings_in words.now unit.now) }
    ensures main { IfOk result (λ names. names.1 ≡ has_main words.now unit.now) }
{
    let declared = declared_in(alloc, &unit.items)?;
    let narrow = narrows_core(alloc, words, &unit.items)?;
    let outside = meanings_of(alloc, narrow, words, &declared)?;
    let has_main = has_one_main(words, &declared);
    Ok((outside, has_main))
}

/// What of a unit with these words is built, where what isn't built stands, and what its words mean.
/// The work is linear in the unit and its words. The error is want of memory.
pub fn forms_of(alloc: Global, words: &[PlainText], unit: &UnitTree) -> Result<Forms, AllocError>
    ensures unbuilt { IfOk result (λ forms. forms.unbuilt.items ≡ unbuilt words.now unit.now) }
    ensures outside { IfOk result (λ forms. forms.outside.items ≡ meanings_in words.now unit.now) }
    ensures main { IfOk result (λ forms. forms.has_main ≡ has_main words.now unit.now) }
    ensures names { IfOk result (λ forms. forms.has_other_names ≡ has_other_names unit.now) }
{
    let (outside, has_main) = names_in(alloc, words, unit)?;
    let unbuilt = unbuilt_in(alloc, &outside, words, has_main, &unit.items)?;
    let has_other_names = brings_names(&unit.items);
    Ok(Forms {
        unbuilt,
        outside,
        has_main,
        has_other_names,
    })
}

/// That of the first of these items that is built.
fn function_in<'a>(
    outside: &[Meaning],
    words: &[PlainText],
    one: bool,
    items: &'a [Item],
) -> Option<(Span, &'a Body)>
    ensures { option_map (λ found. (found.0, found.1.now)) result ≡ function_in outside.now words.now one (trees_of items.now) }
{
    for item in items {
        let found = function_of(outside, words, one, item);
        if found.is_some() {
            return found;
        }
    }
    None
}

/// Where the function `main` of a unit stands, and its body, if that is built: from what its words
/// mean outside of its functions, and whether just one of the names that it declares is `main`.
pub fn built_main<'a>(
    outside: &[Meaning],
    words: &[PlainText],
    one: bool,
    unit: &'a UnitTree,
) -> Option<(Span, &'a Body)>
    ensures { option_map (λ found. (found.0, found.1.now)) result ≡ function_in outside.now words.now one (items_of unit.now) }
{
    function_in(outside, words, one, &unit.items)
}
