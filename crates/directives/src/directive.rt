//! Directives.

ghost use Rattle.std.specs.Prelude.{◌≡◌, [], ◌∷◌, ◌++◌, IfOk, OnOk};
ghost use Rattle.std.specs.Option.{option_to_list};
ghost use Rattle.dart_tree.specs.Tree.{part_of, trees_of};
ghost use Rattle.directives.specs.Directives.{combinator_of, combinators_of, directive_of, directives_in, form_of, last_end, name_span, names_of, prefix_of};

use crate::uri::{Uri, uri_of, word_at};
use dart_tree::{
    Combinator as WrittenCombinator, CombinatorNode, Item, ItemNode, ListedName, ReadItem, Span,
};
use element_terms::{Combinator, Combinators, NameList};
use plain_text::PlainText;
use std::alloc::{AllocError, Global};
use std::marker::Model;

/// What a directive says.
#[derive(Drop)]
pub enum DirectiveForm {
    /// `library a.b;`.
    Library,
    /// `import 'u' as p show a hide b;`.
    Import {
        /// Its URI.
        uri: Uri,
        /// Its prefix, if it has one.
        prefix: Option<PlainText>,
        /// Its combinators, as they are written.
        combinators: Combinators,
    },
    /// `export 'u' show a hide b;`.
    Export {
        /// Its URI.
        uri: Uri,
        /// Its combinators, as they are written.
        combinators: Combinators,
    },
    /// `part 'u';`.
    Part {
        /// Its URI.
        uri: Uri,
    },
    /// `part of 'u';`.
    PartOf {
        /// Its URI.
        uri: Uri,
    },
    /// `part of a.b;`.
    PartOfName {
        /// Where the name stands.
        name: Span,
    },
}

/// A directive.
#[derive(Drop)]
pub struct Directive {
    /// Where it stands.
    pub span: Span,
    /// What it says.
    pub form: DirectiveForm,
}

/// Directives in the order in which they are written.
#[derive(Drop)]
pub struct Directives {
    directives: Vec<Directive>,
}

impl Model for Directives {
    ghost use Rattle.std.specs.Prelude.{List};
    ghost use Rattle.directives.specs.declared.directive.Directive.{Directive};

    ghost Value = { List Directive };

    ghost view = { λ d. d.directives.items };
}

impl Directives {
    /// The directives that the vector holds, which takes no memory.
    pub fn from_vec(directives: Vec<Directive>) -> Directives
        ensures { result ≡ directives.items }
    {
        Directives { directives }
    }

    /// The directives.
    pub fn as_slice(&self) -> &[Directive]
        ensures { result.now ≡ self.now }
    {
        self.directives.as_slice()
    }
}

/// The names of a list.
fn names_of(
    alloc: Global,
    words: &[PlainText],
    names: &[ListedName],
) -> Result<NameList, AllocError>
    ensures { IfOk result (λ list. list ≡ names_of words.now (trees_of names.now)) }
{
    let mut list = Vec::new(alloc);
    for name in names {
        list.push(PlainText::new(alloc, word_at(words, name.word))?)?;
    }
    Ok(NameList::from_vec(list))
}

/// A combinator with its names.
fn combinator_of(
    alloc: Global,
    words: &[PlainText],
    written: &WrittenCombinator,
) -> Result<Combinator, AllocError>
    ensures { IfOk result (λ combinator. combinator ≡ combinator_of words.now written.now) }
{
    match &written.node {
        CombinatorNode::Show { names, .. } => {
            let names = names_of(alloc, words, names)?;
            Ok(Combinator::Show(names))
        }
        CombinatorNode::Hide { names, .. } => {
            let names = names_of(alloc, words, names)?;
            Ok(Combinator::Hide(names))
        }
    }
}

/// Combinators, as they are written.
fn combinators_of(
    alloc: Global,
    words: &[PlainText],
    written: &[WrittenCombinator],
) -> Result<Combinators, AllocError>
    ensures { IfOk result (λ combinators. combinators ≡ combinators_of words.now (trees_of written.now)) }
{
    let mut combinators = Vec::new(alloc);
    for one in written {
        combinators.push(combinator_of(alloc, words, one)?)?;
    }
    Combinators::from_vec(alloc, combinators)
}

/// The prefix of an import, if it has one.
fn prefix_of(
    alloc: Global,
    words: &[PlainText],
    prefix: &Option<ListedName>,
) -> Result<Option<PlainText>, AllocError>
    ensures { IfOk result (λ found. found ≡ prefix_of words.now (part_of prefix.now)) }
{
    match prefix {
        None => Ok(None),
        Some(name) => {
            let text = PlainText::new(alloc, word_at(words, name.word))?;
            Ok(Some(text))
        }
    }
}

/// The end of the last of these names, or else this one.
fn last_end(end: u32, names: &[ListedName]) -> u32
    ensures { result ≡ last_end end (trees_of names.now) }
{
    let mut last = end;
    for name in names {
        last = name.at.span.end;
    }
    last
}

/// Where a name of several words stands, in a directive that stands there.
fn name_span(span: Span, names: &[ListedName]) -> Span
    ensures { result ≡ name_span span (trees_of names.now) }
{
    match names {
        [] => span,
        [first, ..] => Span {
            start: first.at.span.start,
            end: last_end(span.start, names),
        },
    }
}

/// What an item says, if it is a directive.
fn form_of(
    alloc: Global,
    words: &[PlainText],
    item: &Item,
) -> Result<Option<DirectiveForm>, AllocError>
    ensures { IfOk result (λ form. form ≡ form_of words.now item.now) }
{
    let ItemNode::Read(node) = &item.node else {
        return Ok(None);
    };
    match &**node {
        ReadItem::Library { .. } => Ok(Some(DirectiveForm::Library)),
        ReadItem::Import {
            uri,
            prefix,
            combinators,
            ..
        } => {
            let uri = uri_of(alloc, words, uri)?;
            let prefix = prefix_of(alloc, words, prefix)?;
            let combinators = combinators_of(alloc, words, combinators)?;
            Ok(Some(DirectiveForm::Import {
                uri,
                prefix,
                combinators,
            }))
        }
        ReadItem::Export {
            uri,
            combinators,
            ..
        } => {
            let uri = uri_of(alloc, words, uri)?;
            let combinators = combinators_of(alloc, words, combinators)?;
            Ok(Some(DirectiveForm::Export { uri, combinators }))
        }
        ReadItem::Part { uri, .. } => {
            let uri = uri_of(alloc, words, uri)?;
            Ok(Some(DirectiveForm::Part { uri }))
        }
        ReadItem::PartOf { uri, .. } => {
            let uri = uri_of(alloc, words, uri)?;
            Ok(Some(DirectiveForm::PartOf { uri }))
        }
        ReadItem::PartOfLibrary { at, names } => Ok(Some(DirectiveForm::PartOfName {
            name: name_span(at.span, names),
        })),
        ReadItem::Class { .. } => Ok(None),
        ReadItem::Mixin { .. } => Ok(None),
        ReadItem::TypeAlias { .. } => Ok(None),
        ReadItem::Function { .. } => Ok(None),
        ReadItem::Variables { .. } => Ok(None),
    }
}

/// Puts an item behind directives, if it is one.
fn add_item(
    alloc: Global,
    words: &[PlainText],
    item: &Item,
    directives: &mut Vec<Directive>,
) -> Result<(), AllocError>
    ensures { OnOk result (directives.new.items ≡ directives.old.items ++ option_to_list (directive_of words.now item.now)) }
{
    if let Some(form) = form_of(alloc, words, item)? {
        directives.push(Directive {
            span: item.place().span,
            form,
        })?;
    }
    Ok(())
}

/// The directives among these items.
pub(crate) fn directives_in(
    alloc: Global,
    words: &[PlainText],
    items: &[Item],
) -> Result<Directives, AllocError>
    ensures { IfOk result (λ directives. directives ≡ directives_in words.now (trees_of items.now)) }
{
    let mut directives = Vec::new(alloc);
    for item in items {
        add_item(alloc, words, item, &mut directives)?;
    }
    Ok(Directives::from_vec(directives))
}
