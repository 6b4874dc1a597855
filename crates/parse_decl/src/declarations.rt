//! Declarations of libraries.

ghost use Rattle.std.specs.Prelude.{◌≡◌, ◌≤◌, IfOk, option_map};
ghost use Rattle.readings.specs.Readings.{tokens_read};
ghost use Rattle.readings.specs.Descent.{take_token, take_maybe, take_where, ◌▸◌};
ghost use Rattle.grammar.specs.Tokens.{is};
ghost use Rattle.grammar.specs.Types.{behind_token, listed_or_none};
ghost use Rattle.grammar.specs.Declarations.{of_function, of_variables, heads_class, heads_word, declaration_with};
ghost use Rattle.grammar.specs.Descents.{lower};
ghost use Rattle.grammar.specs.DeclarationDescents.{take_types_behind, take_class_with, take_class, take_mixin, take_alias, take_plain_declaration, take_declaration};
ghost use Rattle.parse_leaves.specs.Answers.{Gives};
ghost use Rattle.parse_members.specs.Plain.{plain_with};
ghost use Rattle.parse_decl.specs.Parts.{declaration_form_of};

use crate::leaves::{class_word, heads_class};
use crate::parts::DeclarationForm;
use dart_tokens::Kind;
use dart_tree::{Annotation, Item, ItemNode, ReadItem, WrittenType};
use grammar::Token;
use parse_leaves::{Below, Miss, name_at, place_over, token, type_word};
use parse_members::{
    Bodies, FunctionOrVariables, function_or_variables, heads_word, member_list, some_token,
};
use parse_types::{annotations, listed_type_parameters, some_type_parameters, type_list};
use std::alloc::{AllocError, Global};

/// A word and a type.
fn type_behind<'k, B: Below<'k>>(
    below: &B,
    alloc: Global,
    word: Kind,
    tokens: &'k [Token],
) -> Result<(Token, WrittenType, &'k [Token]), Miss>
    requires limit { B.room below.now ≤ 200 }
    requires sound { B.sound below.now }
    ensures { Gives (λ x. ((x.0, x.1), x.2.now)) result ((take_token (is word) ▸ (lower (B.room below.now)).written) tokens.now) }
{
    let (found, rest) = token(tokens, word).ok_or(Miss::NoReading)?;
    let (written, _, rest) = below.written(alloc, rest)?;
    Ok((found, written, rest))
}

/// A word and a type, if they come next.
fn some_type_behind<'k, B: Below<'k>>(
    below: &B,
    alloc: Global,
    word: Kind,
    tokens: &'k [Token],
) -> Result<(Option<(Token, WrittenType)>, &'k [Token]), Miss>
    requires limit { B.room below.now ≤ 200 }
    requires sound { B.sound below.now }
    ensures { Gives (λ x. (x.0, x.1.now)) result (take_maybe (take_token (is word) ▸ (lower (B.room below.now)).written) tokens.now) }
{
    match type_behind(below, alloc, word, tokens) {
        Ok((found, written, rest)) => Ok((Some((found, written)), rest)),
        Err(Miss::NoReading) => Ok((None, tokens)),
        Err(Miss::Memory) => Err(Miss::Memory),
    }
}

/// A word and types with commas between them.
fn types_behind<'k, B: Below<'k>>(
    below: &B,
    alloc: Global,
    word: Kind,
    tokens: &'k [Token],
) -> Result<(Token, Vec<WrittenType>, &'k [Token]), Miss>
    requires limit { B.room below.now ≤ 200 }
    requires sound { B.sound below.now }
    ensures { Gives (λ x. ((x.0, x.1.items), x.2.now)) result (take_types_behind (is word) (lower (B.room below.now)) tokens.now) }
{
    let (found, rest) = token(tokens, word).ok_or(Miss::NoReading)?;
    let (list, _, rest) = type_list(below, alloc, rest)?;
    Ok((found, list, rest))
}

/// A word and types with commas between them, if they come next.
fn some_types_behind<'k, B: Below<'k>>(
    below: &B,
    alloc: Global,
    word: Kind,
    tokens: &'k [Token],
) -> Result<(Option<(Token, Vec<WrittenType>)>, &'k [Token]), Miss>
    requires limit { B.room below.now ≤ 200 }
    requires sound { B.sound below.now }
    ensures { Gives (λ x. (option_map (λ y. (y.0, y.1.items)) x.0, x.1.now)) result (take_maybe (take_types_behind (is word) (lower (B.room below.now))) tokens.now) }
{
    match types_behind(below, alloc, word, tokens) {
        Ok((found, list, rest)) => Ok((Some((found, list)), rest)),
        Err(Miss::NoReading) => Ok((None, tokens)),
        Err(Miss::Memory) => Err(Miss::Memory),
    }
}

/// The types that were found behind a word, or none.
fn listed_types(alloc: Global, found: Option<(Token, Vec<WrittenType>)>) -> Vec<WrittenType>
    ensures { result.items ≡ listed_or_none (behind_token (option_map (λ y. (y.0, y.1.items)) found)) }
{
    match found {
        Some((_, list)) => list,
        None => Vec::new(alloc),
    }
}

/// A class whose constructors have this name.
#[tactic(auto, unfolding(grammar::specs::DeclarationDescents::take_class_with))]
fn class_with<'k, B: Below<'k>, C: Below<'k>>(
    below: &B,
    inner: &C,
    alloc: Global,
    in_core: bool,
    class: Option<u32>,
    tokens: &'k [Token],
) -> Result<(DeclarationForm, &'k [Token]), Miss>
    requires limit { B.room below.now ≤ 200 }
    requires sound { B.sound below.now }
    requires inner_limit { C.room inner.now ≤ 200 }
    requires inner_sound { C.sound inner.now }
    ensures { Gives (λ x. (declaration_form_of x.0, x.1.now)) result (take_class_with in_core class (lower (B.room below.now)) (lower (C.room inner.now)) tokens.now) }
{
    let (partial, rest) = some_token(tokens, Kind::Abstract);
    let (_, rest) = token(rest, Kind::Class).ok_or(Miss::NoReading)?;
    let (name, rest) = type_word(rest).ok_or(Miss::NoReading)?;
    let (parameters, _, rest) = some_type_parameters(below, alloc, rest)?;
    let (superclass, rest) = some_type_behind(below, alloc, Kind::Extends, rest)?;
    let (mixins, rest) = some_types_behind(below, alloc, Kind::With, rest)?;
    let (interfaces, rest) = some_types_behind(below, alloc, Kind::Implements, rest)?;
    let (_, members, rest) = member_list(inner, alloc, in_core, class, rest)?;
    let form = DeclarationForm::Class {
        is_abstract: partial.is_some(),
        name,
        type_parameters: listed_type_parameters(alloc, parameters),
        superclass: superclass.map(|(_, written)| written),
        mixins: listed_types(alloc, mixins),
        interfaces: listed_types(alloc, interfaces),
        members,
    };
    Ok((form, rest))
}

/// A class.
#[tactic(auto, unfolding(grammar::specs::DeclarationDescents::take_class))]
fn class<'k, B: Below<'k>, C: Below<'k>>(
    below: &B,
    inner: &C,
    alloc: Global,
    in_core: bool,
    tokens: &'k [Token],
) -> Result<(DeclarationForm, &'k [Token]), Miss>
    requires limit { B.room below.now ≤ 200 }
    requires sound { B.sound below.now }
    requires inner_limit { C.room inner.now ≤ 200 }
    requires inner_sound { C.sound inner.now }
    ensures { Gives (λ x. (declaration_form_of x.0, x.1.now)) result (take_class in_core (lower (B.room below.now)) (lower (C.room inner.now)) tokens.now) }
{
    class_with(below, inner, alloc, in_core, class_word(tokens), tokens)
}

/// A mixin.
#[tactic(auto, unfolding(grammar::specs::DeclarationDescents::take_mixin))]
fn mixin<'k, B: Below<'k>, C: Below<'k>>(
    below: &B,
    inner: &C,
    alloc: Global,
    in_core: bool,
    tokens: &'k [Token],
) -> Result<(DeclarationForm, &'k [Token]), Miss>
    requires limit { B.room below.now ≤ 200 }
    requires sound { B.sound below.now }
    requires inner_limit { C.room inner.now ≤ 200 }
    requires inner_sound { C.sound inner.now }
    ensures { Gives (λ x. (declaration_form_of x.0, x.1.now)) result (take_mixin in_core (lower (B.room below.now)) (lower (C.room inner.now)) tokens.now) }
{
    let (_, rest) = token(tokens, Kind::Mixin).ok_or(Miss::NoReading)?;
    let (name, rest) = type_word(rest).ok_or(Miss::NoReading)?;
    let (parameters, _, rest) = some_type_parameters(below, alloc, rest)?;
    let (constraints, rest) = some_types_behind(below, alloc, Kind::On, rest)?;
    let (interfaces, rest) = some_types_behind(below, alloc, Kind::Implements, rest)?;
    let (_, members, rest) = member_list(inner, alloc, in_core, None, rest)?;
    let form = DeclarationForm::Mixin {
        name,
        type_parameters: listed_type_parameters(alloc, parameters),
        constraints: listed_types(alloc, constraints),
        interfaces: listed_types(alloc, interfaces),
        members,
    };
    Ok((form, rest))
}

/// Another name for a type.
#[tactic(auto, unfolding(grammar::specs::DeclarationDescents::take_alias))]
fn type_alias<'k, B: Below<'k>>(
    below: &B,
    alloc: Global,
    tokens: &'k [Token],
) -> Result<(DeclarationForm, &'k [Token]), Miss>
    requires limit { B.room below.now ≤ 200 }
    requires sound { B.sound below.now }
    ensures { Gives (λ x. (declaration_form_of x.0, x.1.now)) result (take_alias (lower (B.room below.now)) tokens.now) }
{
    let (_, rest) = token(tokens, Kind::Typedef).ok_or(Miss::NoReading)?;
    let (name, rest) = type_word(rest).ok_or(Miss::NoReading)?;
    let (_, rest) = token(rest, Kind::Equals).ok_or(Miss::NoReading)?;
    let (written, _, rest) = below.written(alloc, rest)?;
    let (_, rest) = token(rest, Kind::Semicolon).ok_or(Miss::NoReading)?;
    Ok((DeclarationForm::TypeAlias { name, written }, rest))
}

/// A function or variables as a declaration.
fn plain_form(found: FunctionOrVariables) -> DeclarationForm
    ensures { declaration_form_of result ≡ plain_with of_function of_variables found }
{
    match found {
        FunctionOrVariables::Function { function } => DeclarationForm::Function { function },
        FunctionOrVariables::Variables { variables } => DeclarationForm::Variables { variables },
    }
}

/// A function or variables of a library.
#[tactic(auto, using(crate::proofs::PlainDeclarations::plain_declaration_missing))]
fn plain_declaration<'k, B: Below<'k>>(
    below: &B,
    alloc: Global,
    in_core: bool,
    tokens: &'k [Token],
) -> Result<(DeclarationForm, &'k [Token]), Miss>
    requires limit { B.room below.now ≤ 200 }
    requires sound { B.sound below.now }
    ensures { Gives (λ x. (declaration_form_of x.0, x.1.now)) result (take_plain_declaration in_core (lower (B.room below.now)) tokens.now) }
{
    let bodies = Bodies {
        in_core,
        without_body: false,
    };
    let (found, rest) = function_or_variables(below, alloc, bodies, tokens)?;
    Ok((plain_form(found), rest))
}

/// A declaration without the annotations before it.
fn declaration_form<'k, B: Below<'k>, C: Below<'k>>(
    below: &B,
    inner: &C,
    alloc: Global,
    in_core: bool,
    tokens: &'k [Token],
) -> Result<(DeclarationForm, &'k [Token]), Miss>
    requires limit { B.room below.now ≤ 200 }
    requires sound { B.sound below.now }
    requires inner_limit { C.room inner.now ≤ 200 }
    requires inner_sound { C.sound inner.now }
    ensures { Gives (λ x. (declaration_form_of x.0, x.1.now)) result
        (take_where heads_class (take_class in_core (lower (B.room below.now)) (lower (C.room inner.now)))
        (take_where (heads_word (is Kind.Mixin)) (take_mixin in_core (lower (B.room below.now)) (lower (C.room inner.now)))
        (take_where (heads_word (is Kind.Typedef)) (take_alias (lower (B.room below.now))) (take_plain_declaration in_core (lower (B.room below.now))))) tokens.now) }
{
    if heads_class(tokens) {
        class(below, inner, alloc, in_core, tokens)
    } else if heads_word(tokens, Kind::Mixin) {
        mixin(below, inner, alloc, in_core, tokens)
    } else if heads_word(tokens, Kind::Typedef) {
        type_alias(below, alloc, tokens)
    } else {
        plain_declaration(below, alloc, in_core, tokens)
    }
}

/// A declaration that was read from `tokens`, where `rest` is left.
fn declaration_with(
    alloc: Global,
    tokens: &[Token],
    rest: &[Token],
    metadata: Vec<Annotation>,
    form: DeclarationForm,
) -> Result<Item, AllocError>
    ensures { IfOk result (λ x. x ≡ declaration_with (tokens_read tokens.now rest.now) metadata.items (declaration_form_of form)) }
{
    let at = place_over(tokens, rest);
    let node = match form {
        DeclarationForm::Class {
            is_abstract,
            name,
            type_parameters,
            superclass,
            mixins,
            interfaces,
            members,
        } => ReadItem::Class {
            at,
            metadata,
            is_abstract,
            name: name_at(name),
            type_parameters,
            superclass,
            mixins,
            interfaces,
            members,
        },
        DeclarationForm::Mixin {
            name,
            type_parameters,
            constraints,
            interfaces,
            members,
        } => ReadItem::Mixin {
            at,
            metadata,
            name: name_at(name),
            type_parameters,
            constraints,
            interfaces,
            members,
        },
        DeclarationForm::TypeAlias { name, written } => ReadItem::TypeAlias {
            at,
            metadata,
            name: name_at(name),
            written,
        },
        DeclarationForm::Function { function } => ReadItem::Function {
            at,
            metadata,
            function,
        },
        DeclarationForm::Variables { variables } => ReadItem::Variables {
            at,
            metadata,
            variables,
        },
    };
    let node = ItemNode::Read(Box::new(alloc, node)?);
    Ok(Item { node })
}

/// A declaration of a library: `below` reads the parts of its node, and `inner` those of its members.
#[tactic(auto, unfolding(grammar::specs::DeclarationDescents::take_declaration))]
pub fn declaration<'k, B: Below<'k>, C: Below<'k>>(
    below: &B,
    inner: &C,
    alloc: Global,
    in_core: bool,
    tokens: &'k [Token],
) -> Result<(Item, &'k [Token]), Miss>
    requires limit { B.room below.now ≤ 200 }
    requires sound { B.sound below.now }
    requires inner_limit { C.room inner.now ≤ 200 }
    requires inner_sound { C.sound inner.now }
    ensures { Gives (λ x. (x.0, x.1.now)) result (take_declaration in_core (lower (B.room below.now)) (lower (C.room inner.now)) tokens.now) }
{
    let (metadata, rest) = annotations(alloc, tokens)?;
    let (form, rest) = declaration_form(below, inner, alloc, in_core, rest)?;
    let found = declaration_with(alloc, tokens, rest, metadata, form)?;
    Ok((found, rest))
}
