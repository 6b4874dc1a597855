//! Members of classes and mixins.

ghost use Rattle.std.specs.Prelude.{◌≡◌, ◌≤◌, Some, IfOk};
ghost use Rattle.readings.specs.Readings.{tokens_read};
ghost use Rattle.readings.specs.Descent.{take_inside, take_items, all_items, ◌⊘◌};
ghost use Rattle.grammar.specs.Tokens.{is, width, past};
ghost use Rattle.grammar.specs.Statements.{segment, error_of};
ghost use Rattle.grammar.specs.Declarations.{begins_static, heads_static, method, fields, member_with};
ghost use Rattle.grammar.specs.Descents.{lower};
ghost use Rattle.grammar.specs.DeclarationDescents.{take_constructor, take_factory, take_operator_member, take_plain_member, take_static_member, take_member, take_members};
ghost use Rattle.parse_leaves.specs.Answers.{Gives};
ghost use Rattle.parse_leaves.specs.Parts.{IsPartDeep};
ghost use Rattle.parse_expr.specs.Items.{item_of};
ghost use Rattle.parse_members.specs.Behind.{take_named};
ghost use Rattle.parse_members.specs.Parts.{member_form_of};
ghost use Rattle.parse_members.specs.Plain.{plain_with};

use crate::constructors::{constructor, factory};
use crate::operators::operator_rest;
use crate::parts::{Bodies, FunctionOrVariables, MemberForm};
use crate::plain::function_or_variables_behind;
use dart_tokens::Kind;
use dart_tree::{Annotation, Member, MemberNode, ReadMember, WrittenType};
use grammar::Token;
use parse_expr::behind_segment;
use parse_leaves::{Below, Miss, group, heads, place_over, token};
use parse_statements::some_name_type;
use parse_types::annotations;
use std::alloc::{AllocError, Global};

/// This token comes behind `static`, where that isn't a member's name.
fn begins_static(token: Token) -> bool
    ensures { result ≡ begins_static token }
{
    token.kind.is_identifier()
        || token.kind == Kind::Final
        || token.kind == Kind::Var
        || token.kind == Kind::Void
}

/// `static` comes next, and isn't the member's name.
fn heads_static(tokens: &[Token]) -> bool
    ensures { result ≡ heads_static tokens.now }
{
    match tokens.split_first() {
        Some((first, rest)) => {
            first.kind == Kind::Static
                && match rest.split_first() {
                    Some((second, _)) => begins_static(*second),
                    None => false,
                }
        }
        None => false,
    }
}

/// A function or variables as a member of a class.
fn plain_form(is_static: bool, found: FunctionOrVariables) -> MemberForm
    ensures { member_form_of result ≡ plain_with (method is_static) (fields is_static) found }
{
    match found {
        FunctionOrVariables::Function { function } => MemberForm::Method {
            is_static,
            function,
        },
        FunctionOrVariables::Variables { variables } => MemberForm::Fields {
            is_static,
            variables,
        },
    }
}

/// A function or variables of a class, behind the type that was read where they start.
#[tactic(auto, using(crate::proofs::PlainMembers::plain_member_missing))]
fn plain_member_behind<'k, B: Below<'k>>(
    below: &B,
    alloc: Global,
    is_static: bool,
    bodies: Bodies,
    start: &'k [Token],
    written: Option<WrittenType>,
    reach: u32,
    tokens: &'k [Token],
) -> Result<(MemberForm, &'k [Token]), Miss>
    requires limit { B.room below.now ≤ 200 }
    requires sound { B.sound below.now }
    requires read { take_named (lower (B.room below.now)) start.now ≡ Some (written, tokens.now) }
    requires known { IsPartDeep (B.room below.now) written reach }
    ensures { Gives (λ x. (member_form_of x.0, x.1.now)) result (take_plain_member bodies.in_core is_static bodies.without_body (lower (B.room below.now)) start.now) }
{
    let (found, rest) = function_or_variables_behind(
        below, alloc, bodies, start, written, reach, tokens,
    )?;
    Ok((plain_form(is_static, found), rest))
}

/// A function or variables of a class.
fn plain_member<'k, B: Below<'k>>(
    below: &B,
    alloc: Global,
    is_static: bool,
    bodies: Bodies,
    tokens: &'k [Token],
) -> Result<(MemberForm, &'k [Token]), Miss>
    requires limit { B.room below.now ≤ 200 }
    requires sound { B.sound below.now }
    ensures { Gives (λ x. (member_form_of x.0, x.1.now)) result (take_plain_member bodies.in_core is_static bodies.without_body (lower (B.room below.now)) tokens.now) }
{
    let (written, reach, rest) = some_name_type(below, alloc, tokens)?;
    plain_member_behind(
        below, alloc, is_static, bodies, tokens, written, reach, rest,
    )
}

/// A function or variables of a class, `static` or not, behind the type that was read where they
/// start.
#[tactic(auto, unfolding(grammar::specs::DeclarationDescents::take_static_member))]
fn static_member_behind<'k, B: Below<'k>>(
    below: &B,
    alloc: Global,
    in_core: bool,
    start: &'k [Token],
    written: Option<WrittenType>,
    reach: u32,
    tokens: &'k [Token],
) -> Result<(MemberForm, &'k [Token]), Miss>
    requires limit { B.room below.now ≤ 200 }
    requires sound { B.sound below.now }
    requires read { take_named (lower (B.room below.now)) start.now ≡ Some (written, tokens.now) }
    requires known { IsPartDeep (B.room below.now) written reach }
    ensures { Gives (λ x. (member_form_of x.0, x.1.now)) result (take_static_member in_core (lower (B.room below.now)) start.now) }
{
    if heads_static(start) {
        let (_, rest) = token(start, Kind::Static).ok_or(Miss::NoReading)?;
        let bodies = Bodies {
            in_core,
            without_body: false,
        };
        plain_member(below, alloc, true, bodies, rest)
    } else {
        let bodies = Bodies {
            in_core,
            without_body: true,
        };
        plain_member_behind(below, alloc, false, bodies, start, written, reach, tokens)
    }
}

/// An operator of a class, behind the type that was read where it starts, or else a function or
/// variables, which may be named `operator`.
#[tactic(auto, using(crate::proofs::OperatorMembers::operator_found, crate::proofs::OperatorMembers::operator_missing))]
fn operator_or_named<'k, B: Below<'k>>(
    below: &B,
    alloc: Global,
    in_core: bool,
    start: &'k [Token],
    written: Option<WrittenType>,
    reach: u32,
    tokens: &'k [Token],
) -> Result<(MemberForm, &'k [Token]), Miss>
    requires limit { B.room below.now ≤ 200 }
    requires sound { B.sound below.now }
    requires read { take_named (lower (B.room below.now)) start.now ≡ Some (written, tokens.now) }
    requires known { IsPartDeep (B.room below.now) written reach }
    ensures { Gives (λ x. (member_form_of x.0, x.1.now)) result
        ((take_operator_member in_core (lower (B.room below.now)) ⊘ take_static_member in_core (lower (B.room below.now))) start.now) }
{
    match operator_rest(below, alloc, in_core, tokens) {
        Ok(((name, parameters, body), rest)) => {
            let found = MemberForm::Operator {
                result: written,
                name,
                parameters,
                body,
            };
            Ok((found, rest))
        }
        Err(Miss::NoReading) => {
            static_member_behind(below, alloc, in_core, start, written, reach, tokens)
        }
        Err(Miss::Memory) => Err(Miss::Memory),
    }
}

/// An operator of a class, or else a function or variables.
#[tactic(auto, using(crate::proofs::OperatorMembers::operator_elsewhere))]
fn member_without_constructors<'k, B: Below<'k>>(
    below: &B,
    alloc: Global,
    in_core: bool,
    tokens: &'k [Token],
) -> Result<(MemberForm, &'k [Token]), Miss>
    requires limit { B.room below.now ≤ 200 }
    requires sound { B.sound below.now }
    ensures { Gives (λ x. (member_form_of x.0, x.1.now)) result
        ((take_operator_member in_core (lower (B.room below.now)) ⊘ take_static_member in_core (lower (B.room below.now))) tokens.now) }
{
    let (written, reach, rest) = some_name_type(below, alloc, tokens)?;
    if heads(rest, Kind::Operator) {
        return operator_or_named(below, alloc, in_core, tokens, written, reach, rest);
    }
    static_member_behind(below, alloc, in_core, tokens, written, reach, rest)
}

/// A factory, or else a member that is no constructor.
fn member_without_name<'k, B: Below<'k>>(
    below: &B,
    alloc: Global,
    in_core: bool,
    class: Option<u32>,
    tokens: &'k [Token],
) -> Result<(MemberForm, &'k [Token]), Miss>
    requires limit { B.room below.now ≤ 200 }
    requires sound { B.sound below.now }
    ensures { Gives (λ x. (member_form_of x.0, x.1.now)) result
        ((take_factory in_core class (lower (B.room below.now)) ⊘ take_operator_member in_core (lower (B.room below.now))
        ⊘ take_static_member in_core (lower (B.room below.now))) tokens.now) }
{
    match factory(below, alloc, in_core, class, tokens) {
        Ok((found, rest)) => Ok((found, rest)),
        Err(Miss::NoReading) => member_without_constructors(below, alloc, in_core, tokens),
        Err(Miss::Memory) => Err(Miss::Memory),
    }
}

/// A member without the annotations before it.
fn member_form<'k, B: Below<'k>>(
    below: &B,
    alloc: Global,
    in_core: bool,
    class: Option<u32>,
    tokens: &'k [Token],
) -> Result<(MemberForm, &'k [Token]), Miss>
    requires limit { B.room below.now ≤ 200 }
    requires sound { B.sound below.now }
    ensures { Gives (λ x. (member_form_of x.0, x.1.now)) result
        ((take_constructor class (lower (B.room below.now)) ⊘ take_factory in_core class (lower (B.room below.now))
        ⊘ take_operator_member in_core (lower (B.room below.now)) ⊘ take_static_member in_core (lower (B.room below.now))) tokens.now) }
{
    match constructor(below, alloc, class, tokens) {
        Ok((found, rest)) => Ok((found, rest)),
        Err(Miss::NoReading) => member_without_name(below, alloc, in_core, class, tokens),
        Err(Miss::Memory) => Err(Miss::Memory),
    }
}

/// A member that was read from `tokens`, where `rest` is left.
fn member_with(
    alloc: Global,
    tokens: &[Token],
    rest: &[Token],
    metadata: Vec<Annotation>,
    form: MemberForm,
) -> Result<Member, AllocError>
    ensures { IfOk result (λ x. x ≡ member_with (tokens_read tokens.now rest.now) metadata.items (member_form_of form)) }
{
    let at = place_over(tokens, rest);
    let node = match form {
        MemberForm::Constructor {
            name,
            parameters,
            initializers,
            body,
        } => ReadMember::Constructor {
            at,
            metadata,
            name,
            parameters,
            initializers,
            body,
        },
        MemberForm::Factory {
            name,
            parameters,
            body,
        } => ReadMember::Factory {
            at,
            metadata,
            name,
            parameters,
            body,
        },
        MemberForm::Method {
            is_static,
            function,
        } => ReadMember::Method {
            at,
            metadata,
            is_static,
            function,
        },
        MemberForm::Fields {
            is_static,
            variables,
        } => ReadMember::Fields {
            at,
            metadata,
            is_static,
            variables,
        },
        MemberForm::Operator {
            result,
            name,
            parameters,
            body,
        } => ReadMember::Operator {
            at,
            metadata,
            result,
            name,
            parameters,
            body,
        },
    };
    let node = MemberNode::Read(Box::new(alloc, node)?);
    Ok(Member { node })
}

/// A member of a class whose constructors have this name, or of a mixin, which has none.
#[tactic(auto, unfolding(grammar::specs::DeclarationDescents::take_member))]
fn member<'k, B: Below<'k>>(
    below: &B,
    alloc: Global,
    in_core: bool,
    class: Option<u32>,
    tokens: &'k [Token],
) -> Result<(Member, &'k [Token]), Miss>
    requires limit { B.room below.now ≤ 200 }
    requires sound { B.sound below.now }
    ensures { Gives (λ x. (x.0, x.1.now)) result (take_member in_core class (lower (B.room below.now)) tokens.now) }
{
    let (metadata, rest) = annotations(alloc, tokens)?;
    let (form, rest) = member_form(below, alloc, in_core, class, rest)?;
    let found = member_with(alloc, tokens, rest, metadata, form)?;
    Ok((found, rest))
}

/// An error over the tokens before others.
fn error(tokens: &[Token], after: &[Token]) -> Member
    ensures { result ≡ error_of (tokens_read tokens.now after.now) }
{
    let at = place_over(tokens, after);
    let node = MemberNode::Error { at };
    Member { node }
}

/// The member that comes next, or an error over the segment that does, and the tokens that are left.
#[tactic(auto, using(parse_expr::specs::ItemLaws::item_missing))]
fn member_item<'k, B: Below<'k>>(
    below: &B,
    alloc: Global,
    in_core: bool,
    class: Option<u32>,
    tokens: &'k [Token],
) -> Result<(Member, &'k [Token]), AllocError>
    requires limit { B.room below.now ≤ 200 }
    requires sound { B.sound below.now }
    ensures { IfOk result (λ x. item_of (take_member in_core class (lower (B.room below.now))) tokens.now ≡ (x.0, x.1.now)) }
{
    match member(below, alloc, in_core, class, tokens) {
        Ok((found, rest)) => Ok((found, rest)),
        Err(Miss::NoReading) => {
            let after = behind_segment(tokens);
            Ok((error(tokens, after), after))
        }
        Err(Miss::Memory) => Err(AllocError),
    }
}

/// The members of these tokens, with an error wherever none can be read.
#[tactic(auto, using(parse_expr::specs::ItemLaws::list_out, parse_expr::specs::ItemLaws::list_end, parse_expr::specs::ItemLaws::list_goes))]
fn member_items<'k, B: Below<'k>>(
    below: &B,
    alloc: Global,
    in_core: bool,
    class: Option<u32>,
    tokens: &'k [Token],
) -> Result<Vec<Member>, AllocError>
    requires limit { B.room below.now ≤ 200 }
    requires sound { B.sound below.now }
    ensures { IfOk result (λ list. list.items ≡ all_items (take_member in_core class (lower (B.room below.now))) segment error_of tokens.now) }
{
    let mut list = Vec::new(alloc);
    let mut rest = tokens;
    let mut more = tokens.len();
    while more > 0 {
        let Some((_first, _behind)) = rest.split_first() else {
            return Ok(list);
        };
        let (next, after) = member_item(below, alloc, in_core, class, rest)?;
        list.push(next)?;
        rest = after;
        more -= 1;
    }
    Ok(list)
}

/// The braces of a class or a mixin, with the members between them.
#[tactic(auto, using(parse_leaves::specs::Groups::inside_outside, parse_leaves::specs::Groups::inside_items))]
pub fn member_list<'k, B: Below<'k>>(
    below: &B,
    alloc: Global,
    in_core: bool,
    class: Option<u32>,
    tokens: &'k [Token],
) -> Result<(Token, Vec<Member>, &'k [Token]), Miss>
    requires limit { B.room below.now ≤ 200 }
    requires sound { B.sound below.now }
    ensures { Gives (λ x. ((x.0, x.1.items), x.2.now)) result (take_members in_core class (lower (B.room below.now)) tokens.now) }
{
    let Some((opening, inside, rest)) = group(tokens, Kind::OpenBrace) else {
        return Err(Miss::NoReading);
    };
    let list = member_items(below, alloc, in_core, class, inside)?;
    Ok((opening, list, rest))
}
