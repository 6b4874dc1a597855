//! Members: `(constructor C.n (x) : (= x e) (super .n e) {..})`, `(factory C => e)`,
//! `(operator T + (x) {..})`; a function or fields as elsewhere, behind `static` where that is written.

use crate::declarations::marked;
use dart_tree::{
    ArgumentList, ConstructorName, DeclaredOperator, Identifier, Initializer, InitializerNode,
    Member, MemberNode, ReadMember,
};
use std::alloc::AllocError;
use tree_notation::{Pieces, arguments_of, body_of, function, parameters_of, variables};

/// Writes a member.
pub fn member<'t>(out: &mut Pieces<'t>, member: &'t Member) -> Result<(), AllocError> {
    out.range(member.place())?;
    let MemberNode::Read(node) = &member.node else {
        return out.text("(error)");
    };
    match &**node {
        ReadMember::Constructor { .. } => constructor(out, node),
        ReadMember::Factory { .. } => factory(out, node),
        ReadMember::Method { .. } => method(out, node),
        ReadMember::Fields { .. } => fields(out, node),
        ReadMember::Operator { .. } => operator_member(out, node),
    }
}

/// Writes the name of a constructor behind a blank.
fn constructor_name(out: &mut Pieces<'_>, name: &ConstructorName) -> Result<(), AllocError> {
    out.text(" ")?;
    out.range(name.at)?;
    out.word(name.class)?;
    if let Some(own) = &name.name {
        out.text(".")?;
        out.word(own.word)?;
    }
    Ok(())
}

/// Writes a constructor.
fn constructor<'t>(out: &mut Pieces<'t>, node: &'t ReadMember) -> Result<(), AllocError> {
    let ReadMember::Constructor {
        metadata,
        name,
        parameters,
        initializers,
        body,
        ..
    } = node
    else {
        return Ok(());
    };
    marked(out, metadata.as_slice())?;
    out.text("(constructor")?;
    constructor_name(out, name)?;
    parameters_of(out, parameters.parameters.as_slice())?;
    out.text_if(!initializers.is_empty(), " :")?;
    for each in initializers.iter() {
        initializer(out, each)?;
    }
    body_of(out, body)?;
    out.text(")")
}

/// Writes an entry of an initializer list behind a blank.
fn initializer<'t>(out: &mut Pieces<'t>, entry: &'t Initializer) -> Result<(), AllocError> {
    out.text(" ")?;
    match &entry.node {
        InitializerNode::Field { at, name, value } => {
            out.range(*at)?;
            out.text("(=")?;
            out.spaced_word(name.word)?;
            out.spaced_expression(value)?;
            out.text(")")
        }
        InitializerNode::Super {
            at,
            name,
            arguments,
        } => {
            out.range(*at)?;
            constructed(out, "(super", name, arguments)
        }
        InitializerNode::Redirection {
            at,
            name,
            arguments,
        } => {
            out.range(*at)?;
            constructed(out, "(this", name, arguments)
        }
    }
}

/// Writes what runs another constructor.
fn constructed<'t>(
    out: &mut Pieces<'t>,
    head: &'static str,
    name: &'t Option<Identifier>,
    arguments: &'t ArgumentList,
) -> Result<(), AllocError> {
    out.text(head)?;
    if let Some(name) = name {
        out.text(" .")?;
        out.word(name.word)?;
    }
    arguments_of(out, arguments)?;
    out.text(")")
}

/// Writes a factory.
fn factory<'t>(out: &mut Pieces<'t>, node: &'t ReadMember) -> Result<(), AllocError> {
    let ReadMember::Factory {
        metadata,
        name,
        parameters,
        body,
        ..
    } = node
    else {
        return Ok(());
    };
    marked(out, metadata.as_slice())?;
    out.text("(factory")?;
    constructor_name(out, name)?;
    parameters_of(out, parameters.parameters.as_slice())?;
    body_of(out, body)?;
    out.text(")")
}

/// Writes a function of a class.
fn method<'t>(out: &mut Pieces<'t>, node: &'t ReadMember) -> Result<(), AllocError> {
    let ReadMember::Method {
        metadata,
        is_static,
        function: declared,
        ..
    } = node
    else {
        return Ok(());
    };
    marked(out, metadata.as_slice())?;
    out.text_if(*is_static, "static ")?;
    function(out, declared)
}

/// Writes fields that are declared together.
fn fields<'t>(out: &mut Pieces<'t>, node: &'t ReadMember) -> Result<(), AllocError> {
    let ReadMember::Fields {
        metadata,
        is_static,
        variables: declared,
        ..
    } = node
    else {
        return Ok(());
    };
    marked(out, metadata.as_slice())?;
    out.text_if(*is_static, "static ")?;
    variables(out, declared)
}

/// Writes an operator.
fn operator_member<'t>(out: &mut Pieces<'t>, node: &'t ReadMember) -> Result<(), AllocError> {
    let ReadMember::Operator {
        metadata,
        result,
        name,
        parameters,
        body,
        ..
    } = node
    else {
        return Ok(());
    };
    marked(out, metadata.as_slice())?;
    out.text("(operator")?;
    out.optional_type(result)?;
    out.text(" ")?;
    out.range(name.at)?;
    out.text(operator_text(name.operator))?;
    parameters_of(out, parameters.parameters.as_slice())?;
    body_of(out, body)?;
    out.text(")")
}

/// An operator that a class declares, as it is written.
fn operator_text(operator: DeclaredOperator) -> &'static str {
    match operator {
        DeclaredOperator::Plus => "+",
        DeclaredOperator::Minus => "-",
        DeclaredOperator::Star => "*",
        DeclaredOperator::Slash => "/",
        DeclaredOperator::TildeSlash => "~/",
        DeclaredOperator::Percent => "%",
        DeclaredOperator::ShiftLeft => "<<",
        DeclaredOperator::ShiftRight => ">>",
        DeclaredOperator::Ampersand => "&",
        DeclaredOperator::Caret => "^",
        DeclaredOperator::Bar => "|",
        DeclaredOperator::Tilde => "~",
        DeclaredOperator::Less => "<",
        DeclaredOperator::LessOrEqual => "<=",
        DeclaredOperator::Greater => ">",
        DeclaredOperator::GreaterOrEqual => ">=",
        DeclaredOperator::Equal => "==",
        DeclaredOperator::Index => "[]",
        DeclaredOperator::IndexAssign => "[]=",
    }
}
