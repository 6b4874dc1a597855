//! Diagnostics of lexemes, groups and segments, and of what isn't built.

ghost use Rattle.std.specs.Prelude.{◌≡◌, ◌++◌, map, IfOk, OnOk};
ghost use Rattle.check_library.specs.Diagnostics.{code_of_piece, fault_of_piece, code_of_group, span_at, fault_of_group, code_of_segment, fault_of_segment, not_built};

use dart_parse::TreeFault;
use dart_tokens::{GroupFault, GroupFaultKind, LexFault, LexFaultKind, Token, Tokens};
use dart_tree::Span;
use judgement::{DiagnosticCode, Fault};
use segment_faults::SegmentFault;
use std::alloc::{AllocError, Global};

fn code_of_piece(kind: LexFaultKind) -> DiagnosticCode
    ensures { result ≡ code_of_piece kind }
{
    match kind {
        LexFaultKind::UnterminatedComment => DiagnosticCode::UnterminatedComment,
        LexFaultKind::UnterminatedString => DiagnosticCode::UnterminatedString,
        LexFaultKind::BadEscape => DiagnosticCode::BadEscape,
        LexFaultKind::IllegalCharacter => DiagnosticCode::IllegalCharacter,
        LexFaultKind::ProfileIdentifier => DiagnosticCode::ProfileIdentifier,
    }
}

fn fault_of_piece(fault: LexFault) -> Fault
    ensures { result ≡ fault_of_piece fault }
{
    Fault {
        span: Span {
            start: fault.start,
            end: fault.end,
        },
        code: code_of_piece(fault.kind),
    }
}

fn code_of_group(kind: GroupFaultKind) -> DiagnosticCode
    ensures { result ≡ code_of_group kind }
{
    match kind {
        GroupFaultKind::UnclosedGroup => DiagnosticCode::UnclosedGroup,
        GroupFaultKind::UnopenedGroup => DiagnosticCode::UnopenedGroup,
    }
}

/// Where the token at a place stands.
fn span_at(tokens: &[Token], place: u32) -> Span
    ensures { result ≡ span_at tokens.now place }
{
    match tokens.get(place as usize) {
        Some(token) => Span {
            start: token.start,
            end: token.end,
        },
        None => Span { start: 0, end: 0 },
    }
}

fn fault_of_group(tokens: &[Token], fault: GroupFault) -> Fault
    ensures { result ≡ fault_of_group tokens.now fault }
{
    Fault {
        span: span_at(tokens, fault.token),
        code: code_of_group(fault.kind),
    }
}

/// What is said of a segment that derives nothing.
fn code_of_segment(fault: SegmentFault) -> DiagnosticCode
    ensures { result ≡ code_of_segment fault }
{
    match fault {
        SegmentFault::Late => DiagnosticCode::ProfileLate,
        SegmentFault::External => DiagnosticCode::ProfileExternal,
        SegmentFault::Covariant => DiagnosticCode::ProfileCovariant,
        SegmentFault::Const => DiagnosticCode::ProfileConst,
        SegmentFault::Enum => DiagnosticCode::ProfileEnum,
        SegmentFault::Extension => DiagnosticCode::ProfileExtension,
        SegmentFault::Assert => DiagnosticCode::ProfileAssert,
        SegmentFault::Deferred => DiagnosticCode::ProfileDeferred,
        SegmentFault::Async => DiagnosticCode::ProfileAsync,
        SegmentFault::Double => DiagnosticCode::ProfileDouble,
        SegmentFault::CollectionElement => DiagnosticCode::ProfileCollectionElement,
        SegmentFault::Symbol => DiagnosticCode::ProfileSymbol,
        SegmentFault::Annotation => DiagnosticCode::ProfileAnnotation,
        SegmentFault::TripleShift => DiagnosticCode::ProfileTripleShift,
        SegmentFault::ConditionalUri => DiagnosticCode::ProfileConditionalUri,
        SegmentFault::MixinApplication => DiagnosticCode::ProfileMixinApplication,
        SegmentFault::RedirectingFactory => DiagnosticCode::ProfileRedirectingFactory,
        SegmentFault::ContinueCase => DiagnosticCode::ProfileContinueCase,
        SegmentFault::Typedef => DiagnosticCode::ProfileTypedef,
        SegmentFault::Nesting => DiagnosticCode::ProfileNesting,
        SegmentFault::Syntax => DiagnosticCode::SyntaxError,
    }
}

fn fault_of_segment(found: TreeFault) -> Fault
    ensures { result ≡ fault_of_segment found }
{
    Fault {
        span: found.span,
        code: code_of_segment(found.fault),
    }
}

/// Adds what is wrong with the lexemes of a text and with what stands between them.
pub fn add_lexical(found: &[LexFault], faults: &mut Vec<Fault>) -> Result<(), AllocError>
    ensures { OnOk result (faults.new.items ≡ faults.old.items ++ map fault_of_piece found.now) }
{
    for fault in found {
        faults.push(fault_of_piece(*fault))?;
    }
    Ok(())
}

/// Adds what is wrong with the groups of these tokens.
fn add_groups(
    tokens: &[Token],
    found: &[GroupFault],
    faults: &mut Vec<Fault>,
) -> Result<(), AllocError>
    ensures { OnOk result (faults.new.items ≡ faults.old.items ++ map (fault_of_group tokens.now) found.now) }
{
    for fault in found {
        faults.push(fault_of_group(tokens, *fault))?;
    }
    Ok(())
}

/// Adds what is wrong with the groups of the tokens of a text, which are listed only where something is.
pub fn add_groups_of(
    alloc: Global,
    tokens: &Tokens,
    found: &[GroupFault],
    faults: &mut Vec<Fault>,
) -> Result<(), AllocError>
    ensures { OnOk result (faults.new.items ≡ faults.old.items ++ map (fault_of_group tokens.now) found.now) }
{
    if found.is_empty() {
        return Ok(());
    }
    let tokens = tokens.listed(alloc)?;
    add_groups(&tokens, found, faults)
}

/// Adds what is wrong with segments that derive nothing.
pub fn add_segments(found: &[TreeFault], faults: &mut Vec<Fault>) -> Result<(), AllocError>
    ensures { OnOk result (faults.new.items ≡ faults.old.items ++ map fault_of_segment found.now) }
{
    for fault in found {
        faults.push(fault_of_segment(*fault))?;
    }
    Ok(())
}

/// Adds that what stands at these places isn't checked yet.
pub fn add_not_built(spans: &[Span], faults: &mut Vec<Fault>) -> Result<(), AllocError>
    ensures { OnOk result (faults.new.items ≡ faults.old.items ++ map not_built spans.now) }
{
    for span in spans {
        let code = DiagnosticCode::NotBuilt;
        faults.push(Fault { span: *span, code })?;
    }
    Ok(())
}
