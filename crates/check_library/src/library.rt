//! The check of a library.

ghost use Rattle.std.specs.Prelude.{◌≡◌, ◌+◌, ◌*◌, ◌≤◌, ◌++◌, [], Some, false, length, map, option_map, IfOk, OnOk};
ghost use Rattle.std.specs.List.{list_any};
ghost use Rattle.std.specs.Option.{option_copied, option_map_or};
ghost use Rattle.dart_tokens.specs.Groups.{faults_of as faults_of_groups};
ghost use Rattle.dart_scan.specs.Scanned.{tokens_of, words_of, faults_of as faults_of_pieces};
ghost use Rattle.dart_text.specs.Edits.{max_text};
ghost use Rattle.grammar.specs.Tokens.{grammar_tokens};
ghost use Rattle.grammar.specs.Whole.{unit_of};
ghost use Rattle.dart_tree.specs.Numbers.{nodes_in};
ghost use Rattle.built_forms.specs.Laws.{IsBuiltBlock};
ghost use Rattle.built_forms.specs.Units.{built_main, has_main, has_other_names, meanings_in, unbuilt};
ghost use Rattle.core_rows.specs.CoreTable.{core_table};
ghost use Rattle.resolve.specs.Said.{kept};
ghost use Rattle.check_library.specs.Checked.{IsCheckOf, main_of_checked, typed_tree};
ghost use Rattle.check_library.specs.Diagnostics.{lexical_faults, segment_faults, is_undefined_code, settled, diagnostics, text_diagnostics};
ghost use Rattle.check_library.specs.Units.{unit_of_text, outside_of, judged_by};

use crate::faults::{add_groups_of, add_lexical, add_not_built, add_segments};
use crate::order::sorted;
use built_forms::{Forms, built_bodies_are_blocks, built_main, forms_of};
use core_rows::core_rows;
use dart_parse::{parse_unit, tree_faults};
use dart_scan::tokens_rise;
use dart_text::Text;
use dart_tree::{Body, BodyNode, Span, Unit};
use dart_types::Rows;
use judgement::{DiagnosticCode, Fault, Meaning, TypedNode};
use node_counts::nodes_of_texts_are_bounded;
use plain_text::PlainText;
use resolve::{Found, Keep, Said, judge_body};
use std::alloc::{AllocError, Global};
use std::marker::Model;
use tree_numbers::numbering_laws;
use work_counts::Work;

/// Diagnostics of a text, by offset, then length, then code, without repeats.
#[derive(Drop)]
pub struct Diagnostics {
    faults: Vec<Fault>,
}

impl Model for Diagnostics {
    ghost use Rattle.std.specs.Prelude.{List};
    ghost use Rattle.judgement.specs.declared.fault.Fault.{Fault};

    ghost Value = { List Fault };

    ghost view = { λ d. d.faults.items };
}

impl Diagnostics {
    /// The diagnostics themselves.
    pub fn as_slice(&self) -> &[Fault]
        ensures { result.now ≡ self.now }
    {
        self.faults.as_slice()
    }
}

/// A library that was checked.
#[derive(Drop)]
pub struct Checked {
    /// The path of its file.
    pub path: PlainText,
    /// Its unit: the tree of its text, whose nodes are numbered in reading order, and its words.
    pub unit: Unit,
    /// What its words mean, and what of it is of forms that are built.
    pub forms: Forms,
    /// The classes that it was judged with.
    pub rows: Rows,
    /// Its typed tree: what is said of each node of the body of its function `main`.
    pub typed: Vec<TypedNode>,
    /// What is wrong with its text.
    pub diagnostics: Diagnostics,
}

impl Checked {
    /// The body of its function `main`, if that is of forms that are built.
    pub fn main(&self) -> Option<&Body>
        ensures { option_copied result ≡ option_map (λ main. main.1) (main_of_checked self.now) }
    {
        let one = self.forms.has_main;
        let outside = self.forms.outside.as_slice();
        let words = self.unit.words.as_slice();
        let (_, body) = built_main(outside, words, one, &self.unit.tree)?;
        Some(body)
    }
}

/// A text whose diagnostics were asked for, and no more.
#[derive(Drop)]
pub struct Diagnosed {
    /// Its unit: its tree, whose nodes are numbered in reading order, and its words.
    pub unit: Unit,
    /// What is wrong with it.
    pub diagnostics: Diagnostics,
}

/// A text whose function `main` was judged.
#[derive(Drop)]
struct JudgedText {
    unit: Unit,
    forms: Forms,
    rows: Rows,
    nodes: Said,
    diagnostics: Diagnostics,
}

/// A text has no more tokens than bytes.
fn few_tokens(text: &Text)
    ensures { length (tokens_of text.now) ≤ max_text }
{
    let _bounded = text.as_str();
}

/// The tree of a text has at most sixteen nodes for each token, and one for the whole.
fn few_nodes(text: &Text)
    ensures { nodes_in (unit_of false (grammar_tokens (tokens_of text.now))) ≤ 16 * length (tokens_of text.now) + 1 }
{
    tokens_rise(text.as_str().as_bytes());
    nodes_of_texts_are_bounded();
}

/// So has the tree whose nodes are numbered.
fn few_numbers(text: &Text)
    ensures { nodes_in (unit_of_text text.now) ≤ 16 * length (tokens_of text.now) + 1 }
{
    few_nodes(text);
    numbering_laws();
}

/// The unit of a text, with few enough nodes for their numbers.
#[tactic(auto, unfolding(crate::specs::Units::unit_of_text))]
fn parsed(alloc: Global, text: &Text) -> Result<Unit, AllocError>
    ensures tree { IfOk result (λ unit. unit.tree ≡ unit_of_text text.now) }
    ensures tokens { IfOk result (λ unit. unit.tokens ≡ tokens_of text.now) }
    ensures words { IfOk result (λ unit. unit.words ≡ words_of text.now) }
    ensures lexical { IfOk result (λ unit. unit.lexical_faults ≡ faults_of_pieces text.now) }
    ensures groups { IfOk result (λ unit. unit.group_faults ≡ faults_of_groups (tokens_of text.now)) }
{
    let mut work = Work::new();
    parse_unit(alloc, text, false, &mut work)
}

/// Whether one of these says that a name means nothing.
fn has_undefined_name(faults: &[Fault]) -> bool
    ensures { result ≡ list_any (λ fault. is_undefined_code fault.code) faults.now }
{
    for fault in faults {
        if is_undefined(fault.code) {
            return true;
        }
    }
    false
}

/// Whether a code says that a name means nothing.
fn is_undefined(code: DiagnosticCode) -> bool
    ensures { result ≡ is_undefined_code code }
{
    code == DiagnosticCode::UndefinedName
}

/// Adds what is wrong with a function that stands there, in which these are the faults.
fn add_settled(
    other_names: bool,
    span: Span,
    found: &[Fault],
    faults: &mut Vec<Fault>,
) -> Result<(), AllocError>
    ensures { OnOk result (faults.new.items ≡ faults.old.items ++ settled other_names span found.now) }
{
    if other_names && has_undefined_name(found) {
        return add_not_built(&[span], faults);
    }
    faults.extend_from_slice(found)?;
    Ok(())
}

/// Judges a body that is built: it is a block.
fn judged_body(
    alloc: Global,
    rows: &Rows,
    words: &[PlainText],
    outside: &[Meaning],
    body: &Body,
    keep: Keep,
) -> Result<Found, AllocError>
    requires { IsBuiltBlock outside.now body.now }
    ensures faults { IfOk result (λ found. found.faults.items ≡ (judged_by rows.now.table words.now outside.now body.now).faults) }
    ensures nodes { IfOk result (λ found. found.nodes ≡ kept keep (judged_by rows.now.table words.now outside.now body.now).nodes) }
{
    let BodyNode::Block { at, statements } = &body.node else {
        unreachable!()
    };
    judge_body(alloc, rows, words, outside, *at, statements, keep)
}

/// Judges the function `main` of a unit, if that is built: adds what is wrong with it, and answers what
/// is said of the nodes of its body, if that is kept.
fn judged(
    alloc: Global,
    rows: &Rows,
    unit: &Unit,
    forms: &Forms,
    keep: Keep,
    faults: &mut Vec<Fault>,
) -> Result<Said, AllocError>
    requires outside { forms.now.outside.items ≡ meanings_in unit.now.words unit.now.tree }
    requires one { forms.now.has_main ≡ has_main unit.now.words unit.now.tree }
    ensures faults { OnOk result (faults.new.items ≡ faults.old.items ++ option_map_or (λ main. settled forms.now.has_other_names main.0 (judged_by rows.now.table unit.now.words forms.now.outside.items main.1).faults) (built_main unit.now.words unit.now.tree) []) }
    ensures nodes { IfOk result (λ nodes. nodes ≡ kept keep (option_map_or (λ main. (judged_by rows.now.table unit.now.words forms.now.outside.items main.1).nodes) (built_main unit.now.words unit.now.tree) [])) }
{
    built_bodies_are_blocks();
    let words = unit.words.as_slice();
    let outside = forms.outside.as_slice();
    match built_main(outside, words, forms.has_main, &unit.tree) {
        Some((span, body)) => {
            let found = judged_body(alloc, rows, words, outside, body, keep)?;
            add_settled(forms.has_other_names, span, found.faults.as_slice(), faults)?;
            Ok(found.nodes)
        }
        None => Ok(Said::new(alloc, keep)),
    }
}

/// What is wrong with the lexemes, the groups and the segments of a text.
fn tree_diagnostics(alloc: Global, text: &Text, unit: &Unit) -> Result<Vec<Fault>, AllocError>
    requires tree { unit.now.tree ≡ unit_of_text text.now }
    requires tokens { unit.now.tokens ≡ tokens_of text.now }
    requires lexical { unit.now.lexical_faults ≡ faults_of_pieces text.now }
    requires groups { unit.now.group_faults ≡ faults_of_groups (tokens_of text.now) }
    requires short { length (tokens_of text.now) ≤ max_text }
    ensures { IfOk result (λ faults. faults.items ≡ lexical_faults text.now ++ segment_faults text.now) }
{
    let mut faults = Vec::new(alloc);
    add_lexical(unit.lexical_faults.as_slice(), &mut faults)?;
    let groups = unit.group_faults.as_slice();
    add_groups_of(alloc, &unit.tokens, groups, &mut faults)?;
    let segments = tree_faults(alloc, text, unit)?;
    add_segments(segments.as_slice(), &mut faults)?;
    Ok(faults)
}

/// Reads a text and judges its function `main`: its unit, what that means, and what is wrong with it.
fn judge_text(alloc: Global, text: &Text, keep: Keep) -> Result<JudgedText, AllocError>
    ensures tree { IfOk result (λ judged. judged.unit.tree ≡ unit_of_text text.now) }
    ensures words { IfOk result (λ judged. judged.unit.words ≡ words_of text.now) }
    ensures outside { IfOk result (λ judged. judged.forms.outside.items ≡ outside_of text.now) }
    ensures one { IfOk result (λ judged. judged.forms.has_main ≡ has_main (words_of text.now) (unit_of_text text.now)) }
    ensures rows { IfOk result (λ judged. judged.rows.table ≡ core_table) }
    ensures nodes { IfOk result (λ judged. judged.nodes ≡ kept keep (typed_tree text.now)) }
    ensures diagnostics { IfOk result (λ judged. judged.diagnostics ≡ diagnostics text.now) }
{
    few_tokens(text);
    let unit = parsed(alloc, text)?;
    let forms = forms_of(alloc, unit.words.as_slice(), &unit.tree)?;
    let mut faults = tree_diagnostics(alloc, text, &unit)?;
    add_not_built(forms.unbuilt.as_slice(), &mut faults)?;
    let rows = core_rows(alloc)?;
    let nodes = judged(alloc, &rows, &unit, &forms, keep, &mut faults)?;
    let faults = sorted(alloc, faults)?;
    Ok(JudgedText {
        unit,
        forms,
        rows,
        nodes,
        diagnostics: Diagnostics { faults },
    })
}

/// Checks the library that the text of a file is.
pub fn check(alloc: Global, path: &str, text: &Text) -> Result<Checked, AllocError>
    ensures path { IfOk result (λ checked. checked.path ≡ path.now) }
    ensures check { IfOk result (λ checked. IsCheckOf text.now checked) }
    ensures diagnostics { IfOk result (λ checked. checked.diagnostics ≡ diagnostics text.now) }
{
    few_tokens(text);
    few_numbers(text);
    let judged = judge_text(alloc, text, Keep::NodesToo)?;
    let Some(typed) = judged.nodes.into_nodes() else {
        unreachable!()
    };
    let path = PlainText::new(alloc, path)?;
    Ok(Checked {
        path,
        unit: judged.unit,
        forms: judged.forms,
        rows: judged.rows,
        typed,
        diagnostics: judged.diagnostics,
    })
}

/// Checks a text for its diagnostics alone: what is said of the nodes of its function `main` isn't kept.
pub fn diagnose(alloc: Global, text: &Text) -> Result<Diagnosed, AllocError>
    ensures tree { IfOk result (λ diagnosed. diagnosed.unit.tree ≡ unit_of_text text.now) }
    ensures words { IfOk result (λ diagnosed. diagnosed.unit.words ≡ words_of text.now) }
    ensures diagnostics { IfOk result (λ diagnosed. diagnosed.diagnostics ≡ diagnostics text.now) }
{
    let judged = judge_text(alloc, text, Keep::FaultsAlone)?;
    Ok(Diagnosed {
        unit: judged.unit,
        diagnostics: judged.diagnostics,
    })
}

/// What is wrong with the lexemes, the groups and the segments of a text alone: its directives and
/// declarations aren't looked at.
#[tactic(auto, unfolding(crate::specs::Diagnostics::text_diagnostics))]
pub fn text_diagnostics(alloc: Global, text: &Text) -> Result<Diagnostics, AllocError>
    ensures { IfOk result (λ diagnostics. diagnostics ≡ text_diagnostics text.now) }
{
    few_tokens(text);
    let unit = parsed(alloc, text)?;
    let faults = tree_diagnostics(alloc, text, &unit)?;
    let faults = sorted(alloc, faults)?;
    Ok(Diagnostics { faults })
}
