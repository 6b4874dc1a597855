//! The unit of a text.

ghost use Rattle.std.specs.Prelude.{◌≡◌, ◌^◌, ◌<◌, ◌≤◌, length, IfOk, OnOk, OnErr};
ghost use Rattle.std.specs.List.Sorted.{IsNonDecreasingBy};
ghost use Rattle.dart_tokens.specs.Groups.{faults_of as faults_of_groups};
ghost use Rattle.dart_scan.specs.Scanned.{tokens_of, words_of, faults_of};
ghost use Rattle.grammar.specs.Tokens.{grammar_tokens};
ghost use Rattle.dart_text.specs.Edits.{max_text};
ghost use Rattle.dart_tree.specs.Numbers.{nodes_in, numbered};
ghost use Rattle.grammar.specs.Whole.{unit_of};
ghost use Rattle.work_counts.specs.Counts.{raised};
ghost use Rattle.work_counts.specs.declared.kind.WorkKind.TheVariants.{Parse};

use dart_scan::{GroupedText, scan_grouped, tokens_rise};
use dart_text::Text;
use dart_tokens::Tokens;
use dart_tree::{Unit, UnitTree};
use grammar::Token;
use node_counts::nodes_of_texts_are_bounded;
use parse_decl::parse_items;
use std::alloc::{AllocError, Global};
use tree_numbers::number_unit;
use work_counts::{Work, WorkKind};

/// The tokens that the grammar reads of a text stand in the order of their starts.
fn order_law(text: &Text, tokens: &[Token])
    requires { tokens.now ≡ grammar_tokens (tokens_of text.now) }
    ensures { IsNonDecreasingBy (λ t. t.start) tokens.now }
{
    tokens_rise(text.as_str().as_bytes());
}

/// The tokens of a text with their groups, its words, and what is wrong with them: there are no more
/// tokens than the text may have bytes.
fn scanned(alloc: Global, text: &Text) -> Result<GroupedText, AllocError>
    ensures tokens { IfOk result (λ read. read.tokens ≡ tokens_of text.now) }
    ensures groups { IfOk result (λ read. read.group_faults ≡ faults_of_groups (tokens_of text.now)) }
    ensures words { IfOk result (λ read. read.words ≡ words_of text.now) }
    ensures faults { IfOk result (λ read. read.lexical_faults ≡ faults_of text.now) }
    ensures few { IfOk result (λ read. length read.tokens ≤ max_text) }
{
    let _short = text.as_str();
    scan_grouped(alloc, text)
}

/// The tokens of a text as the grammar reads them: each with the size of the group that it opens.
#[tactic(auto, using(crate::proofs::Order::read_few))]
pub(crate) fn read_tokens<'t>(text: &Text, tokens: &'t Tokens) -> &'t [Token]
    requires few { length tokens.now < 2 ^ 32 }
    requires text { tokens.now ≡ tokens_of text.now }
    ensures read { result.now ≡ grammar_tokens (tokens_of text.now) }
    ensures few { length result.now < 2 ^ 32 }
    ensures ordered { IsNonDecreasingBy (λ t. t.start) result.now }
{
    let read = tokens.read();
    order_law(text, read);
    read
}

/// The tree of a text has fewer nodes than there are numbers for them.
fn few_nodes(text: &Text, in_core: bool, tokens: &Tokens, tree: &UnitTree)
    requires tokens { tokens.now ≡ tokens_of text.now }
    requires few { length tokens.now ≤ max_text }
    requires tree { tree.now ≡ unit_of in_core (grammar_tokens (tokens_of text.now)) }
    ensures { nodes_in tree.now < 2 ^ 32 }
{
    tokens_rise(text.as_str().as_bytes());
    nodes_of_texts_are_bounded();
}

/// The unit of a text: its tree, with an error over each segment that derives nothing, and what the tree
/// leaves out. Nodes are numbered in reading order, from 0. `in_core` is true for the text of `dart:core` alone, where a body may be `native;`. It
/// counts as one text parsed. The error is want of memory, and counts as nothing.
pub fn parse_unit(
    alloc: Global,
    text: &Text,
    in_core: bool,
    work: &mut Work,
) -> Result<Unit, AllocError>
    ensures tree { IfOk result (λ unit. unit.tree ≡ numbered 0 (unit_of in_core (grammar_tokens (tokens_of text.now)))) }
    ensures tokens { IfOk result (λ unit. unit.tokens ≡ tokens_of text.now) }
    ensures few { IfOk result (λ unit. length unit.tokens < 2 ^ 32) }
    ensures words { IfOk result (λ unit. unit.words ≡ words_of text.now) }
    ensures lexical { IfOk result (λ unit. unit.lexical_faults ≡ faults_of text.now) }
    ensures groups { IfOk result (λ unit. unit.group_faults ≡ faults_of_groups (tokens_of text.now)) }
    ensures counted { OnOk result (work.new ≡ raised Parse work.old) }
    ensures uncounted { OnErr result (work.new ≡ work.old) }
{
    let read = scanned(alloc, text)?;
    let mut tree = parse_items(alloc, in_core, read_tokens(text, &read.tokens))?;
    few_nodes(text, in_core, &read.tokens, &tree);
    number_unit(&mut tree);
    work.raise(WorkKind::Parse);
    Ok(Unit {
        tree,
        tokens: read.tokens,
        words: read.words,
        lexical_faults: read.lexical_faults,
        group_faults: read.group_faults,
    })
}
