//! The tokens of a text.

ghost use Rattle.std.specs.Prelude.{◌≡◌, ◌+◌, ◌*◌, ◌^◌, ◌<◌, ◌≤◌, [], ◌∷◌, ◌++◌, All, IfOk, List, OnOk, drop, length, true, if◌then◌else◌};
ghost use Rattle.std.specs.Str.{IsAscii, IsUtf8};
ghost use Rattle.plain_text.specs.Units.{units_in};
ghost use Rattle.dart_tokens.specs.Groups.{faults_of as faults_of_groups};
ghost use Rattle.dart_scan.specs.Faults.{faults_of_piece};
ghost use Rattle.dart_scan.specs.Cutting.{size_of};
ghost use Rattle.dart_scan.specs.Pieces.{Spelled, spelled};
ghost use Rattle.dart_scan.specs.Scanned.{is_gap, lexemes_from, token_of, tokens_behind, with_word, words_behind, faults_from, tokens_of, words_of, faults_of};
ghost use Rattle.dart_scan.specs.StringTexts.{AreTexts};

use crate::cut::Cutting;
use crate::fault::push_faults;
use crate::kind::{is_gap, kind_of};
use crate::piece::{Class, Piece};
use crate::units::units_in;
use crate::words::Places;
use dart_text::Text;
use dart_tokens::{GroupFaults, LexFault, LexFaults, Scanned, TextTokens, Token, Tokens, Words};
use grouping::Grouping;
use std::alloc::{AllocError, Global};

/// What has been found in the pieces so far: tokens, words and faults.
#[derive(Drop)]
struct Found<'t> {
    tokens: Grouping,
    places: Places<'t>,
    faults: Vec<LexFault>,
}

impl<'t> Found<'t> {
    /// A piece more between these offsets as a token; a gap gives none.
    fn add_token(
        &mut self,
        class: Class,
        bytes: &'t str,
        start: u32,
        end: u32,
    ) -> Result<(), AllocError>
        requires end { end ≡ start + units_in bytes.now }
        requires few { length self.old.places < 2 ^ 32 }
        requires room { length self.old.tokens < 2 ^ 26 }
        ensures tokens { OnOk result (self.new.tokens ≡ (if is_gap class then self.old.tokens
            else self.old.tokens ++ token_of self.old.places (record { class = class; start = start; bytes = bytes.now }) ∷ [])) }
        ensures words { OnOk result (self.new.places ≡ (if is_gap class then self.old.places else with_word self.old.places bytes.now)) }
        ensures few_words { OnOk result (length self.new.places ≤ length self.old.places + 1) }
        ensures few_tokens { OnOk result (length self.new.tokens ≤ length self.old.tokens + 1) }
        ensures faults { self.new.faults.items ≡ self.old.faults.items }
    {
        if is_gap(class) {
            return Ok(());
        }
        let word = self.places.place(bytes)? as u32;
        let kind = kind_of(class, bytes.as_bytes());
        self.tokens.push(Token {
            kind,
            start,
            end,
            word,
        })?;
        Ok(())
    }

    /// A piece more between these offsets.
    fn add(
        &mut self,
        alloc: Global,
        class: Class,
        bytes: &'t str,
        start: u32,
        end: u32,
    ) -> Result<(), AllocError>
        requires end { end ≡ start + units_in bytes.now }
        requires few { length self.old.places < 2 ^ 32 }
        requires room { length self.old.tokens < 2 ^ 26 }
        requires short { start + 2 * length bytes.now + 1 < 2 ^ 32 }
        ensures tokens { OnOk result (self.new.tokens ≡ (if is_gap class then self.old.tokens
            else self.old.tokens ++ token_of self.old.places (record { class = class; start = start; bytes = bytes.now }) ∷ [])) }
        ensures words { OnOk result (self.new.places ≡ (if is_gap class then self.old.places else with_word self.old.places bytes.now)) }
        ensures few_words { OnOk result (length self.new.places ≤ length self.old.places + 1) }
        ensures few_tokens { OnOk result (length self.new.tokens ≤ length self.old.tokens + 1) }
        ensures faults { OnOk result (self.new.faults.items ≡ self.old.faults.items ++ faults_of_piece class start bytes.now) }
    {
        self.add_token(class, bytes, start, end)?;
        push_faults(alloc, &mut self.faults, class, start, end, bytes.as_bytes())
    }

    /// The pieces of a run more, with which this text begins at an offset. What is left of the text, and
    /// the offset there.
    fn add_run(
        &mut self,
        alloc: Global,
        is_ascii: bool,
        run: &[Piece],
        text: &'t str,
        offset: u32,
    ) -> Result<(&'t str, u32), AllocError>
        requires cover { size_of run.now ≤ length text.now }
        requires some { All (λ piece. 0 < piece.size) run.now }
        requires texts { AreTexts (spelled run.now text.now) }
        requires ascii { is_ascii ≡ true → IsAscii text.now }
        requires few { length self.old.places + length text.now < 2 ^ 32 }
        requires room { length self.old.tokens + length text.now < 2 ^ 26 }
        requires short { offset + 2 * length text.now + 1 < 2 ^ 32 }
        ensures rest { IfOk result (λ rest. rest.0.now ≡ drop (size_of run.now) text.now) }
        ensures utf8 { IfOk result (λ rest. IsUtf8 rest.0.now) }
        ensures within { IfOk result (λ rest. rest.1 + 2 * length rest.0.now ≤ offset + 2 * length text.now) }
        ensures few_words { IfOk result (λ rest. length self.new.places + length rest.0.now ≤ length self.old.places + length text.now) }
        ensures few_tokens { IfOk result (λ rest. length self.new.tokens + length rest.0.now ≤ length self.old.tokens + length text.now) }
        ensures tokens { IfOk result (λ rest. (later : List Spelled) →
            self.old.tokens ++ tokens_behind self.old.places (lexemes_from offset (spelled run.now text.now ++ later))
            ≡ self.new.tokens ++ tokens_behind self.new.places (lexemes_from rest.1 later)) }
        ensures words { IfOk result (λ rest. (later : List Spelled) →
            words_behind self.old.places (lexemes_from offset (spelled run.now text.now ++ later)) ≡ words_behind self.new.places (lexemes_from rest.1 later)) }
        ensures faults { IfOk result (λ rest. (later : List Spelled) →
            self.old.faults.items ++ faults_from offset (spelled run.now text.now ++ later) ≡ self.new.faults.items ++ faults_from rest.1 later) }
    {
        let mut rest = text;
        let mut start = offset;
        for piece in run {
            let (bytes, after) = rest.split_at(piece.size);
            let end = start + units_in(is_ascii, bytes) as u32;
            self.add(alloc, piece.class, bytes, start, end)?;
            rest = after;
            start = end;
        }
        Ok((rest, start))
    }

    /// What was found, with words in memory of their own.
    fn finished(self, alloc: Global) -> Result<GroupedText, AllocError>
        requires { length self.tokens < 2 ^ 32 }
        ensures tokens { IfOk result (λ read. read.tokens ≡ self.entry.tokens) }
        ensures groups { IfOk result (λ read. read.group_faults ≡ faults_of_groups self.entry.tokens) }
        ensures words { IfOk result (λ read. read.words ≡ self.entry.places) }
        ensures faults { IfOk result (λ read. read.lexical_faults ≡ self.entry.faults.items) }
    {
        let words = self.places.copied(alloc)?;
        let grouped = self.tokens.finish(alloc)?;
        Ok(GroupedText {
            tokens: grouped.tokens,
            group_faults: grouped.faults,
            words,
            lexical_faults: LexFaults::from_vec(self.faults),
        })
    }
}

/// The tokens of a text, each with the group that it opens, its words, and what is wrong with its groups
/// and its parts.
#[derive(Debug, Drop)]
pub struct GroupedText {
    pub tokens: Tokens,
    pub group_faults: GroupFaults,
    pub words: Words,
    pub lexical_faults: LexFaults,
}

/// The tokens of a text with their groups, its words, and what is wrong with them and with its parts, in
/// one pass. No list of its tokens without their groups is made, and pieces are held for a run of some
/// thousands alone, or until a string ends.
pub fn scan_grouped(alloc: Global, text: &Text) -> Result<GroupedText, AllocError>
    ensures tokens { IfOk result (λ read. read.tokens ≡ tokens_of text.now) }
    ensures groups { IfOk result (λ read. read.group_faults ≡ faults_of_groups (tokens_of text.now)) }
    ensures words { IfOk result (λ read. read.words ≡ words_of text.now) }
    ensures faults { IfOk result (λ read. read.lexical_faults ≡ faults_of text.now) }
    ensures few { IfOk result (λ read. length read.tokens ≤ length text.now) }
{
    let text = text.as_str();
    let is_ascii = text.is_ascii();
    let mut cutting = Cutting::begin(alloc, text.as_bytes())?;
    let mut found = Found {
        tokens: Grouping::with_room(alloc, text.len())?,
        places: Places::new(alloc),
        faults: Vec::new(alloc),
    };
    let mut rest = text;
    let mut start = 0;
    'runs: loop {
        let run = cutting.run(alloc)?;
        if run.is_empty() {
            return found.finished(alloc);
        }
        let (after, end) = found.add_run(alloc, is_ascii, &run, rest, start)?;
        rest = after;
        start = end;
    }
}

/// The tokens of a text, its words, and what is wrong with its parts.
pub fn scan(alloc: Global, text: &Text) -> Result<Scanned, AllocError>
    ensures tokens { IfOk result (λ scanned. scanned.tokens ≡ tokens_of text.now) }
    ensures words { IfOk result (λ scanned. scanned.words ≡ words_of text.now) }
    ensures faults { IfOk result (λ scanned. scanned.faults ≡ faults_of text.now) }
    ensures few { IfOk result (λ scanned. length scanned.tokens ≤ length text.now) }
{
    let read = scan_grouped(alloc, text)?;
    let tokens = read.tokens.listed(alloc)?;
    Ok(Scanned {
        tokens: TextTokens::from_vec(tokens),
        words: read.words,
        faults: read.lexical_faults,
    })
}
