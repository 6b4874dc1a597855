//! A cut of a text that is under way.

ghost use Rattle.std.specs.Prelude.{◌≡◌, ◌+◌, ◌<◌, ◌≤◌, ◌^◌, ◌==◌, true, [], drop, length, IfOk, OnOk, codes, if◌then◌else◌};
ghost use Rattle.dart_scan.specs.Lexemes.{begins};
ghost use Rattle.dart_scan.specs.Strings.{within_reach};
ghost use Rattle.dart_scan.specs.Pieces.{braces_behind, pieces};
ghost use Rattle.dart_scan.specs.Openings.{shape};
ghost use Rattle.dart_scan.specs.Runs.{IsRun, StepsOrPauses};
ghost use Rattle.dart_scan.specs.Cutting.{IsOutside, rest_of, Ends, Sound, Steps, StepsOrEnds, IsCode, to_come, added, left, continued, passed, entered, abandoned, closed, with_part, interpolated, named, fresh};

use crate::cut::ending::{Ending, what_ends};
use crate::cut::form::{StringForm, string_form};
use crate::cut::lexeme::piece_at;
use crate::cut::line::Line;
use crate::cut::strings::{OpenString, OpenStrings};
use crate::piece::{Class, Piece};
use std::alloc::{AllocError, Global};
use std::marker::Model;
use std::mem::replace;

/// About how many pieces are handed on at a time.
const RUN: usize = 4096;

/// Where the next piece stands.
#[derive(Clone, Copy, Debug)]
pub enum Within {
    /// Outside strings, or in an interpolation in which so many braces are open.
    InCode { braces: usize },
    /// In a string, of whose next piece so many bytes are known: its opening, or none.
    InString { string: OpenString, begun: usize },
}

/// A cut: the text, and the pieces so far, those of open strings too; at which byte the next piece
/// stands, and up to which byte the text reaches there; whether it stands in a string; the strings
/// around it; and a line of the text. Bytes are counted from 0.
#[derive(Debug, Drop)]
pub struct Cutting<'t> {
    text: &'t [u8],
    pieces: Vec<Piece>,
    at: usize,
    end: usize,
    within: Within,
    around: OpenStrings,
    line: Line,
}

impl<'t> Model for Cutting<'t> {
    ghost use Rattle.dart_scan.specs.Cutting.{Cut};

    ghost Value = { Cut };

    ghost view = { λ c. record { text = c.text.now; pieces = c.pieces.items; at = c.at; end = c.end; within = c.within; around = c.around; line = c.line } };
}

/// How many braces are open in an expression, behind the piece with which the text begins.
fn braces_behind(braces: usize, text: &[u8]) -> usize
    requires { braces + 1 < 2 ^ 64 }
    ensures { result ≡ braces_behind braces text.now }
{
    if text.starts_with(b"{") {
        braces + 1
    } else if text.starts_with(b"}") {
        braces.saturating_sub(1)
    } else {
        braces
    }
}

/// The class of the last piece of a string, of which so many bytes were known.
fn last_class(begun: usize) -> Class
    ensures { result ≡ (if begun == 0 then Class.StringClosing else Class.StringLiteral) }
{
    if begun == 0 {
        Class::StringClosing
    } else {
        Class::StringLiteral
    }
}

/// The class of a piece of a string before an interpolation, of which so many bytes were known.
fn part_class(begun: usize) -> Class
    ensures { result ≡ (if begun == 0 then Class.StringPart else Class.StringOpening) }
{
    if begun == 0 {
        Class::StringPart
    } else {
        Class::StringOpening
    }
}

impl<'t> Cutting<'t> {
    /// A cut that has no piece yet.
    fn fresh(alloc: Global, text: &'t [u8]) -> Cutting<'t>
        ensures cut { result ≡ fresh text.now result.line }
        ensures line { Ends text.now result.line }
        ensures from { result.line.from ≡ 0 }
    {
        Cutting {
            text,
            pieces: Vec::new(alloc),
            at: 0,
            end: text.len(),
            within: Within::InCode { braces: 0 },
            around: OpenStrings::new(alloc),
            line: Line::at(text, 0),
        }
    }

    /// A cut that has begun: a byte order mark is a gap where it stands first of all.
    pub fn begin(alloc: Global, text: &'t [u8]) -> Result<Cutting<'t>, AllocError>
        ensures sound { IfOk result (λ cutting. Sound cutting) }
        ensures text { IfOk result (λ cutting. cutting.text ≡ text.now) }
        ensures same { IfOk result (λ cutting. to_come cutting ≡ pieces text.now) }
    {
        let mut cutting = Cutting::fresh(alloc, text);
        if text.starts_with(b"\xef\xbb\xbf") {
            cutting.add(Class::Gap, 3)?;
            return Ok(cutting);
        }
        Ok(cutting)
    }

    /// The pieces, once the cut is done.
    pub fn into_pieces(self) -> Vec<Piece>
        ensures { result.items ≡ self.entry.pieces }
    {
        self.pieces
    }

    /// The text from the next piece on, as far as it reaches.
    fn rest(&self) -> &'t [u8]
        requires within { self.now.at ≤ self.now.end }
        requires end { self.now.end ≤ length self.now.text }
        ensures rest { result.now ≡ rest_of self.now }
        ensures bound { self.now.end < 2 ^ 64 }
    {
        &self.text[self.at..self.end]
    }

    /// One piece more.
    fn add(&mut self, class: Class, size: usize) -> Result<(), AllocError>
        requires { self.old.at + size ≤ length self.old.text }
        ensures { OnOk result (self.new ≡ added class size self.old) }
    {
        self.pieces.push(Piece { class, size })?;
        self.at += size;
        Ok(())
    }

    /// A string is left.
    fn leave(&mut self, string: OpenString)
        ensures { self.new ≡ left string self.old }
    {
        self.end = string.outside;
        self.within = Within::InCode {
            braces: string.braces,
        };
    }

    /// A string that never ends takes the place of its pieces.
    fn abandon(&mut self, string: OpenString) -> Result<(), AllocError>
        requires start { string.start ≤ self.old.end }
        requires end { self.old.end ≤ length self.old.text }
        ensures { OnOk result (self.new ≡ abandoned string self.old) }
    {
        self.pieces.truncate(string.pieces);
        self.at = string.start;
        self.add(Class::UnterminatedString, self.end - string.start)?;
        self.leave(string);
        Ok(())
    }

    /// The string goes on behind a `}`.
    fn go_on(&mut self, string: OpenString) -> Result<(), AllocError>
        requires { self.old.at + 1 ≤ length self.old.text }
        ensures { OnOk result (self.new ≡ continued string self.old) }
    {
        self.add(Class::InterpolationClosing, 1)?;
        self.within = Within::InString { string, begun: 0 };
        Ok(())
    }

    /// One piece more that is no string, behind which so many braces are open.
    fn pass(&mut self, piece: Piece, braces: usize) -> Result<(), AllocError>
        requires { self.old.at + piece.size ≤ length self.old.text }
        ensures { OnOk result (self.new ≡ passed piece braces self.old) }
    {
        self.add(piece.class, piece.size)?;
        self.within = Within::InCode { braces };
        Ok(())
    }

    /// Up to which byte a string of the form may reach that begins here.
    fn reach(&mut self, form: StringForm) -> usize
        requires within { self.old.at ≤ self.old.end }
        requires end { self.old.end ≤ length self.old.text }
        requires line { Ends self.old.text self.old.line }
        requires from { self.old.line.from ≤ self.old.at }
        ensures reach { result ≡ self.old.at + length (within_reach (shape form) (rest_of self.old)) }
        ensures same { self.new ≡ record self.old { line = self.new.line } }
        ensures line { Ends self.old.text self.new.line }
        ensures from { self.new.line.from ≤ self.old.at }
    {
        if form.quotes.len() != 1 {
            return self.end;
        }
        self.line = self.line.that_holds(self.text, self.at);
        self.line.end.min(self.end)
    }

    /// A string of the form begins, where so many braces are open around it.
    fn enter(&mut self, form: StringForm, braces: usize)
        requires few { length form.quotes.now ≤ 3 }
        requires within { self.old.at ≤ self.old.end }
        requires end { self.old.end ≤ length self.old.text }
        requires line { Ends self.old.text self.old.line }
        requires from { self.old.line.from ≤ self.old.at }
        ensures entered { self.new ≡ entered form braces (self.old.at + length (within_reach (shape form) (rest_of self.old))) self.new.line self.old }
        ensures line { Ends self.old.text self.new.line }
        ensures from { self.new.line.from ≤ self.old.at }
    {
        let string = OpenString {
            form,
            pieces: self.pieces.len(),
            start: self.at,
            outside: self.end,
            braces,
        };
        self.end = self.reach(form);
        self.within = Within::InString {
            string,
            begun: form.opening_size(),
        };
    }

    /// The string ends with so many bytes, of which so many were known.
    fn close(&mut self, string: OpenString, begun: usize, size: usize) -> Result<(), AllocError>
        requires { self.old.at + size ≤ length self.old.text }
        ensures { OnOk result (self.new ≡ closed string begun size self.old) }
    {
        self.add(last_class(begun), size)?;
        self.leave(string);
        Ok(())
    }

    /// So many bytes stand before an interpolation, of which so many were known.
    fn part(&mut self, begun: usize, size: usize) -> Result<(), AllocError>
        requires { self.old.at + size ≤ length self.old.text }
        ensures { OnOk result (self.new ≡ with_part begun size self.old) }
    {
        if size == 0 {
            return Ok(());
        }
        self.add(part_class(begun), size)
    }

    /// An interpolation of an expression begins behind so many bytes, of which so many were known.
    fn interpolate(
        &mut self,
        string: OpenString,
        begun: usize,
        size: usize,
    ) -> Result<(), AllocError>
        requires { self.old.at + (size + 2) ≤ length self.old.text }
        ensures { OnOk result (self.new ≡ interpolated string begun size self.old) }
    {
        self.part(begun, size)?;
        self.add(Class::InterpolationOpening, 2)?;
        self.around.push(string)?;
        self.within = Within::InCode { braces: 0 };
        Ok(())
    }

    /// An interpolation by name stands behind so many bytes, of which so many were known.
    fn name(
        &mut self,
        string: OpenString,
        begun: usize,
        size: usize,
        name: usize,
    ) -> Result<(), AllocError>
        requires { self.old.at + (size + (1 + name)) ≤ length self.old.text }
        ensures { OnOk result (self.new ≡ named string begun size name self.old) }
    {
        self.part(begun, size)?;
        self.add(Class::InterpolationMark, 1)?;
        self.add(Class::Word, name)?;
        self.within = Within::InString { string, begun: 0 };
        Ok(())
    }

    /// The next piece of code, in which so many braces are open, and in which no interpolation ends.
    fn next(&mut self, braces: usize) -> Result<(), AllocError>
        requires sound { Sound self.old }
        requires code { self.old.within ≡ Within.InCode braces }
        requires some { self.old.at < self.old.end }
        requires outside { begins (rest_of self.old) (codes "}") ≡ true → braces ≡ 0 → self.old.around ≡ [] }
        ensures { OnOk result (Steps self.old self.new) }
    {
        let rest = self.rest();
        match string_form(rest) {
            Some(form) => {
                self.enter(form, braces);
                Ok(())
            }
            None => self.pass(piece_at(rest), braces_behind(braces, rest)),
        }
    }

    /// The next piece of code, a `}` that closes no brace.
    fn brace(&mut self) -> Result<(), AllocError>
        requires sound { Sound self.old }
        requires code { self.old.within ≡ Within.InCode 0 }
        requires some { self.old.at < self.old.end }
        requires brace { begins (rest_of self.old) (codes "}") ≡ true }
        ensures { OnOk result (Steps self.old self.new) }
    {
        match self.around.pop() {
            Some(string) => self.go_on(string),
            None => self.next(0),
        }
    }

    /// The next piece of code, in which so many braces are open.
    fn code(&mut self, braces: usize) -> Result<(), AllocError>
        requires sound { Sound self.old }
        requires code { self.old.within ≡ Within.InCode braces }
        requires some { self.old.at < self.old.end }
        ensures { OnOk result (Steps self.old self.new) }
    {
        if braces == 0 && self.rest().starts_with(b"}") {
            return self.brace();
        }
        self.next(braces)
    }

    /// The next piece of a string, of which so many bytes are known.
    fn string(&mut self, string: OpenString, begun: usize) -> Result<(), AllocError>
        requires sound { Sound self.old }
        requires string { self.old.within ≡ Within.InString string begun }
        ensures { OnOk result (Steps self.old self.new) }
    {
        let rest = self.rest();
        let size = begun + string.form.plain_size(&rest[begun..]);
        match what_ends(string.form, &rest[size..]) {
            Ending::Quotes => self.close(string, begun, size + string.form.quotes.len()),
            Ending::Expression => self.interpolate(string, begun, size),
            Ending::Name { size: name } => self.name(string, begun, size, name),
            Ending::Never => self.abandon(string),
        }
    }

    /// The text ends in code: the innermost string never does; false, if none is open.
    fn run_out(&mut self) -> Result<bool, AllocError>
        requires sound { Sound self.old }
        requires code { IsCode self.old.within }
        requires end { self.old.at ≡ self.old.end }
        ensures { IfOk result (λ more. StepsOrEnds more self.old self.new) }
    {
        match self.around.pop() {
            Some(string) => {
                self.abandon(string)?;
                Ok(true)
            }
            None => Ok(false),
        }
    }

    /// One step, which makes pieces, enters a string or leaves one; false, if nothing is left.
    pub fn step(&mut self) -> Result<bool, AllocError>
        requires { Sound self.old }
        ensures { IfOk result (λ more. StepsOrEnds more self.old self.new) }
    {
        match self.within {
            Within::InString { string, begun } => {
                self.string(string, begun)?;
                Ok(true)
            }
            Within::InCode { braces } => {
                if self.at < self.end {
                    self.code(braces)?;
                    return Ok(true);
                }
                self.run_out()
            }
        }
    }

    /// Whether the next piece stands in no string, and in no interpolation of one.
    fn is_outside(&self) -> bool
        ensures { result ≡ true → IsOutside self.now }
    {
        match self.within {
            Within::InCode { braces: _ } => self.around.is_empty(),
            Within::InString {
                string: _,
                begun: _,
            } => false,
        }
    }

    /// One step, if there are fewer pieces than so many, or a string is open; else, or if nothing is left,
    /// false.
    fn advance(&mut self, many: usize) -> Result<bool, AllocError>
        requires sound { Sound self.old }
        requires some { 0 < many }
        ensures { IfOk result (λ more. StepsOrPauses more self.old self.new) }
    {
        if self.pieces.len() >= many && self.is_outside() {
            return Ok(false);
        }
        let more = self.step()?;
        Ok(more)
    }

    /// Hands on the pieces so far, where no string is open: what is left is a text of its own.
    fn hand_on(&mut self, alloc: Global) -> Vec<Piece>
        requires sound { Sound self.old }
        requires outside { IsOutside self.old }
        ensures pieces { result.items ≡ self.old.pieces }
        ensures cut { self.new ≡ fresh (drop self.old.at self.old.text) self.new.line }
        ensures line { Ends (drop self.old.at self.old.text) self.new.line }
        ensures from { self.new.line.from ≡ 0 }
    {
        let line = self.line.that_holds(self.text, self.at);
        let rest = &self.text[self.at..];
        let pieces = replace(&mut self.pieces, Vec::new(alloc));
        self.line = Line {
            from: 0,
            end: line.end - self.at,
        };
        self.text = rest;
        self.at = 0;
        self.end = rest.len();
        self.within = Within::InCode { braces: 0 };
        pieces
    }

    /// The next pieces: some thousands, or as many as stand before the first place at which no string is
    /// open. None, if nothing is left.
    pub fn run(&mut self, alloc: Global) -> Result<Vec<Piece>, AllocError>
        requires { Sound self.old }
        ensures { IfOk result (λ run. IsRun self.old self.new run.items) }
    {
        while self.advance(RUN)? {}
        Ok(self.hand_on(alloc))
    }
}
