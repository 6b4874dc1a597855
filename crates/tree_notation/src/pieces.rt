//! The pieces of a notation, and the text that they make.
//!
//! A node is written as its pieces, among which stand the nodes in it; these are written when their
//! turn comes. So no function calls itself, however deep a tree is.

use crate::{expressions, statements, types};
use dart_tokens::Words;
use dart_tree::{Expr, Identifier, Place, Span, Stmt, WrittenType};
use std::alloc::{AllocError, Global};

/// A piece of a notation.
#[derive(Clone, Copy)]
pub enum Piece<'t> {
    /// Text as it stands.
    Text(&'static str),
    /// A word of the source, by its number.
    Word(u32),
    /// Where the node behind it stands.
    Range(Span),
    /// A type.
    Type(&'t WrittenType),
    /// An expression.
    Expression(&'t Expr),
    /// A statement.
    Statement(&'t Stmt),
}

/// Whether a notation tells where its nodes stand.
#[derive(Clone, Copy, Debug, PartialEq, Eq)]
pub enum Ranges {
    /// It doesn't.
    Hidden,
    /// Before a node stands its range, `START+LENGTH:`, in UTF-16 code units from 0.
    Shown,
}

/// The pieces of a node, in their order.
#[derive(Drop)]
pub struct Pieces<'t> {
    all: Vec<Piece<'t>>,
}

impl<'t> Pieces<'t> {
    /// No piece yet. It takes no memory.
    pub fn new(alloc: Global) -> Pieces<'t> {
        Pieces {
            all: Vec::new(alloc),
        }
    }

    /// Adds text as it stands.
    pub fn text(&mut self, text: &'static str) -> Result<(), AllocError> {
        self.all.push(Piece::Text(text))?;
        Ok(())
    }

    /// Adds text where a flag is set.
    pub fn text_if(&mut self, is_set: bool, text: &'static str) -> Result<(), AllocError> {
        if is_set { self.text(text) } else { Ok(()) }
    }

    /// Adds a word of the source.
    pub fn word(&mut self, word: u32) -> Result<(), AllocError> {
        self.all.push(Piece::Word(word))?;
        Ok(())
    }

    /// Adds where the node whose notation comes next stands.
    pub fn range(&mut self, at: Place) -> Result<(), AllocError> {
        self.all.push(Piece::Range(at.span))?;
        Ok(())
    }

    /// Adds a blank and a word.
    pub fn spaced_word(&mut self, word: u32) -> Result<(), AllocError> {
        self.text(" ")?;
        self.word(word)
    }

    /// Adds a blank and a name, where there is one.
    pub fn optional_name(&mut self, name: &Option<Identifier>) -> Result<(), AllocError> {
        match name {
            Some(name) => self.spaced_word(name.word),
            None => Ok(()),
        }
    }

    /// Adds a type.
    pub fn written(&mut self, written: &'t WrittenType) -> Result<(), AllocError> {
        self.all.push(Piece::Type(written))?;
        Ok(())
    }

    /// Adds a blank and a type, where there is one.
    pub fn optional_type(&mut self, written: &'t Option<WrittenType>) -> Result<(), AllocError> {
        match written {
            Some(written) => {
                self.text(" ")?;
                self.written(written)
            }
            None => Ok(()),
        }
    }

    /// Adds an expression.
    pub fn expression(&mut self, expr: &'t Expr) -> Result<(), AllocError> {
        self.all.push(Piece::Expression(expr))?;
        Ok(())
    }

    /// Adds a blank and an expression.
    pub fn spaced_expression(&mut self, expr: &'t Expr) -> Result<(), AllocError> {
        self.text(" ")?;
        self.expression(expr)
    }

    /// Adds a blank and an expression, where there is one.
    pub fn optional_expression(&mut self, expr: &'t Option<Expr>) -> Result<(), AllocError> {
        match expr {
            Some(expr) => self.spaced_expression(expr),
            None => Ok(()),
        }
    }

    /// Adds expressions, each behind a blank.
    pub fn expressions(&mut self, exprs: &'t [Expr]) -> Result<(), AllocError> {
        for each in exprs.iter() {
            self.spaced_expression(each)?;
        }
        Ok(())
    }

    /// Adds a blank and a statement.
    pub fn spaced_statement(&mut self, stmt: &'t Stmt) -> Result<(), AllocError> {
        self.text(" ")?;
        self.all.push(Piece::Statement(stmt))?;
        Ok(())
    }

    /// Adds statements in braces, with blanks between them.
    pub fn block(&mut self, statements: &'t [Stmt]) -> Result<(), AllocError> {
        self.text("{")?;
        let mut is_first = true;
        for each in statements.iter() {
            self.text_if(!is_first, " ")?;
            is_first = false;
            self.all.push(Piece::Statement(each))?;
        }
        self.text("}")
    }
}

/// The pieces of a piece: where a node stands and those of the node, or the piece itself.
fn pieces_of(alloc: Global, piece: Piece<'_>) -> Result<Pieces<'_>, AllocError> {
    let mut pieces = Pieces::new(alloc);
    match piece {
        Piece::Text(text) => pieces.text(text)?,
        Piece::Word(word) => pieces.word(word)?,
        Piece::Range(span) => pieces.all.push(Piece::Range(span))?,
        Piece::Type(written) => {
            pieces.range(written.place())?;
            types::written_type(&mut pieces, written)?
        }
        Piece::Expression(expr) => {
            pieces.range(expr.place())?;
            expressions::expression(&mut pieces, expr)?
        }
        Piece::Statement(stmt) => {
            pieces.range(stmt.place())?;
            statements::statement(&mut pieces, stmt)?
        }
    }
    Ok(pieces)
}

/// A word of the source; what has no word is shown as such.
fn word_at(words: &Words, word: u32) -> &str {
    match words.as_slice().get(word as usize) {
        Some(text) => text.as_str(),
        None => "<no word>",
    }
}

/// Adds a range to a text, where ranges are shown.
fn add_range(
    alloc: Global,
    text: &mut String,
    span: Span,
    ranges: Ranges,
) -> Result<(), AllocError> {
    if ranges == Ranges::Shown {
        let length = span.end.saturating_sub(span.start);
        text.push_str(&format!(in alloc; "{}+{length}:", span.start)?)?;
    }
    Ok(())
}

/// Puts pieces before those that are still to be written, of which the next stands last.
fn put_before<'t>(open: &mut Vec<Piece<'t>>, pieces: &[Piece<'t>]) -> Result<(), AllocError> {
    for each in pieces.iter().rev() {
        open.push(*each)?;
    }
    Ok(())
}

/// The text of a notation, with the words of its text. The error is want of memory.
pub fn text_of(
    alloc: Global,
    words: &Words,
    pieces: &Pieces<'_>,
    ranges: Ranges,
) -> Result<String, AllocError> {
    let mut text = String::new(alloc);
    let mut open = Vec::new(alloc);
    put_before(&mut open, pieces.all.as_slice())?;
    // No notation has as many pieces.
    for _ in 0..usize::MAX {
        let Some(piece) = open.pop() else {
            break;
        };
        match piece {
            Piece::Text(part) => text.push_str(part)?,
            Piece::Word(word) => text.push_str(word_at(words, word))?,
            Piece::Range(span) => add_range(alloc, &mut text, span, ranges)?,
            node => put_before(&mut open, pieces_of(alloc, node)?.all.as_slice())?,
        }
    }
    Ok(text)
}

/// The notation of a statement, with the words of its text. The error is want of memory.
pub fn statement_text(alloc: Global, words: &Words, stmt: &Stmt) -> Result<String, AllocError> {
    let mut pieces = Pieces::new(alloc);
    pieces.all.push(Piece::Statement(stmt))?;
    text_of(alloc, words, &pieces, Ranges::Hidden)
}

/// The notation of an expression, with the words of its text. The error is want of memory.
pub fn expression_text(alloc: Global, words: &Words, expr: &Expr) -> Result<String, AllocError> {
    let mut pieces = Pieces::new(alloc);
    pieces.expression(expr)?;
    text_of(alloc, words, &pieces, Ranges::Hidden)
}
