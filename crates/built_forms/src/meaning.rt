//! What words mean in a library where no local has that name.

ghost use Rattle.std.specs.Prelude.{◌≡◌, map, IfOk};
ghost use Rattle.built_forms.specs.Meanings.{core_names, meaning_beside, in_doubt, core_meaning, hidden_by, meanings_of, meaning_at};

use dart_types::{BOOL, INT};
use judgement::Meaning;
use plain_text::PlainText;
use std::alloc::{AllocError, Global};

/// A name of dart:core, and what it means.
type Row = (&'static [u8], Meaning);

/// The names that dart:core declares, and those that it leaves out.
const CORE_NAMES: [Row; 27] = [
    (b"print", Meaning::Print),
    (b"int", Meaning::Class(INT)),
    (b"bool", Meaning::Class(BOOL)),
    (b"identical", Meaning::Other),
    (b"Object", Meaning::Other),
    (b"Null", Meaning::Other),
    (b"Function", Meaning::Other),
    (b"StackTrace", Meaning::Other),
    (b"String", Meaning::Other),
    (b"Iterator", Meaning::Other),
    (b"Iterable", Meaning::Other),
    (b"List", Meaning::Other),
    (b"Map", Meaning::Other),
    (b"Error", Meaning::Other),
    (b"TypeError", Meaning::Other),
    (b"StackOverflowError", Meaning::Other),
    (b"ArgumentError", Meaning::Other),
    (b"RangeError", Meaning::Other),
    (b"StateError", Meaning::Other),
    (b"Exception", Meaning::Other),
    (b"IntegerDivisionByZeroException", Meaning::Other),
    (b"double", Meaning::Other),
    (b"num", Meaning::Other),
    (b"Set", Meaning::Other),
    (b"Future", Meaning::Other),
    (b"Stream", Meaning::Other),
    (b"dynamic", Meaning::Other),
];

/// What stands beside a word in a table; nothing where it isn't there.
fn meaning_beside(word: &[u8], rows: &[Row]) -> Meaning
    ensures { result ≡ meaning_beside word.now (map (λ row. (row.0.now, row.1)) rows.now) }
{
    for (name, meaning) in rows {
        if word == *name {
            return *meaning;
        }
    }
    Meaning::Nothing
}

/// What a name of dart:core means where an import of that may leave it out.
fn in_doubt(meaning: Meaning) -> Meaning
    ensures { result ≡ in_doubt meaning }
{
    match meaning {
        Meaning::Nothing => Meaning::Nothing,
        Meaning::Local(_) => Meaning::Other,
        Meaning::Print => Meaning::Other,
        Meaning::Class(_) => Meaning::Other,
        Meaning::Other => Meaning::Other,
    }
}

/// What a word means by dart:core, of which an import may leave names out.
fn core_meaning(narrow: bool, word: &[u8]) -> Meaning
    ensures { result ≡ core_meaning narrow word.now }
{
    let meaning = meaning_beside(word, &CORE_NAMES);
    if narrow { in_doubt(meaning) } else { meaning }
}

/// What each of these words means by dart:core.
fn core_meanings(
    alloc: Global,
    narrow: bool,
    words: &[PlainText],
) -> Result<Vec<Meaning>, AllocError>
    ensures { IfOk result (λ meanings. meanings.items ≡ map (core_meaning narrow) words.now) }
{
    let mut meanings = Vec::new(alloc);
    for word in words {
        meanings.push(core_meaning(narrow, word.as_str().as_bytes()))?;
    }
    Ok(meanings)
}

/// What each of the words of a text means in its library, which declares some of them: its own names
/// hide those of dart:core, and its imports may leave names of that out. The error is want of memory.
pub(crate) fn meanings_of(
    alloc: Global,
    narrow: bool,
    words: &[PlainText],
    declared: &[u32],
) -> Result<Vec<Meaning>, AllocError>
    ensures { IfOk result (λ meanings. meanings.items ≡ meanings_of narrow words.now declared.now) }
{
    let mut meanings = core_meanings(alloc, narrow, words)?;
    for word in declared {
        if (*word as usize) < meanings.len() {
            meanings[*word as usize] = Meaning::Other;
        }
    }
    Ok(meanings)
}

/// What the word at a place means.
pub(crate) fn meaning_at(meanings: &[Meaning], word: u32) -> Meaning
    ensures { result ≡ meaning_at meanings.now word }
{
    match meanings.get(word as usize) {
        Some(meaning) => *meaning,
        None => Meaning::Nothing,
    }
}
