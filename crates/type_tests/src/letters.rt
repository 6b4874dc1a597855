//! The letters of classes and type variables.

use crate::cells::{cell, index, number};
use dart_types::{ClassId, LibId, VarId};
use std::test::Fail;

/// The library of the type variables with letters.
pub(crate) const VARS: LibId = LibId(2);

/// The library of the classes that are named by their places.
pub(crate) const TOWER: LibId = LibId(3);

// The classes of the rows, each as `LETTER|LIBRARY|INDEX|PARAMETERS|DEPTH|SUPERTYPES`: the number of its
// type parameters, how far it is from `Object`, and its direct supertypes, in which X and Y are its
// parameters. The library 0 is `dart:core`, with Object, num, Comparable, Function, int, double, String,
// Iterable, List and Map. In the library 1, K reaches G by H and by J, Q is a G of two types, S turns a
// Map's arguments; 0 is a class of things, red ones 1 and big ones 2, of which 3 and 4 are red, 5 and 6
// both; and g, 7, 8, 9, D and P are iterables: of the parameter, of int, of int and things, of pairs, of
// the parameter and int.
const CLASSES: &str = "\
o|0|0|0|0|
n|0|1|0|2|nC
C|0|2|1|1|o
F|0|3|0|1|o
i|0|4|0|3|n
d|0|5|0|3|n
s|0|6|0|2|sC
I|0|7|1|1|o
L|0|8|1|2|XI
M|0|9|2|1|o
G|1|0|1|1|o
H|1|1|1|2|XG
J|1|2|1|2|XG
K|1|3|1|3|XH XJ
Q|1|4|0|3|iG nH
S|1|5|2|2|YXM
0|1|6|0|1|o
1|1|7|0|2|0
2|1|8|0|2|0
3|1|9|0|3|1
4|1|10|0|3|1
5|1|11|0|3|1 2
6|1|12|0|3|2 1
g|1|13|1|2|XI
7|1|14|0|2|iI
8|1|15|0|2|iI 0I
9|1|16|0|2|0I iI
D|1|17|1|2|XXMI
P|1|18|1|2|XI iI";

// Letters of classes without rows there, and of classes with another number of arguments.
const STRANGE: &str = "\
m|1|90|0|0|
l|1|91|0|0|
#|0|8|0|0|
%|0|8|2|0|
@|1|9|1|0|
y|5|0|0|0|";

// The letters of type variables, the last of which has no bound, and the bounds of the others.
const VARIABLES: &str = "XYZWUTtwqkefhcvju";

const BOUNDS: &str = "o?|n|Y|Z?|YL|(YrV)|i|X|o|XL|o?|o?|o?|iL|c|iL?";

/// A class with a letter: its letter, its id, the number of its type parameters, how far it is from
/// `Object`, and its direct supertypes.
#[derive(Clone, Copy)]
pub(crate) struct Lettered<'a> {
    pub(crate) letter: &'a str,
    pub(crate) class: ClassId,
    pub(crate) params: u32,
    pub(crate) depth: u64,
    pub(crate) supers: &'a str,
}

/// The class of a line.
pub(crate) fn class_in(line: &str) -> Result<Lettered<'_>, Fail> {
    let (letter, rest) = cell(line)?;
    let (lib, rest) = cell(rest)?;
    let (place, rest) = cell(rest)?;
    let (params, rest) = cell(rest)?;
    let (depth, supers) = cell(rest)?;
    Ok(Lettered {
        letter,
        class: ClassId {
            lib: LibId(number(lib)?),
            index: index(place)?,
        },
        params: index(params)?,
        depth: number(depth)?,
        supers,
    })
}

/// The lines of the classes that have rows.
pub(crate) fn class_lines() -> &'static str {
    CLASSES
}

/// The bounds of type variables in the order of their places.
pub(crate) fn bounds() -> &'static str {
    BOUNDS
}

// Whether the line is that of the letter.
fn has_letter(line: &str, letter: u8) -> bool {
    line.as_bytes().first() == Some(&letter)
}

/// The class of a letter, with the number of its arguments.
pub(crate) fn class_of(letter: u8) -> Result<Option<(ClassId, u32)>, Fail> {
    for text in [CLASSES, STRANGE] {
        for line in text.lines() {
            if has_letter(line, letter) {
                let found = class_in(line)?;
                return Ok(Some((found.class, found.params)));
            }
        }
    }
    Ok(None)
}

/// The letter of a class with so many arguments, if it has one.
pub(crate) fn letter_of_class(class: ClassId, count: usize) -> Result<Option<&'static str>, Fail> {
    for text in [CLASSES, STRANGE] {
        for line in text.lines() {
            let found = class_in(line)?;
            if found.class == class && found.params as usize == count {
                return Ok(Some(found.letter));
            }
        }
    }
    Ok(None)
}

/// A type variable with a letter, by its place.
pub(crate) fn var(index: u32) -> VarId {
    VarId { lib: VARS, index }
}

/// The type variable of a letter.
pub(crate) fn var_of(letter: u8) -> Option<VarId> {
    let mut index: u32 = 0;
    for own in VARIABLES.as_bytes() {
        if *own == letter {
            return Some(var(index));
        }
        index = index.saturating_add(1);
    }
    None
}

/// The letter of a type variable, if it has one.
pub(crate) fn letter_of_var(asked: VarId) -> Option<char> {
    let mut index: u32 = 0;
    for letter in VARIABLES.chars() {
        if asked == var(index) {
            return Some(letter);
        }
        index = index.saturating_add(1);
    }
    None
}
