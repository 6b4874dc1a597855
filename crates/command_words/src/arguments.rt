//! The arguments that words give.

ghost use Rattle.std.specs.Prelude.{◌≡◌, option_map, is_some};
ghost use Rattle.fault_io.specs.Paths.{after_front};
ghost use Rattle.command_words.specs.Words.{allowed_in, allows, behind_value, dashed_part, is_dashed, joined_part, part_of, value_part, without};
ghost use Rattle.command_words.specs.Lent.{part_view};

use plain_text::PlainText;

/// An argument of a command.
#[derive(Clone, Copy)]
pub enum Argument {
    /// The file: the word that belongs to no option.
    File,
    /// The folder whose files are read.
    Root,
    /// The packages file.
    Packages,
    /// The steps of a run.
    Steps,
}

/// The arguments that may still be given.
#[derive(Clone, Copy)]
pub struct Allowed {
    /// Whether the file may be given.
    pub file: bool,
    /// Whether the folder may be given.
    pub root: bool,
    /// Whether the packages file may be given.
    pub packages: bool,
    /// Whether the steps may be given.
    pub steps: bool,
}

/// Where a word stands.
#[derive(Clone, Copy)]
pub enum Place {
    /// Where options may stand.
    AmongOptions,
    /// Behind the option whose value it is.
    AsValue(Argument),
    /// Behind `--`.
    BehindOptions,
}

/// What a word is.
#[derive(Clone, Copy)]
pub enum Part<'w> {
    /// An option, whose value is the next word.
    Names(Argument),
    /// The value of an argument.
    Gives(Argument, &'w str),
    /// The end of the options.
    Ends,
    /// Nothing that may stand there.
    Wrong,
}

/// Whether an argument may still be given.
fn allows(allowed: Allowed, argument: Argument) -> bool
    ensures { result ≡ allows allowed argument }
{
    match argument {
        Argument::File => allowed.file,
        Argument::Root => allowed.root,
        Argument::Packages => allowed.packages,
        Argument::Steps => allowed.steps,
    }
}

/// What may still be given once an argument was.
fn without(allowed: Allowed, argument: Argument) -> Allowed
    ensures { result ≡ without allowed argument }
{
    match argument {
        Argument::File => Allowed {
            file: false,
            ..allowed
        },
        Argument::Root => Allowed {
            root: false,
            ..allowed
        },
        Argument::Packages => Allowed {
            packages: false,
            ..allowed
        },
        Argument::Steps => Allowed {
            steps: false,
            ..allowed
        },
    }
}

/// Whether a word begins like an option.
fn is_dashed(word: &str) -> bool
    ensures { result ≡ is_dashed word.now }
{
    match word.as_bytes() {
        [first, ..] => *first == b'-',
        [] => false,
    }
}

/// The value of an option.
fn value_part<'w>(argument: Argument, value: &'w str) -> Part<'w>
    ensures { part_view result ≡ value_part argument value.now }
{
    if is_dashed(value) {
        Part::Wrong
    } else {
        Part::Gives(argument, value)
    }
}

/// What follows this front, in a text that begins with it.
fn after_front<'a>(front: &str, text: &'a str) -> Option<&'a str>
    ensures { option_map (λ rest. rest.now) result ≡ after_front front.now text.now }
{
    text.strip_prefix(front)
}

/// An option and its value in one word, or else another part.
fn joined_part<'w>(argument: Argument, value: Option<&'w str>, other: Part<'w>) -> Part<'w>
    ensures { part_view result ≡ joined_part argument (option_map (λ value. value.now) value.entry) (part_view other.entry) }
{
    match value {
        Some(value) => value_part(argument, value),
        None => other,
    }
}

/// A word that begins like an option, where options may stand.
fn dashed_part(word: &str) -> Part<'_>
    ensures { part_view result ≡ dashed_part word.now }
{
    match word {
        "--" => Part::Ends,
        "--root" => Part::Names(Argument::Root),
        "--packages" => Part::Names(Argument::Packages),
        "--steps" => Part::Names(Argument::Steps),
        _ => {
            let part = joined_part(Argument::Steps, after_front("--steps=", word), Part::Wrong);
            let part = joined_part(Argument::Packages, after_front("--packages=", word), part);
            joined_part(Argument::Root, after_front("--root=", word), part)
        }
    }
}

/// What a word is by where it stands.
fn part_of(place: Place, word: &str) -> Part<'_>
    ensures { part_view result ≡ part_of place word.now }
{
    match place {
        Place::AmongOptions if is_dashed(word) => dashed_part(word),
        Place::AmongOptions | Place::BehindOptions => Part::Gives(Argument::File, word),
        Place::AsValue(argument) => value_part(argument, word),
    }
}

/// Where the word behind a value stands.
fn behind_value(place: Place) -> Place
    ensures { result ≡ behind_value place }
{
    match place {
        Place::BehindOptions => Place::BehindOptions,
        _ => Place::AmongOptions,
    }
}

/// Whether words give only these arguments, and each at most once.
pub fn are_allowed(allowed: Allowed, words: &[PlainText]) -> bool
    ensures { result ≡ is_some (allowed_in allowed words.now) }
{
    let mut allowed = allowed;
    let mut place = Place::AmongOptions;
    for word in words {
        match part_of(place, word.as_str()) {
            Part::Names(argument) => place = Place::AsValue(argument),
            Part::Gives(argument, _) if allows(allowed, argument) => {
                allowed = without(allowed, argument);
                place = behind_value(place);
            }
            Part::Ends => place = Place::BehindOptions,
            Part::Gives(_, _) | Part::Wrong => return false,
        }
    }
    !matches!(place, Place::AsValue(_))
}
