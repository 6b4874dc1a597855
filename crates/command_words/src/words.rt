//! The commands.

ghost use Rattle.std.specs.Prelude.{◌≡◌, IfOk, map, option_map};
ghost use Rattle.std.specs.Char.{is_ascii_digit};
ghost use Rattle.std.specs.List.{list_all};
ghost use Rattle.command_words.specs.Words.{allowed_in, check_arguments, check_command, checking, command_of, is_number, is_path_or_none, number_of, run_arguments, run_command, running, serve_arguments, serve_command, serving, steps_of};

use crate::arguments::{Allowed, are_allowed};
use crate::parsers::{check_matches, run_matches, serve_matches};
use fault_io::is_path;
use plain_text::PlainText;
use std::alloc::{AllocError, Global};

/// The steps of a run whose words name none.
const DEFAULT_STEPS: u64 = 10_000_000;

/// The most digits of a number of steps.
const MOST_DIGITS: usize = 15;

/// The arguments of `serve`.
const SERVE_ARGUMENTS: Allowed = Allowed {
    file: false,
    root: false,
    packages: true,
    steps: false,
};

/// The arguments of `check`.
const CHECK_ARGUMENTS: Allowed = Allowed {
    file: true,
    root: true,
    packages: true,
    steps: false,
};

/// The arguments of `run`.
const RUN_ARGUMENTS: Allowed = Allowed {
    file: true,
    root: true,
    packages: true,
    steps: true,
};

/// What words ask for.
#[derive(Debug, Drop)]
pub enum Command {
    /// The lines of the source are served.
    Serve {
        /// The path of the packages file, absolute and normalized, if there is one.
        packages: Option<PlainText>,
    },
    /// The libraries that a file reaches are checked.
    Check {
        /// Its path, which is absolute and normalized.
        file: PlainText,
        /// The path of the folder whose files are read, if one is named.
        root: Option<PlainText>,
        /// The path of the packages file, if there is one.
        packages: Option<PlainText>,
    },
    /// The program of a file is run.
    Run {
        /// Its path, which is absolute and normalized.
        file: PlainText,
        /// The path of the folder whose files are read, if one is named.
        root: Option<PlainText>,
        /// The path of the packages file, if there is one.
        packages: Option<PlainText>,
        /// For at most so many steps.
        steps: u64,
    },
    /// They are no command.
    Refused,
}

/// Whether all of these bytes are decimal digits.
fn are_digits(word: &[u8]) -> bool
    ensures { result ≡ list_all is_ascii_digit word.now }
{
    word.iter().all(|byte| byte.is_ascii_digit())
}

/// Whether a word is a number of steps: 1 to 15 decimal digits.
fn is_number(word: &str) -> bool
    ensures { result ≡ is_number word.now }
{
    !word.is_empty() && word.len() <= MOST_DIGITS && are_digits(word.as_bytes())
}

/// The number of steps that a word is, if it is one.
fn number_of(word: &str) -> Option<u64>
    ensures { result ≡ number_of word.now }
{
    if is_number(word) {
        word.parse().ok()
    } else {
        None
    }
}

/// The steps of a run.
fn steps_of(word: Option<&str>) -> Option<u64>
    ensures { result ≡ steps_of (option_map (λ word. word.now) word.entry) }
{
    match word {
        Some(word) => number_of(word),
        None => Some(DEFAULT_STEPS),
    }
}

/// Whether a path that may be left out is absolute and normalized.
fn is_path_or_none(path: Option<&str>) -> bool
    ensures { result ≡ is_path_or_none (option_map (λ path. path.now) path.entry) }
{
    match path {
        Some(path) => is_path(path),
        None => true,
    }
}

/// A copy of a path that may be left out.
fn copied(alloc: Global, path: Option<&str>) -> Result<Option<PlainText>, AllocError>
    ensures { IfOk result (λ copied. copied ≡ option_map (λ path. path.now) path.entry) }
{
    match path {
        Some(path) => Ok(Some(PlainText::new(alloc, path)?)),
        None => Ok(None),
    }
}

/// Serving, over the packages of a file if one is named.
fn serving(alloc: Global, packages: Option<&str>) -> Result<Command, AllocError>
    ensures { IfOk result (λ command. command ≡ serving (option_map (λ file. file.now) packages.entry)) }
{
    if !is_path_or_none(packages) {
        return Ok(Command::Refused);
    }
    let packages = copied(alloc, packages)?;
    Ok(Command::Serve { packages })
}

/// A check of a file.
fn checking(
    alloc: Global,
    file: Option<&str>,
    root: Option<&str>,
    packages: Option<&str>,
) -> Result<Command, AllocError>
    ensures { IfOk result (λ command. command ≡ checking (option_map (λ file. file.now) file.entry) (option_map (λ folder. folder.now) root.entry) (option_map (λ file. file.now) packages.entry)) }
{
    match file {
        Some(file) if is_path(file) && is_path_or_none(root) && is_path_or_none(packages) => {
            Ok(Command::Check {
                file: PlainText::new(alloc, file)?,
                root: copied(alloc, root)?,
                packages: copied(alloc, packages)?,
            })
        }
        _ => Ok(Command::Refused),
    }
}

/// A run of a file for so many steps.
fn running(
    alloc: Global,
    file: Option<&str>,
    root: Option<&str>,
    packages: Option<&str>,
    steps: Option<u64>,
) -> Result<Command, AllocError>
    ensures { IfOk result (λ command. command ≡ running (option_map (λ file. file.now) file.entry) (option_map (λ folder. folder.now) root.entry) (option_map (λ file. file.now) packages.entry) steps) }
{
    match (file, steps) {
        (Some(file), Some(steps))
            if is_path(file) && is_path_or_none(root) && is_path_or_none(packages) => {
            let file = PlainText::new(alloc, file)?;
            let root = copied(alloc, root)?;
            let packages = copied(alloc, packages)?;
            Ok(Command::Run {
                file,
                root,
                packages,
                steps,
            })
        }
        _ => Ok(Command::Refused),
    }
}

/// Words as texts that a parser reads.
fn texts_of<'w>(alloc: Global, words: &'w [PlainText]) -> Result<Vec<&'w str>, AllocError>
    ensures { IfOk result (λ texts. map (λ text. text.now) texts.items ≡ words.entry.now) }
{
    let mut texts = Vec::new(alloc);
    for word in words {
        texts.push(word.as_str())?;
    }
    Ok(texts)
}

/// `serve [--packages FILE]`.
fn serve_command(alloc: Global, words: &[PlainText]) -> Result<Command, AllocError>
    ensures { IfOk result (λ command. command ≡ serve_command (allowed_in serve_arguments words.now)) }
{
    if !are_allowed(SERVE_ARGUMENTS, words) {
        return Ok(Command::Refused);
    }
    let texts = texts_of(alloc, words)?;
    let found = serve_matches(alloc, &texts)?;
    serving(alloc, found.get_str("packages"))
}

/// `check FILE [--root DIR] [--packages FILE]`.
fn check_command(alloc: Global, words: &[PlainText]) -> Result<Command, AllocError>
    ensures { IfOk result (λ command. command ≡ check_command (allowed_in check_arguments words.now)) }
{
    if !are_allowed(CHECK_ARGUMENTS, words) {
        return Ok(Command::Refused);
    }
    let texts = texts_of(alloc, words)?;
    let found = check_matches(alloc, &texts)?;
    let file = found.get_str("file");
    let root = found.get_str("root");
    checking(alloc, file, root, found.get_str("packages"))
}

/// `run FILE [--root DIR] [--packages FILE] [--steps N]`.
fn run_command(alloc: Global, words: &[PlainText]) -> Result<Command, AllocError>
    ensures { IfOk result (λ command. command ≡ run_command (allowed_in run_arguments words.now)) }
{
    if !are_allowed(RUN_ARGUMENTS, words) {
        return Ok(Command::Refused);
    }
    let texts = texts_of(alloc, words)?;
    let found = run_matches(alloc, &texts)?;
    let file = found.get_str("file");
    let root = found.get_str("root");
    let packages = found.get_str("packages");
    let steps = steps_of(found.get_str("steps"));
    running(alloc, file, root, packages, steps)
}

/// The command that words are.
///
/// # Errors
///
/// Only want of memory.
pub fn command_of(alloc: Global, words: &[PlainText]) -> Result<Command, AllocError>
    ensures { IfOk result (λ command. command ≡ command_of words.now) }
{
    match words {
        [] => Ok(Command::Refused),
        [first, rest @ ..] => match first.as_str() {
            "serve" => serve_command(alloc, rest),
            "check" => check_command(alloc, rest),
            "run" => run_command(alloc, rest),
            _ => Ok(Command::Refused),
        },
    }
}
